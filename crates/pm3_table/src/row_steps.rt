//! Single steps on row words, on page words and on marks.
ghost use Rattle.std.specs.Prelude.{◌≡◌, ◌⊎◌, ℕ, ◌+◌, ◌<◌, ◌==◌, true, false, if◌then◌else◌};
ghost use Rattle.pm3_core.specs.declared.events.TheConstants.{ROW_PLACES, ROWS};
ghost use Rattle.pm3_core.specs.Naming.{Names};
ghost use Rattle.pm3_table.specs.declared.view.Deed.TheVariants.{Stored, Stood, Marked, Found, Unmarked};
ghost use Rattle.pm3_table.specs.Deeds.{word_of, marks_of};
ghost use Rattle.pm3_table.specs.Holds.{holds_of};
ghost use Rattle.pm3_table.specs.Ops.{did, refused, knew};
ghost use Rattle.pm3_table.specs.Passes.{IsOf, Becomes};
ghost use Rattle.pm3_table.specs.Telling.{HasInSpace, is_steady, knows_used, mark_by};
ghost use Rattle.pm3_table.specs.Words.{mark_in, space_in, unit_word};

use crate::chronicle::Chronicle;
use crate::plays::{Aim, Finds, Looks, Marks, Stores, Unmarks, Validates};
use crate::shared::{Pass, Shared};
use pm3_core::{PLACES, ROW_PLACES};
use std::marker::Brand;

fn store_at<V: Chronicle, J: Aim>(shared: &Shared<V>, pass: &mut Pass<V>, place: u32, word: u64)
    requires of { IsOf pass.old shared.now }
    requires low { place < ROW_PLACES }
    requires aim { J.at ≡ place }
    ensures { Becomes pass.old pass.new (did pass.old.1 (Stored place word)) }
{
    let at = (ROW_PLACES * pass.row + place) as usize;
    shared
        .table
        .shared
        .store::<Stores<J>>(&mut pass.seat, at, word);
}

/// Stores a word at a place of the pass's row, which does not stand then.
pub fn store_word<V: Chronicle>(shared: &Shared<V>, pass: &mut Pass<V>, place: u32, word: u64)
    requires of { IsOf pass.old shared.now }
    requires low { place < ROW_PLACES }
    ensures { Becomes pass.old pass.new (did pass.old.1 (Stored place word)) }
{
    store_at::<V, Brand>(shared, pass, place, word);
}

fn read_at<V: Chronicle, J: Aim>(
    shared: &Shared<V>,
    pass: &mut Pass<V>,
    row: u32,
    place: u32,
) -> u64
    requires of { IsOf pass.old shared.now }
    requires low { (row < ROWS) × (place < ROW_PLACES) }
    requires aim { (J.in_row ≡ row) × (J.at ≡ place) }
    ensures view { Becomes pass.old pass.new (did pass.old.1 (Found row place result)) }
    ensures own { row ≡ pass.old.1.row → result ≡ word_of pass.old.1.log place }
{
    let at = (ROW_PLACES * row + place) as usize;
    shared.table.shared.load::<Finds<J>>(&mut pass.seat, at)
}

/// Reads the word at a place of a row. Of its own row the pass knows it.
pub fn read_word<V: Chronicle>(shared: &Shared<V>, pass: &mut Pass<V>, row: u32, place: u32) -> u64
    requires of { IsOf pass.old shared.now }
    requires low { (row < ROWS) × (place < ROW_PLACES) }
    ensures view { Becomes pass.old pass.new (did pass.old.1 (Found row place result)) }
    ensures own { row ≡ pass.old.1.row → result ≡ word_of pass.old.1.log place }
{
    read_at::<V, Brand>(shared, pass, row, place)
}

fn validate_at<V: Chronicle, J: Aim>(
    shared: &Shared<V>,
    pass: &mut Pass<V>,
    place: u32,
    page: u32,
) -> u64
    requires of { IsOf pass.old shared.now }
    requires low { place < ROW_PLACES }
    requires named { Names shared.now.1.pages (word_of pass.old.1.log place) page }
    requires aim { (J.told ≡ shared.now.1) × (J.in_row ≡ place) × (J.at ≡ page) }
    ensures view { Becomes pass.old pass.new (if mark_in result == 0 then did pass.old.1 (Stood place) else refused pass.old.1 page result) }
    ensures own { (j : ℕ) → HasInSpace shared.now.1 pass.old.1 j page → result ≡ unit_word 0 (mark_by pass.old.1 page) (j + 1) }
{
    let at = PLACES + page as usize;
    shared.table.shared.load::<Validates<J>>(&mut pass.seat, at)
}

/// Loads the word of the page that a place names. The place stands then where the word shows no mark; else the pass is
/// refused.
pub fn load_named<V: Chronicle>(
    shared: &Shared<V>,
    pass: &mut Pass<V>,
    place: u32,
    page: u32,
) -> u64
    requires of { IsOf pass.old shared.now }
    requires low { place < ROW_PLACES }
    requires named { Names shared.now.1.pages (word_of pass.old.1.log place) page }
    ensures view { Becomes pass.old pass.new (if mark_in result == 0 then did pass.old.1 (Stood place) else refused pass.old.1 page result) }
    ensures own { (j : ℕ) → HasInSpace shared.now.1 pass.old.1 j page → result ≡ unit_word 0 (mark_by pass.old.1 page) (j + 1) }
{
    validate_at::<V, Brand>(shared, pass, place, page)
}

fn look_at<V: Chronicle, J: Aim>(shared: &Shared<V>, pass: &mut Pass<V>, page: u32) -> u64
    requires of { IsOf pass.old shared.now }
    requires low { page < shared.now.1.pages }
    requires used { knows_used shared.now.1 pass.old.1 page ≡ true }
    requires aim { (J.told ≡ shared.now.1) × (J.at ≡ page) }
    ensures view { Becomes pass.old pass.new (if space_in result == 0 then knew pass.old.1 page else pass.old.1) }
    ensures volatile { (j : ℕ) → HasInSpace shared.now.1 pass.old.1 j page → space_in result ≡ j + 1 }
    ensures persistent { is_steady shared.now.1 pass.old.1 page ≡ true → space_in result ≡ 0 }
    ensures own { (j : ℕ) → HasInSpace shared.now.1 pass.old.1 j page → result ≡ unit_word 0 (mark_by pass.old.1 page) (j + 1) }
    ensures held { is_steady shared.now.1 pass.old.1 page ≡ true → holds_of pass.old.1.holds page ≡ (result == pass.old.1.row + 1) }
{
    let at = PLACES + page as usize;
    shared.table.shared.load::<Looks<J>>(&mut pass.seat, at)
}

/// Loads and answers the word of a page that the pass knows to be used. Where the word shows no space, the pass then knows
/// the page to be persistent.
pub fn look<V: Chronicle>(shared: &Shared<V>, pass: &mut Pass<V>, page: u32) -> u64
    requires of { IsOf pass.old shared.now }
    requires low { page < shared.now.1.pages }
    requires used { knows_used shared.now.1 pass.old.1 page ≡ true }
    ensures view { Becomes pass.old pass.new (if space_in result == 0 then knew pass.old.1 page else pass.old.1) }
    ensures volatile { (j : ℕ) → HasInSpace shared.now.1 pass.old.1 j page → space_in result ≡ j + 1 }
    ensures persistent { is_steady shared.now.1 pass.old.1 page ≡ true → space_in result ≡ 0 }
    ensures own { (j : ℕ) → HasInSpace shared.now.1 pass.old.1 j page → result ≡ unit_word 0 (mark_by pass.old.1 page) (j + 1) }
    ensures held { is_steady shared.now.1 pass.old.1 page ≡ true → holds_of pass.old.1.holds page ≡ (result == pass.old.1.row + 1) }
{
    look_at::<V, Brand>(shared, pass, page)
}

fn mark_at<V: Chronicle, J: Aim>(shared: &Shared<V>, pass: &mut Pass<V>, page: u32, space: u32)
    requires of { IsOf pass.old shared.now }
    requires low { page < shared.now.1.pages }
    requires has { HasInSpace shared.now.1 pass.old.1 space page }
    requires bare { marks_of pass.old.1.log page ≡ false }
    requires aim { J.at ≡ page }
    ensures { Becomes pass.old pass.new (did pass.old.1 (Marked page)) }
{
    let at = PLACES + page as usize;
    let word = 256 * (pass.row as u64 + 1) + 65536 * (space as u64 + 1);
    shared
        .table
        .shared
        .store::<Marks<J>>(&mut pass.seat, at, word);
}

/// Marks a page of a space that the pass holds and that it has not marked.
pub fn mark_page<V: Chronicle>(shared: &Shared<V>, pass: &mut Pass<V>, page: u32, space: u32)
    requires of { IsOf pass.old shared.now }
    requires low { page < shared.now.1.pages }
    requires has { HasInSpace shared.now.1 pass.old.1 space page }
    requires bare { marks_of pass.old.1.log page ≡ false }
    ensures { Becomes pass.old pass.new (did pass.old.1 (Marked page)) }
{
    mark_at::<V, Brand>(shared, pass, page, space);
}

fn unmark_at<V: Chronicle, J: Aim>(shared: &Shared<V>, pass: &mut Pass<V>, page: u32, space: u32)
    requires of { IsOf pass.old shared.now }
    requires low { page < shared.now.1.pages }
    requires has { HasInSpace shared.now.1 pass.old.1 space page }
    requires held { marks_of pass.old.1.log page ≡ true }
    requires aim { J.at ≡ page }
    ensures { Becomes pass.old pass.new (did pass.old.1 (Unmarked page)) }
{
    let at = PLACES + page as usize;
    let word = 65536 * (space as u64 + 1);
    shared
        .table
        .shared
        .store::<Unmarks<J>>(&mut pass.seat, at, word);
}

/// Takes the mark off a page that the pass has marked.
pub fn unmark_page<V: Chronicle>(shared: &Shared<V>, pass: &mut Pass<V>, page: u32, space: u32)
    requires of { IsOf pass.old shared.now }
    requires low { page < shared.now.1.pages }
    requires has { HasInSpace shared.now.1 pass.old.1 space page }
    requires held { marks_of pass.old.1.log page ≡ true }
    ensures { Becomes pass.old pass.new (did pass.old.1 (Unmarked page)) }
{
    unmark_at::<V, Brand>(shared, pass, page, space);
}
