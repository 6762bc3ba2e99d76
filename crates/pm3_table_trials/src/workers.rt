//! What two mutators do with one table beside each other.
ghost use Rattle.std.specs.Prelude.{◌≡◌, ℕ, ◌<◌, true, false, [], length, slice_index};
ghost use Rattle.pm3_core.specs.declared.events.TheConstants.{PLACES};
ghost use Rattle.pm3_core.specs.Naming.{Names};
ghost use Rattle.pm3_table.specs.Deeds.{marks_of, IsClearedIn};
ghost use Rattle.pm3_table.specs.Holds.{holds_of};
ghost use Rattle.pm3_table.specs.Passes.{IsOf};
ghost use Rattle.pm3_table.specs.Telling.{HasInSpace, is_steady};

use crate::tallies::Tally;
use crate::turns::hold_page;
use pm3_rows::{Words, mark, read_one, scan, store_word, validate};
use pm3_table::{Pass, Shared};
use std::thread;
use std::thread::Threads;

/// Stores a word at the first place of its row, and reads it again.
pub fn write_down(shared: &Shared<Tally>, mut pass: Pass<Tally>, word: u64) -> (Pass<Tally>, u64)
    requires { IsOf pass shared.now }
    ensures { IsOf result.0 shared.now × (result.1 ≡ word) }
{
    store_word(shared, &mut pass, 0, word);
    let row = pass.row();
    let seen = read_one(shared, &mut pass, row, 0);
    (pass, seen)
}

/// Two mutators store and read beside each other, each in its own row.
pub fn write_both<R: Threads + Sync>(
    rt: &R,
    shared: &Shared<Tally>,
    first: Pass<Tally>,
    second: Pass<Tally>,
) -> ((Pass<Tally>, u64), (Pass<Tally>, u64))
    requires of { IsOf first shared.now }
    requires other { IsOf second shared.now }
    ensures passes { IsOf result.0.0 shared.now × IsOf result.1.0 shared.now }
    ensures words { (result.0.1 ≡ 7) × (result.1.1 ≡ 8) }
{
    thread::join(
        rt,
        move || -> (Pass<Tally>, u64)
            requires { IsOf first shared.now }
            ensures { IsOf result.0 shared.entry.now × (result.1 ≡ 7) }
        { write_down(shared, first, 7) },
        move || -> (Pass<Tally>, u64)
            requires { IsOf second shared.now }
            ensures { IsOf result.0 shared.entry.now × (result.1 ≡ 8) }
        { write_down(shared, second, 8) },
    )
}

/// Marks a page of a space that the mutator holds, and then reads every place.
pub fn mark_and_scan(
    shared: &Shared<Tally>,
    mut pass: Pass<Tally>,
    page: u32,
    mut words: Words,
) -> (Pass<Tally>, Words)
    requires of { IsOf pass shared.now }
    requires low { page < shared.now.1.pages }
    requires has { (space : ℕ) × HasInSpace shared.now.1 pass.1 space page }
    requires bare { marks_of pass.1.log page ≡ false }
    requires empty { words ≡ [] }
    ensures of { IsOf result.0 shared.now }
    ensures full { length result.1 ≡ PLACES }
    ensures cleared { ((n : ℕ) → n < PLACES → Names shared.now.1.pages (slice_index result.1 n) page → ⊥) → IsClearedIn shared.now.1.pages result.0.1.log page }
{
    mark(shared, &mut pass, page);
    scan(shared, &mut pass, &mut words);
    (pass, words)
}

/// Stores a word at the first place of the row, and tells whether it stands.
pub fn store_and_validate(
    shared: &Shared<Tally>,
    mut pass: Pass<Tally>,
    word: u64,
) -> (Pass<Tally>, bool)
    requires { IsOf pass shared.now }
    ensures { IsOf result.0 shared.now }
{
    store_word(shared, &mut pass, 0, word);
    let stands = validate(shared, &mut pass, 0).is_ok();
    (pass, stands)
}

/// One mutator marks a page and scans, while another stores a word and validates it. The answer tells whether the word was
/// read wherever it stood before the mark, and is the same in whatever order their steps come.
pub fn mark_beside<R: Threads + Sync>(
    rt: &R,
    shared: &Shared<Tally>,
    first: Pass<Tally>,
    second: Pass<Tally>,
    page: u32,
    word: u64,
    words: Words,
) -> bool
    requires of { IsOf first shared.now }
    requires other { IsOf second shared.now }
    requires low { page < shared.now.1.pages }
    requires has { (space : ℕ) × HasInSpace shared.now.1 first.1 space page }
    requires bare { marks_of first.1.log page ≡ false }
    requires empty { words ≡ [] }
{
    let row = second.row();
    let (marking, storing) = thread::join(
        rt,
        move || -> (Pass<Tally>, Words)
            requires of { IsOf first shared.now }
            requires low { page < shared.now.1.pages }
            requires has { (space : ℕ) × HasInSpace shared.now.1 first.1 space page }
            requires bare { marks_of first.1.log page ≡ false }
            requires empty { words ≡ [] }
            ensures { length result.1 ≡ PLACES }
        { mark_and_scan(shared, first, page, words) },
        move || -> (Pass<Tally>, bool)
            requires { IsOf second shared.now }
        { store_and_validate(shared, second, word) },
    );
    let (_, read) = marking;
    let (_, stands) = storing;
    !stands || read.get(row, 0) == word
}

/// Takes a page and gives it back, and then stores a word and validates it. The answer tells whether nothing was refused.
pub fn hold_and_store(
    shared: &Shared<Tally>,
    mut pass: Pass<Tally>,
    page: u32,
    word: u64,
) -> (Pass<Tally>, bool)
    requires of { IsOf pass shared.now }
    requires low { page < shared.now.1.pages }
    requires free { holds_of pass.1.holds page ≡ false }
    requires steady { is_steady shared.now.1 pass.1 page ≡ true }
    ensures { IsOf result.0 shared.now }
{
    let was_free = hold_page(shared, &mut pass, page).is_ok();
    let (pass, stands) = store_and_validate(shared, pass, word);
    (pass, was_free && stands)
}

/// Two mutators do so beside each other, each with a page and a word of its own.
pub fn hold_beside<R: Threads + Sync>(
    rt: &R,
    shared: &Shared<Tally>,
    first: (Pass<Tally>, u32, u64),
    second: (Pass<Tally>, u32, u64),
) -> (bool, bool)
    requires of { IsOf first.0 shared.now × IsOf second.0 shared.now }
    requires low { (first.1 < shared.now.1.pages) × (second.1 < shared.now.1.pages) }
    requires free { (holds_of first.0.1.holds first.1 ≡ false) × (holds_of second.0.1.holds second.1 ≡ false) }
    requires steady { (is_steady shared.now.1 first.0.1 first.1 ≡ true) × (is_steady shared.now.1 second.0.1 second.1 ≡ true) }
{
    let (pass, page, word) = first;
    let (other, other_page, other_word) = second;
    let ((_, one), (_, two)) = thread::join(
        rt,
        move || -> (Pass<Tally>, bool)
            requires of { IsOf pass shared.now }
            requires low { page < shared.now.1.pages }
            requires free { holds_of pass.1.holds page ≡ false }
            requires steady { is_steady shared.now.1 pass.1 page ≡ true }
        { hold_and_store(shared, pass, page, word) },
        move || -> (Pass<Tally>, bool)
            requires of { IsOf other shared.now }
            requires low { other_page < shared.now.1.pages }
            requires free { holds_of other.1.holds other_page ≡ false }
            requires steady { is_steady shared.now.1 other.1 other_page ≡ true }
        { hold_and_store(shared, other, other_page, other_word) },
    );
    (one, two)
}
