//! Words of a pass's own row, and reads of any.
ghost use Rattle.std.specs.Prelude.{◌≡◌, ◌≢◌, ℕ, ◌<◌, true, IfErr, OnOk};
ghost use Rattle.pm3_core.specs.declared.events.TheConstants.{ROW_PLACES, ROWS};
ghost use Rattle.pm3_core.specs.Naming.{Names};
ghost use Rattle.pm3_rows.specs.Validated.{Stands, reread};
ghost use Rattle.pm3_table.specs.declared.unit.Unit.{Unit};
ghost use Rattle.pm3_table.specs.declared.unit.Unit.TheVariants.{Page};
ghost use Rattle.pm3_table.specs.declared.view.Deed.TheVariants.{Stored, Found};
ghost use Rattle.pm3_table.specs.Deeds.{word_of, marks_of};
ghost use Rattle.pm3_table.specs.Ops.{did, refused};
ghost use Rattle.pm3_table.specs.Passes.{IsOf, Becomes};
ghost use Rattle.pm3_table.specs.Telling.{HasInSpace};
ghost use Rattle.pm3_table.specs.Words.{mark_in};

use pm3_core::page_of;
use pm3_table::{Busy, Chronicle, Pass, Shared, Unit, load_named, read_word};

/// Stores a word at a place of the pass's row. The place does not stand until it is validated.
pub fn store_word<V: Chronicle>(shared: &Shared<V>, pass: &mut Pass<V>, place: usize, word: u64)
    requires of { IsOf pass.old shared.now }
    requires low { place < ROW_PLACES }
    ensures { Becomes pass.old pass.new (did pass.old.1 (Stored place word)) }
{
    pm3_table::store_word(shared, pass, place as u32, word);
}

/// Stores 0 at a place of the pass's row.
pub fn clear<V: Chronicle>(shared: &Shared<V>, pass: &mut Pass<V>, place: usize)
    requires of { IsOf pass.old shared.now }
    requires low { place < ROW_PLACES }
    ensures { Becomes pass.old pass.new (did pass.old.1 (Stored place 0)) }
{
    pm3_table::store_word(shared, pass, place as u32, 0);
}

/// Reads the word at a place of a row.
pub fn read_one<V: Chronicle>(shared: &Shared<V>, pass: &mut Pass<V>, row: u32, place: usize) -> u64
    requires of { IsOf pass.old shared.now }
    requires low { (row < ROWS) × (place < ROW_PLACES) }
    ensures view { Becomes pass.old pass.new (did pass.old.1 (Found row place result)) }
    ensures own { row ≡ pass.old.1.row → result ≡ word_of pass.old.1.log place }
{
    read_word(shared, pass, row, place as u32)
}

/// Loads the word of the page that a place names. At Ok the place stands, or names no page. The error is the page's word,
/// which shows a mark; a page of a space that the pass holds has none but its own.
pub fn validate<V: Chronicle>(
    shared: &Shared<V>,
    pass: &mut Pass<V>,
    place: usize,
) -> Result<(), Busy>
    requires of { IsOf pass.old shared.now }
    requires low { place < ROW_PLACES }
    ensures stands { OnOk result (Stands shared.now.1.pages pass.old pass.new place) }
    ensures busy { IfErr result (λ busy. (page : ℕ) × Names shared.now.1.pages (word_of pass.old.1.log place) page × (busy.unit ≡ Page page) × (mark_in busy.word ≢ 0) × Becomes pass.old pass.new (refused (reread pass.old.1 place) page busy.word)) }
    ensures own { IfErr result (λ busy. (page j : ℕ) → busy.unit ≡ Page page → HasInSpace shared.now.1 pass.old.1 j page → marks_of pass.old.1.log page ≡ true) }
{
    let row = pass.row();
    let word = read_word(shared, pass, row, place as u32);
    let Some(page) = page_of(word, shared.page_count()) else {
        return Ok(());
    };
    let found = load_named(shared, pass, place as u32, page);
    if found / 256 % 256 != 0 {
        return Err(Busy {
            unit: Unit::Page(page),
            word: found,
        });
    }
    Ok(())
}
