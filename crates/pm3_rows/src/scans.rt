//! A scan of every place of all rows.
ghost use Rattle.std.specs.Prelude.{◌≡◌, ℕ, ◌+◌, ◌*◌, ◌<◌, true, List, [], ◌∷◌, ◌++◌, length, slice_index, Some, IfOk};
ghost use Rattle.pm3_core.specs.declared.events.TheConstants.{PLACES, ROW_PLACES, ROWS};
ghost use Rattle.pm3_core.specs.Naming.{Names};
ghost use Rattle.pm3_rows.specs.Scans.{scanned};
ghost use Rattle.pm3_table.specs.Deeds.{marks_of, IsClearedIn};
ghost use Rattle.pm3_table.specs.Passes.{IsOf, Becomes};
ghost use Rattle.pm3_table.specs.Reads.{read_of, marked_then};

use pm3_core::{PLACES, ROW_PLACES};
use pm3_table::{Chronicle, Memory, Pass, Shared, read_word};
use std::alloc::Global;
use std::marker::Model;

/// A list of words, with room for one word of each place.
#[derive(Drop)]
pub struct Words {
    items: Vec<u64>,
}

impl Model for Words {
    ghost use Rattle.std.specs.Prelude.{ℕ, List, ◌≤◌, vec_capacity};
    ghost use Rattle.pm3_core.specs.declared.events.TheConstants.{PLACES};

    ghost Value = { List ℕ };

    ghost view = { λ w. w.items.items };

    ghost invariant = { λ w. PLACES ≤ vec_capacity w.items };
}

impl Words {
    /// An empty list.
    pub fn room(alloc: Global) -> Result<Words, Memory>
        ensures { IfOk result (λ words. words ≡ []) }
    {
        match Vec::with_capacity(alloc, PLACES) {
            Ok(items) => Ok(Words { items }),
            Err(_) => Err(Memory),
        }
    }

    /// The word at a place of a row, of a full list.
    pub fn get(&self, row: u32, place: usize) -> u64
        requires full { length self.now ≡ PLACES }
        requires low { (row < ROWS) × (place < ROW_PLACES) }
        ensures { result ≡ slice_index self.now (ROW_PLACES * row + place) }
    {
        self.items[(ROW_PLACES * row) as usize + place]
    }
}

/// Reads every place of all rows, row by row, into an empty list. A page that was marked and that no word read names is
/// cleared then.
pub fn scan<V: Chronicle>(shared: &Shared<V>, pass: &mut Pass<V>, out: &mut Words)
    requires of { IsOf pass.old shared.now }
    requires empty { out.old ≡ [] }
    ensures full { length out.new ≡ PLACES }
    ensures view { Becomes pass.old pass.new (record pass.old.1 { log = scanned 0 out.new pass.old.1.log }) }
    ensures words { (n : ℕ) → n < PLACES → read_of pass.new.1.log n ≡ Some (slice_index out.new n) }
    ensures marks { (page : ℕ) → marked_then pass.new.1.log page ≡ marks_of pass.old.1.log page }
    ensures cleared { (page : ℕ) → marks_of pass.old.1.log page ≡ true → ((n : ℕ) → n < PLACES → Names shared.now.1.pages (slice_index out.new n) page → ⊥) → IsClearedIn shared.now.1.pages pass.new.1.log page }
{
    for n in 0..PLACES {
        let word = read_word(shared, pass, n as u32 / ROW_PLACES, n as u32 % ROW_PLACES);
        out.add(word);
    }
}

impl Words {
    fn add(&mut self, word: u64)
        requires { length self.old < PLACES }
        ensures { self.new ≡ self.old ++ word ∷ [] }
    {
        if self.items.push(word).is_err() {
            unreachable!();
        }
    }
}
