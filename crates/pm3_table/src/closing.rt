//! A table is closed by its last mutator.
ghost use Rattle.std.specs.Prelude.{◌≡◌, ℕ, ◌+◌, ◌≤◌, false, length, IfOk, IfErr};
ghost use Rattle.std.specs.Mem.Slots.{slots_items, slots_len, IsFull};
ghost use Rattle.pm3_table.specs.Closing.{IsClosed, IsCloseFault};
ghost use Rattle.pm3_table.specs.Holds.{holds_of};
ghost use Rattle.pm3_table.specs.Passes.{IsOf};

use crate::chronicle::Chronicle;
use crate::close_fault::CloseFault;
use crate::homes::{Homes, add};
use crate::plays::Lasts;
use crate::shared::{Pass, Shared};
use atomic_table::Closed;
use pm3_core::PLACES;
use std::alloc::Global;

impl<V: Chronicle> Shared<V> {
    /// Closes a table for a pass that holds nothing. At Ok each home has the value of its unit. It is refused exactly where
    /// the number of mutators made is not that of those joined into this one, itself among them; and where there is no memory
    /// for the homes, the values come in plain slots.
    pub fn close(self, alloc: Global, pass: Pass<V>) -> Result<Homes<V>, CloseFault<V>>
        requires of { IsOf pass self }
        requires bare { (u : ℕ) → holds_of pass.1.holds u ≡ false }
        ensures ok { IfOk result (λ homes. IsClosed V.stands V.counted self.1 pass.1 (length pass.1.kept + 1) homes) }
        ensures err { IfErr result (IsCloseFault V.stands V.counted self pass) }
    {
        match ended(self, pass) {
            Ok(closed) => match gathered(alloc, closed) {
                Ok(homes) => Ok(homes),
                Err(homes) => Err(CloseFault::Memory { homes }),
            },
            Err(fault) => Err(fault),
        }
    }
}

// The table once it is seen that no other mutator lives.
fn ended<V: Chronicle>(
    shared: Shared<V>,
    mut pass: Pass<V>,
) -> Result<Closed<Option<V>, Global>, CloseFault<V>>
    requires of { IsOf pass shared }
    requires bare { (u : ℕ) → holds_of pass.1.holds u ≡ false }
    ensures ok { IfOk result (λ closed. IsFull closed.slots × (33 ≤ slots_len closed.slots) × IsClosed V.stands V.counted shared.1 pass.1 (length pass.1.kept + 1) (slots_items closed.slots)) }
    ensures err { IfErr result (IsCloseFault V.stands V.counted shared pass) }
{
    let at = PLACES + (shared.pages as usize + 33) + 2;
    let made = shared
        .table
        .shared
        .load::<Lasts>(&mut pass.seat, at)
        .min(32) as u32;
    if made != pass.joined {
        let joined = pass.joined;
        return Err(CloseFault::NotAll {
            made,
            joined,
            shared,
            pass,
        });
    }
    let Shared { table, pages: _ } = shared;
    let Pass {
        seat,
        row: _,
        joined: _,
    } = pass;
    Ok(table.close_with(seat))
}

// The values of a closed table, as homes.
fn gathered<V>(
    alloc: Global,
    mut closed: Closed<Option<V>, Global>,
) -> Result<Homes<V>, Closed<Option<V>, Global>>
    requires full { IsFull closed.slots }
    requires wide { 33 ≤ slots_len closed.slots }
    ensures ok { IfOk result (λ homes. homes ≡ slots_items closed.slots) }
    ensures err { IfErr result (λ kept. kept ≡ closed) }
{
    let count = closed.slot_count();
    let Ok(mut slots) = Vec::with_capacity(alloc, count) else {
        return Err(closed);
    };
    for at in 0..count {
        let value = closed.take(at);
        add(&mut slots, value);
    }
    closed.free();
    Ok(Homes { slots })
}
