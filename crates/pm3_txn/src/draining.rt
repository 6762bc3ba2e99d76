//! Homes are let go, and the two devices are kept.
ghost use Rattle.std.specs.Prelude.{◌≡◌, true, false, Some, length};
ghost use Rattle.pm3_txn.specs.declared.values.Value.TheVariants.{Turn as Turns};
ghost use Rattle.pm3_txn.specs.Draining.{AreNoTurns, HasTurnLast, AreDisksOf, is_turn};

use crate::values::{Turn, Value};
use pm3_disk::Disk;
use pm3_table::Homes;

/// The page file, and the device of the journal, in the last home. The other values are let go.
pub(crate) fn disks_of<D: Disk>(homes: Homes<Value<D>>) -> (D, D)
    requires { HasTurnLast homes }
    ensures { AreDisksOf result.0 result.1 homes }
{
    let mut slots = homes.into_slots();
    let last = slots.pop();
    let Some(slot) = last else { unreachable!() };
    let_go(slots);
    let Turn {
        journal,
        next_name: _,
        high_page: _,
        file,
        opened: _,
    } = turn_of(slot);
    (file, journal.into_disk())
}

pub(crate) fn let_go<D: Disk>(slots: Vec<Option<Value<D>>>)
    requires { AreNoTurns slots.items (length slots.items) }
{
    let mut slots = slots;
    for n in 0..slots.len() {
        let last = slots.pop();
        let Some(slot) = last else { unreachable!() };
        let_slot_go(slot);
    }
    slots.destroy_empty();
}

pub(crate) fn let_slot_go<D: Disk>(slot: Option<Value<D>>)
    requires { is_turn slot ≡ false }
{
    match slot {
        None => {}
        Some(Value::Page(_)) => {}
        Some(Value::Space(_)) => {}
        Some(Value::Turn(_turn)) => unreachable!(),
    }
}

pub(crate) fn turn_of<D: Disk>(slot: Option<Value<D>>) -> Turn<D>
    requires { is_turn slot ≡ true }
    ensures { slot ≡ Some (Turns result) }
{
    match slot {
        None => unreachable!(),
        Some(Value::Page(_)) => unreachable!(),
        Some(Value::Space(_)) => unreachable!(),
        Some(Value::Turn(turn)) => turn,
    }
}
