//! The values of a table's units, while no one shares them.
ghost use Rattle.std.specs.Prelude.{◌≡◌, ℕ, ◌+◌, ◌-◌, ◌<◌, ◌≤◌, ◌++◌, [], ◌∷◌, IfOk, None, Some, replicate, length, slice_index_or, slice_set, vec_capacity};
ghost use Rattle.pm3_table.specs.Numbers.{number, IsUnit};

use crate::unit::Unit;
use pm3_types::Memory;
use std::alloc::Global;
use std::marker::Model;
use std::mem;

/// The units of a table beside its pages: 32 spaces, and the turn.
const OTHERS: usize = 33;

/// A value or none for each unit of a table: its pages, then the 32 spaces, then the turn. Contracts see the list of these.
#[derive(Drop)]
pub struct Homes<V> {
    pub(crate) slots: Vec<Option<V>>,
}

impl<V> Model for Homes<V> {
    ghost use Rattle.std.specs.Prelude.{◌≤◌, List, Option, length};

    ghost Value = { List (Option V) };

    ghost view = { λ h. h.slots.items };

    ghost invariant = { λ h. 33 ≤ length h.slots.items };
}

impl<V> Homes<V> {
    /// Homes of a table with so many pages, without a value.
    pub fn new(alloc: Global, pages: u32) -> Result<Homes<V>, Memory>
        ensures { IfOk result (λ homes. homes ≡ replicate (pages + 33) None) }
    {
        let slots = empty_slots(alloc, pages as usize + OTHERS)?;
        Ok(Homes { slots })
    }

    /// Puts a value into the home of a unit that has none. It takes no memory.
    pub fn set(&mut self, unit: Unit, value: V)
        requires unit { IsUnit (length self.old - 33) unit }
        requires empty { slice_index_or self.old (number (length self.old - 33) unit) None ≡ None }
        ensures { self.new ≡ slice_set self.old (number (length self.old - 33) unit) (Some value) }
    {
        let at = self.index_of(unit);
        let before = mem::replace(&mut self.slots[at], Some(value));
        let None = before else { unreachable!() };
    }

    /// Takes the value out of the home of a unit, which has none then. It takes no memory.
    pub fn take(&mut self, unit: Unit) -> Option<V>
        requires { IsUnit (length self.old - 33) unit }
        ensures value { result ≡ slice_index_or self.old (number (length self.old - 33) unit) None }
        ensures after { self.new ≡ slice_set self.old (number (length self.old - 33) unit) None }
    {
        let at = self.index_of(unit);
        mem::replace(&mut self.slots[at], None)
    }

    /// The values, one for each unit.
    pub fn into_slots(self) -> Vec<Option<V>>
        ensures { result.items ≡ self }
    {
        let Homes { slots } = self;
        slots
    }

    fn index_of(&self, unit: Unit) -> usize
        requires { IsUnit (length self.now - 33) unit }
        ensures value { result ≡ number (length self.now - 33) unit }
        ensures low { result < length self.now }
    {
        let pages = self.slots.len() - OTHERS;
        match unit {
            Unit::Page(page) => page as usize,
            Unit::Space(space) => pages + space as usize,
            Unit::Turn => pages + 32,
        }
    }
}

fn empty_slots<V>(alloc: Global, count: usize) -> Result<Vec<Option<V>>, Memory>
    ensures { IfOk result (λ slots. slots.items ≡ replicate count None) }
{
    let Ok(mut slots) = Vec::with_capacity(alloc, count) else {
        return Err(Memory);
    };
    for n in 0..count {
        add(&mut slots, None);
    }
    Ok(slots)
}

/// Adds an element to a vector that has room for it.
pub(crate) fn add<T>(slots: &mut Vec<T>, value: T)
    requires { length slots.old.items < vec_capacity slots.old }
    ensures items { slots.new.items ≡ slots.old.items ++ value ∷ [] }
    ensures room { vec_capacity slots.old ≤ vec_capacity slots.new }
{
    let pushed = slots.push(value);
    let Ok(()) = pushed else { unreachable!() };
}
