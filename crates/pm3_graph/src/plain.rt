//! The plain heap.
ghost use Rattle.std.specs.Prelude.{◌≡◌, ◌≢◌, ◌⊎◌, Ok, Err, IfOk, IfErr, OnErr, IsErrOf, MatchResult};
ghost use Rattle.std.specs.FinMap.{get};
ghost use Rattle.pm3_graph.specs.Operation.{IsAllowed, TakesMemory, outcome, read_of, write_of, new_of, unless_taken, empty_graph};

use crate::kept::Kept;
use crate::operations::{Op, PlainFault};
use crate::records::Records;
use pm3_types::{Catalog, Place, TypeNo};
use std::alloc::Global;
use std::marker::Model;

/// A graph in an ordered map, on which operations are done one at a time, plainly and slowly.
#[derive(Drop)]
pub struct Plain {
    alloc: Global,
    /// The records, by name.
    records: Records,
    /// The names in the root slots.
    roots: [u64; 16],
}

impl Model for Plain {
    ghost use Rattle.std.specs.Prelude.{Some};
    ghost use Rattle.pm3_types.specs.Graph.{Part, coded_part};

    ghost Value = { Part };

    ghost coded = { coded_part };

    ghost view = { λ p. record { records = p.records; roots = Some p.roots } };
}

impl Plain {
    /// A graph without records, whose roots are nil. It keeps `alloc` and takes memory as records are added.
    pub fn new(alloc: Global) -> Plain
        ensures { result ≡ empty_graph }
    {
        Plain {
            alloc,
            records: Records::new(alloc),
            roots: [0; 16],
        }
    }

    /// Does an operation, and answers the value read, or 0 for a write. After a refusal the graph is as it was.
    pub fn apply(&mut self, catalog: &Catalog, op: Op) -> Result<u64, PlainFault>
        requires { IsAllowed catalog.now op }
        ensures ok { IfOk result (λ answer. outcome catalog.now op self.old ≡ Ok (answer, self.new)) }
        ensures refused { IfErr result (λ fault. (fault ≡ PlainFault.Memory) ⊎ (outcome catalog.now op self.old ≡ Err fault)) }
        ensures memory { IsErrOf result PlainFault.Memory → TakesMemory op }
        ensures same { OnErr result (self.new ≡ self.old) }
    {
        match op {
            Op::New { name, ty, tail } => self.make(catalog, name, ty, tail),
            Op::Word { name, field } => self.read(catalog, name, Place::Word(field)),
            Op::SetWord { name, field, value } => self.write(
                catalog,
                name,
                Place::Word(field),
                value,
            ),
            Op::Reference { name, field } => self.read(catalog, name, Place::Reference(field)),
            Op::SetReference { name, field, to } => self.write(
                catalog,
                name,
                Place::Reference(field),
                to,
            ),
            Op::TailRef { name, at } => self.read(catalog, name, Place::TailRef(at)),
            Op::SetTailRef { name, at, to } => self.write(catalog, name, Place::TailRef(at), to),
            Op::Byte { name, at } => self.read(catalog, name, Place::Byte(at)),
            Op::SetByte { name, at, value } => self.write(catalog, name, Place::Byte(at), value),
            Op::Root { slot } => Ok(self.roots[slot as usize]),
            Op::SetRoot { slot, to } => {
                self.roots[slot as usize] = to;
                Ok(0)
            }
        }
    }

    /// Adds a record of zeros.
    fn make(
        &mut self,
        catalog: &Catalog,
        name: u64,
        ty: TypeNo,
        tail: u32,
    ) -> Result<u64, PlainFault>
        ensures ok { IfOk result (λ answer. outcome catalog.now (Op.New name ty tail) self.old ≡ Ok (answer, self.new)) }
        ensures refused { IfErr result (λ fault. (fault ≡ PlainFault.Memory) ⊎ (outcome catalog.now (Op.New name ty tail) self.old ≡ Err fault)) }
        ensures same { OnErr result (self.new ≡ self.old) }
    {
        if name == 0 || self.records.get(name).is_some() {
            return Err(PlainFault::Taken { name });
        }
        let Some(map) = catalog.get(ty) else {
            return Err(PlainFault::NoPlace);
        };
        let Ok(kept) = Kept::blank(self.alloc, map, ty, tail) else {
            return Err(PlainFault::Memory);
        };
        if self.records.insert(name, kept).is_err() {
            return Err(PlainFault::Memory);
        }
        Ok(0)
    }

    /// Answers the value at a place of a record.
    fn read(&self, catalog: &Catalog, name: u64, place: Place) -> Result<u64, PlainFault>
        ensures memory { result ≢ Err PlainFault.Memory }
        ensures step { MatchResult result (λ answer. read_of catalog.now self.now name place (get self.now.records name) ≡ Ok (answer, self.now)) (λ fault. read_of catalog.now self.now name place (get self.now.records name) ≡ Err fault) }
    {
        let Some(kept) = self.records.get(name) else {
            return Err(PlainFault::NoRecord { name });
        };
        let Some(map) = catalog.get(kept.ty()) else {
            return Err(PlainFault::NoPlace);
        };
        if !kept.has(map, place) {
            return Err(PlainFault::NoPlace);
        }
        Ok(kept.value(map, place))
    }

    /// Puts a value in a place of a record, and answers 0.
    fn write(
        &mut self,
        catalog: &Catalog,
        name: u64,
        place: Place,
        value: u64,
    ) -> Result<u64, PlainFault>
        ensures memory { result ≢ Err PlainFault.Memory }
        ensures step { MatchResult result (λ answer. write_of catalog.now self.old name place value (get self.old.records name) ≡ Ok (answer, self.new)) (λ fault. (write_of catalog.now self.old name place value (get self.old.records name) ≡ Err fault) × (self.new ≡ self.old)) }
    {
        let Some(kept) = self.records.get(name) else {
            return Err(PlainFault::NoRecord { name });
        };
        let Some(map) = catalog.get(kept.ty()) else {
            return Err(PlainFault::NoPlace);
        };
        if !kept.has(map, place) {
            return Err(PlainFault::NoPlace);
        }
        self.records.set(name, map, place, value);
        Ok(0)
    }
}
