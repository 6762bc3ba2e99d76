//! The records of the plain heap by their names.
ghost use Rattle.std.specs.Prelude.{◌≡◌, ℕ, Some, true, OnOk, OnErr, IfNone, IfSome};
ghost use Rattle.std.specs.Option.{option_copied};
ghost use Rattle.std.specs.FinMap.{get, insert, empty};
ghost use Rattle.pm3_types.specs.Record.{Record};
ghost use Rattle.pm3_types.specs.Places.{is_place_of, with_value};

use crate::kept::Kept;
use pm3_types::{Place, TypeMap};
use std::alloc::{AllocError, Global};
use std::collections::BTreeMap;
use std::marker::Model;

/// The records of the plain heap by their names.
#[derive(Drop)]
pub(crate) struct Records {
    kept: BTreeMap<u64, Kept>,
}

impl Model for Records {
    ghost use Rattle.std.specs.FinMap.{code, from_entries};
    ghost use Rattle.std.specs.Coded.{coded_ℕ};
    ghost use Rattle.pm3_types.specs.Record.{coded_record};
    ghost use Rattle.pm3_types.specs.Graph as graph;

    ghost Value = { graph.Records };

    ghost coded = { code coded_ℕ coded_record };

    ghost view = { λ r. from_entries r.kept.entries };
}

impl Records {
    pub(crate) fn new(alloc: Global) -> Records
        ensures { result ≡ empty }
    {
        Records {
            kept: BTreeMap::new(alloc),
        }
    }

    /// The record of a name.
    pub(crate) fn get(&self, name: u64) -> Option<&Kept>
        ensures { option_copied result ≡ get self.now name }
    {
        self.kept.get(&name)
    }

    /// Adds a record, or replaces that of its name.
    pub(crate) fn insert(&mut self, name: u64, kept: Kept) -> Result<(), AllocError>
        ensures ok { OnOk result (self.new ≡ insert self.old name kept) }
        ensures err { OnErr result (self.new ≡ self.old) }
    {
        match self.kept.insert(name, kept) {
            Ok(_) => Ok(()),
            Err(_) => Err(AllocError),
        }
    }

    /// Puts a value in a place of the record of a name, if it is there.
    pub(crate) fn set(&mut self, name: u64, map: TypeMap, place: Place, value: u64)
        requires { (r : Record) → get self.old name ≡ Some r → is_place_of map r place ≡ true }
        ensures { (r : Record) → get self.old name ≡ Some r → self.new ≡ insert self.old name (with_value r place value) }
    {
        let Some(kept) = self.kept.get_mut(&name) else {
            return;
        };
        kept.set(map, place, value);
    }
}
