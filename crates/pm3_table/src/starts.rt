//! A table is made.
ghost use Rattle.std.specs.Prelude.{◌≡◌, ℕ, IfOk, IfErr};
ghost use Rattle.pm3_table.specs.FirstHomes.{FirstHomes, IsTold, told_by, faults_in};
ghost use Rattle.pm3_table.specs.OpensBelow.{OpensBelow};
ghost use Rattle.pm3_table.specs.Passes.{IsOf};
ghost use Rattle.pm3_table.specs.Starting.{first_view};

use crate::chronicle::Chronicle;
use crate::homes::Homes;
use crate::marks::Marks4;
use crate::rule::Key;
use crate::shared::{Pass, Shared};
use atomic_table::{Refused, Table};
use pm3_core::PLACES;
use pm3_types::Memory;
use std::alloc::Global;
use std::snapshot::Snapshot;

impl<V: Chronicle> Shared<V> {
    /// Makes a table with these values and its first mutator. The pages below the frontier are in use. Without memory the
    /// values come back.
    pub fn start(
        alloc: Global,
        marks: Marks4,
        homes: Homes<V>,
    ) -> Result<(Shared<V>, Pass<V>), (Memory, Homes<V>)>
        requires rows { marks.rows ≡ 1 }
        requires told { IsTold (told_by V.opening marks homes) }
        requires opening { OpensBelow (told_by V.opening marks homes) }
        requires homes { FirstHomes V.stands V.spans (told_by V.opening marks homes) homes }
        ensures ok { IfOk result (λ made. (made.0.1 ≡ told_by V.opening marks homes) × IsOf made.1 made.0 × (made.1.1 ≡ first_view (faults_in V.counted marks homes))) }
        ensures err { IfErr result (λ refused. refused.1 ≡ homes) }
    {
        let Marks4 {
            pages,
            frontier,
            next_name,
            rows,
        } = marks;
        let counters = PLACES + (pages as usize + 33);
        let Ok(mut words) = vec![in alloc; 0u64; counters + 3] else {
            return Err((Memory, homes));
        };
        words[counters] = frontier as u64;
        words[counters + 1] = next_name;
        words[counters + 2] = rows as u64;
        let Homes { slots } = homes;
        let Some(first) = &slots[pages as usize + 32] else {
            unreachable!();
        };
        let turn = Snapshot::of(first);
        let key = Key {
            pages,
            frontier,
            next_name,
            turn,
        };
        match Table::new(alloc, &words, slots, &key) {
            Ok((table, seat)) => Ok((
                Shared { table, pages },
                Pass {
                    seat,
                    row: 0,
                    joined: 1,
                },
            )),
            Err(Refused { slots }) => Err((Memory, Homes { slots })),
        }
    }
}
