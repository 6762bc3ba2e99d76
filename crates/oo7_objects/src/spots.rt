//! Where objects lie.
ghost use Rattle.std.specs.Prelude.{◌≡◌, ◌≢◌, ◌<◌, ◌≤◌, true};
ghost use Rattle.pm3_core.specs.declared.naming.TheConstants.{BASE};
ghost use Rattle.pm3_types.specs.Layout.{address, is_address, page_in};
ghost use Rattle.oo7_objects.specs.Wholes.{Kept, KeepsRow, Knows, name_at, name_on};

use crate::standing::stand;
use pm3_disk::Disk;
use pm3_page::{is_word, page_within, word_within};
use pm3_txn::Txn;

/// Where an object lies: the number of its page, and that of the word of the page at which it begins.
#[derive(Clone, Copy, Debug, PartialEq, Eq, Drop)]
pub struct Spot {
    pub page: u32,
    pub word: u32,
}

/// Where the object lies to which place i of the row leads, which is known not to be nil.
pub fn spot_of<D: Disk>(txn: &mut Txn<'_, D>, i: usize) -> Spot
    requires low { i < 512 }
    requires some { Knows txn.old (λ st w. name_at txn.old st i ≢ 0) }
    ensures told { Knows txn.new (λ st w. name_on txn.new st result.page result.word ≡ name_at txn.old st i) }
    ensures kept { Kept txn.old txn.new }
    ensures row { KeepsRow txn.old txn.new 0 0 }
{
    stand(txn);
    let at = txn.stack_word(i);
    spot_at(at)
}

/// The page and the word of an address. Where it is none of a store, which no reference is, they are 0.
#[tactic(auto, using(pm3_types::proofs::Addressing::address_of))]
fn spot_at(at: u64) -> Spot
    ensures spot { is_address BASE at ≡ true → page_in BASE at < 16384 → address BASE result.page result.word ≡ at }
{
    if !is_word(at) {
        return Spot { page: 0, word: 0 };
    }
    let page = page_within(at);
    if page >= 16384 {
        return Spot { page: 0, word: 0 };
    }
    Spot {
        page: page as u32,
        word: word_within(at) as u32,
    }
}
