//! A first program: it makes a card and a book that refer to each other, commits them, and reads them back once the store is
//! opened again.
ghost use Rattle.std.specs.Prelude.{◌≡◌};
ghost use Rattle.pm3_txn.specs.Underway.{Belongs, HoldsNothing};

use crate::closing::closed;
use crate::counting::ended;
use crate::stores::started;
use pm3_disk::Disk;
use pm3_store::create;
use pm3_txn::{AccessFault, Heap, Mutator, Txn};
use pm3_types::{Catalog, Tail, TypeMap};
use std::alloc::Global;

/// The two classes, which are also the places of the row for an object of each.
const CARD: u16 = 0;

const BOOK: u16 = 1;

/// A card has the number of its books, and a reference to the last of them; a book has a reference to its card, and a title.
fn classes(alloc: Global) -> Option<Catalog> {
    let mut catalog = Catalog::new(alloc);
    for map in [
        TypeMap::new(2, 2, Tail::Empty),
        TypeMap::new(1, 1, Tail::Bytes),
    ] {
        let Ok(_) = catalog.add(map?) else {
            return None;
        };
    }
    Some(catalog)
}

/// Makes a card and a book, links them, and puts the book under root 0. It tells whether the store has the two classes.
fn link<D: Disk>(txn: &mut Txn<'_, D>) -> Result<bool, AccessFault>
    ensures { txn.new.heap ≡ txn.old.heap }
{
    if !txn.may_make(CARD, 0) || !txn.may_make(BOOK, 5) {
        return Ok(false);
    }
    let (card, book) = (usize::from(CARD), usize::from(BOOK));
    txn.make(CARD, 0, card)?;
    txn.make(BOOK, 5, book)?;
    txn.set_word(card, 0, 1)?;
    txn.set_reference(card, 1, book)?;
    txn.set_reference(book, 0, card)?;
    txn.set_bytes(book, 0, b"Emma.")?;
    txn.set_root(0, book)?;
    Ok(true)
}

/// The number of books of the card to which the book under root 0 refers, and the book's title.
fn look<D: Disk>(txn: &mut Txn<'_, D>) -> Result<(u64, [u8; 5]), AccessFault>
    ensures { txn.new.heap ≡ txn.old.heap }
{
    let (card, book) = (usize::from(CARD), usize::from(BOOK));
    let mut title = [0u8; 5];
    txn.root(0, book)?;
    txn.reference(book, 0, card)?;
    txn.bytes(book, 0, &mut title)?;
    Ok((txn.word(card, 0)?, title))
}

/// Makes and links the two objects in a transaction. It tells whether they were committed.
fn write<D: Disk>(heap: &Heap<D>, mutator: Mutator<D>) -> (Mutator<D>, bool)
    requires of { Belongs D.Reader.content heap.now mutator }
    requires bare { HoldsNothing mutator }
    ensures belongs { Belongs D.Reader.content heap.now result.0 }
    ensures bare { HoldsNothing result.0 }
{
    let mut txn = mutator.begin(heap, 1);
    let Ok(true) = link(&mut txn) else {
        return (txn.abort(), false);
    };
    let (mutator, done) = ended(txn);
    (mutator, done.is_ok())
}

/// Makes a store on two empty devices, writes the two objects, closes the heap, opens the store again, and reads them back.
pub fn write_and_read<D: Disk + Drop>(
    alloc: Global,
    mut pages: D,
    mut journal: D,
) -> Option<Result<(u64, [u8; 5]), AccessFault>>
where
    D::Reader: Drop,
{
    let Ok(()) = create(&mut pages, &mut journal, 64, &classes(alloc)?) else {
        return None;
    };
    let (heap, first) = started(alloc, pages, journal)?;
    let (first, done) = write(&heap, first);
    if !done {
        return None;
    }
    let (pages, journal) = closed(heap, first)?;
    let (heap, first) = started(alloc, pages, journal)?;
    let mut txn = first.begin(&heap, 2);
    Some(look(&mut txn))
}
