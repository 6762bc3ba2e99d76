//! A store of lists: it is made, four mutators fill it, and it is opened again.
ghost use Rattle.std.specs.Prelude.{◌≡◌, IfSome};
ghost use Rattle.pm3_txn.specs.Underway.{Belongs, HoldsNothing};

use crate::closing::closed;
use crate::four::four_beside;
use crate::lists::{Node, listed};
use crate::plans::PAGES;
use crate::stores::started;
use crate::trails::{Share, Trail};
use pm3_disk::{Disk, MemoryDisk};
use pm3_journal::{Entries, Opened};
use pm3_store::{create, open};
use pm3_txn::{Heap, Mutator};
use pm3_types::{Catalog, Tail, TypeMap};
use std::alloc::Global;
use std::sync::Wait;
use std::thread::Threads;

/// The one type: a word, and a reference.
pub(crate) fn list_types(alloc: Global) -> Option<Catalog> {
    let mut catalog = Catalog::new(alloc);
    let Ok(_) = catalog.add(TypeMap::new(2, 2, Tail::Empty)?) else {
        return None;
    };
    Some(catalog)
}

/// The devices of a new store, without objects.
pub(crate) fn new_devices(alloc: Global) -> Option<(MemoryDisk, MemoryDisk)> {
    let mut pages = MemoryDisk::new(alloc, Vec::new(alloc), Vec::new(alloc));
    let mut journal = MemoryDisk::new(alloc, Vec::new(alloc), Vec::new(alloc));
    let Ok(()) = create(&mut pages, &mut journal, PAGES, &list_types(alloc)?) else {
        return None;
    };
    Some((pages, journal))
}

/// Opens a store and starts a heap over it, with its first mutator and readers for three more.
fn started_for_four<D: Disk + Drop>(
    alloc: Global,
    pages: D,
    journal: D,
) -> Option<(Heap<D>, Mutator<D>, (D::Reader, D::Reader, D::Reader))>
where
    D::Reader: Drop,
    ensures belongs { IfSome result (λ made. Belongs D.Reader.content made.0 made.1) }
    ensures bare { IfSome result (λ made. HoldsNothing made.1) }
    ensures reads { IfSome result (λ made. D.Reader.content made.2.0 ≡ made.0.1.opening.file) }
    ensures too { IfSome result (λ made. D.Reader.content made.2.1 ≡ made.0.1.opening.file) }
    ensures also { IfSome result (λ made. D.Reader.content made.2.2 ≡ made.0.1.opening.file) }
{
    let Ok(mut opened) = open(alloc, pages, journal) else {
        return None;
    };
    let Ok(reader) = opened.reader() else {
        return None;
    };
    let Ok(one) = opened.reader() else {
        return None;
    };
    let Ok(two) = opened.reader() else {
        return None;
    };
    let Ok(three) = opened.reader() else {
        return None;
    };
    match Heap::start(alloc, opened, reader) {
        Ok((heap, first)) => Some((heap, first, (one, two, three))),
        Err(_) => None,
    }
}

/// Lets four mutators build lists in a store, and closes the heap.
fn built<D: Disk + Send + Drop, R: Threads + Wait + Sync>(
    rt: &R,
    alloc: Global,
    pages: D,
    journal: D,
    share: Share,
) -> Option<(D, D, [Trail; 4])>
where
    D::Reader: Send + Drop,
{
    let (heap, first, readers) = started_for_four(alloc, pages, journal)?;
    let (first, trails) = four_beside(rt, alloc, &heap, first, readers, share)?;
    let (pages, journal) = closed(heap, first)?;
    Some((pages, journal, trails))
}

/// The tags of the commits that a journal has, in order.
fn tags(alloc: Global, entries: &Entries) -> Option<Vec<u32>> {
    let mut tags = Vec::new(alloc);
    for i in 0..entries.len() {
        let Ok(()) = tags.push(entries.tag(i)) else {
            return None;
        };
    }
    Some(tags)
}

/// Opens a store, and lets it go but for its devices and the tags of its commits.
fn tags_in<D: Disk + Drop>(alloc: Global, pages: D, journal: D) -> Option<(D, D, Vec<u32>)>
where
    D::Reader: Drop,
{
    let Ok(opened) = open(alloc, pages, journal) else {
        return None;
    };
    let tags = tags(alloc, opened.journal.entries());
    let Opened {
        pages,
        journal,
        catalog: _,
        images: _,
        marks: _,
    } = opened;
    Some((pages, journal.into_disk(), tags?))
}

/// Opens a store, and finds the objects of all lists in it.
fn lists_in<D: Disk + Drop>(alloc: Global, pages: D, journal: D) -> Option<Vec<Node>>
where
    D::Reader: Drop,
{
    let (heap, first) = started(alloc, pages, journal)?;
    let mut nodes = Vec::new(alloc);
    let (_, done) = listed(&heap, first, &mut nodes);
    let Ok(()) = done else {
        return None;
    };
    Some(nodes)
}

/// What four threads did, and what the store has then: the tags of its commits, in order, and the objects of its lists.
#[derive(Debug, PartialEq, Eq, Drop)]
pub struct Told {
    pub trails: [Trail; 4],
    pub tags: Vec<u32>,
    pub nodes: Vec<Node>,
}

/// Lets four mutators build lists in a store, closes the heap, and opens the store again.
pub fn build_lists<D: Disk + Send + Drop, R: Threads + Wait + Sync>(
    rt: &R,
    alloc: Global,
    pages: D,
    journal: D,
    share: Share,
) -> Option<Told>
where
    D::Reader: Send + Drop,
{
    let (pages, journal, trails) = built(rt, alloc, pages, journal, share)?;
    let (pages, journal, tags) = tags_in(alloc, pages, journal)?;
    let nodes = lists_in(alloc, pages, journal)?;
    Some(Told {
        trails,
        tags,
        nodes,
    })
}
