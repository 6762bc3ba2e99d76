//! The objects of a space, and those of them that have been found.
ghost use Rattle.std.specs.Prelude.{ℕ, ◌+◌, ◌≡◌, ◌↔◌, ◌<◌, ◌≤◌, [], length, slice_index, IfOk, IsTrue};
ghost use Rattle.std.specs.List.{Contains};
ghost use Rattle.pm3_types.specs.Layout.{page_in};
ghost use Rattle.pm3_types.specs.PassMoves.{IsRising};
ghost use Rattle.pm3_copy.specs.Finds.{Adds};
ghost use Rattle.pm3_copy.specs.Spreading.{AreOnOne};
ghost use Rattle.pm3_copy.specs.Blocks.{AreOnBlocks, AreBlocks, AreWaiting};

use crate::blocks::Blocks;
use pm3_page::{Addr, BASE, page_within};
use pm3_types::Memory;
use std::alloc::Global;
use std::marker::Model;

/// The longest step to another object of the same page, in places.
const LONGEST_STEP: usize = 128;

/// Objects in rising order, and those of them that have been found, each once, in the order of coming. For each word of their
/// pages a flag says whether an object begins there that still waits to be found. To find one takes no memory.
#[derive(Debug, Drop)]
pub(crate) struct Found {
    objects: Vec<Addr>,
    blocks: Blocks,
    waiting: Vec<bool>,
    list: Vec<Addr>,
}

impl Model for Found {
    ghost use Rattle.std.specs.Prelude.{◌≡◌, ◌≤◌, length, vec_capacity};
    ghost use Rattle.pm3_core.specs.declared.naming.TheConstants.{BASE};
    ghost use Rattle.pm3_copy.specs.Finds.{Finds};
    ghost use Rattle.pm3_copy.specs.Blocks.{AreWaiting};

    ghost Value = { Finds };

    ghost view = { λ f. record { objects = f.objects.items; list = f.list.items } };

    ghost invariant = { λ f. AreWaiting BASE f.blocks.by_page.items f.objects.items f.waiting.items f.list.items × (f.blocks.words ≡ length f.waiting.items)
        × (length f.objects.items ≤ vec_capacity f.list) };
}

impl Found {
    /// Nothing has been found of these objects, which lie on pages with a block.
    pub(crate) fn none(objects: Vec<Addr>, blocks: Blocks) -> Result<Found, Memory>
        requires rising { IsRising objects.items }
        requires blocks { AreBlocks blocks.by_page.items blocks.words }
        requires on { AreOnBlocks BASE blocks.by_page.items blocks.words objects.items }
        ensures { IfOk result (λ found. found ≡ record { objects = objects.items; list = [] }) }
    {
        let alloc = *objects.allocator();
        let waiting = wait_for(alloc, &objects, &blocks)?;
        let mut list = Vec::new(alloc);
        let Ok(()) = list.reserve(objects.len()) else {
            return Err(Memory);
        };
        Ok(Found {
            objects,
            blocks,
            waiting,
            list,
        })
    }

    /// The number of objects, found or not.
    pub(crate) fn count(&self) -> usize
        ensures count { result ≡ length self.now.objects }
        ensures rising { IsRising self.now.objects }
        ensures whole { (a : ℕ) → Contains self.now.list a → Contains self.now.objects a }
    {
        self.objects.len()
    }

    /// The address of the object at a place among all.
    pub(crate) fn object(&self, i: usize) -> Addr
        requires { i < length self.now.objects }
        ensures { result ≡ slice_index self.now.objects i }
    {
        self.objects[i]
    }

    /// A place from this one on among all, up to which all objects lie on the page of the one here.
    pub(crate) fn last_on_page(&self, first: usize) -> usize
        requires there { first < length self.now.objects }
        requires rising { IsRising self.now.objects }
        ensures behind { first ≤ result }
        ensures within { result < length self.now.objects }
        ensures page { AreOnOne BASE self.now.objects first (result + 1) }
    {
        let mut last = first;
        let mut step = LONGEST_STEP;
        while step > 0 {
            last = self.step_on_page(last, step);
            step /= 2;
        }
        last
    }

    /// The place so many steps behind this one among all if the object there lies on the same page, and else this one.
    fn step_on_page(&self, place: usize, step: usize) -> usize
        requires { place < length self.now.objects }
        ensures behind { place ≤ result }
        ensures within { result < length self.now.objects }
        ensures page { page_in BASE (slice_index self.now.objects result) ≡ page_in BASE (slice_index self.now.objects place) }
    {
        if step >= self.objects.len() - place {
            return place;
        }
        let later = place + step;
        if page_within(self.objects[later]) != page_within(self.objects[place]) {
            return place;
        }
        later
    }

    /// Whether the object at a place among all has been found.
    pub(crate) fn is_found(&self, i: usize) -> bool
        requires { i < length self.now.objects }
        ensures { IsTrue result ↔ Contains self.now.list (slice_index self.now.objects i) }
    {
        !self.waiting[self.blocks.slot_of(self.objects[i])]
    }

    /// The number of objects that have been found.
    pub(crate) fn len(&self) -> usize
        ensures count { result ≡ length self.now.list }
        ensures few { length self.now.list ≤ length self.now.objects }
        ensures whole { (a : ℕ) → Contains self.now.list a → Contains self.now.objects a }
    {
        self.list.len()
    }

    /// The address of an object that has been found, in the order of coming.
    pub(crate) fn get(&self, k: usize) -> Addr
        requires { k < length self.now.list }
        ensures { result ≡ slice_index self.now.list k }
    {
        self.list[k]
    }

    /// Finds the object at this address, if there is one.
    pub(crate) fn find(&mut self, word: u64)
        ensures { Adds (λ b. b ≡ word) self.old self.new }
    {
        let Some(place) = self.blocks.place_of(word) else {
            return;
        };
        if !self.waiting[place] {
            return;
        }
        self.waiting[place] = false;
        let Ok(()) = self.list.push(word) else {
            unreachable!()
        };
    }
}

/// The flags by which just these objects wait.
fn wait_for(alloc: Global, objects: &[Addr], blocks: &Blocks) -> Result<Vec<bool>, Memory>
    requires rising { IsRising objects.now }
    requires blocks { AreBlocks blocks.now.by_page.items blocks.now.words }
    requires on { AreOnBlocks BASE blocks.now.by_page.items blocks.now.words objects.now }
    ensures waiting { IfOk result (λ waiting. AreWaiting BASE blocks.now.by_page.items objects.now waiting.items []) }
    ensures long { IfOk result (λ waiting. length waiting.items ≡ blocks.now.words) }
{
    let Ok(mut waiting) = vec![in alloc; false; blocks.words] else {
        return Err(Memory);
    };
    for i in 0..objects.len() {
        let place = blocks.slot_of(objects[i]);
        waiting[place] = true;
    }
    Ok(waiting)
}
