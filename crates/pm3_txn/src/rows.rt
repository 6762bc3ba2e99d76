//! The calls of a mutator on its own row.
ghost use Rattle.std.specs.Prelude.{◌≡◌, ◌≢◌, ℕ, ◌<◌, true, false, slice_index_or, slice_set, OnOk, OnErr, IfErr};
ghost use Rattle.pm3_core.specs.Naming.{Names};
ghost use Rattle.pm3_rows.specs.Validated.{Stands, reread};
ghost use Rattle.pm3_table.specs.declared.unit.Unit.TheVariants.{Page};
ghost use Rattle.pm3_table.specs.Deeds.{word_of, marks_of};
ghost use Rattle.pm3_table.specs.Ops.{refused};
ghost use Rattle.pm3_table.specs.Passes.{IsOf, Becomes};
ghost use Rattle.pm3_table.specs.Telling.{HasInSpace};
ghost use Rattle.pm3_table.specs.Words.{mark_in};
ghost use Rattle.pm3_txn.specs.Puts.{HasPut, IsPinned, IsMarked, stored, read_own};
ghost use Rattle.pm3_txn.specs.Underway.{Belongs, IsMutatorOf};

use crate::heap::Heap;
use crate::mutator::{Mutator, Tag};
use pm3_disk::Disk;
use pm3_rows::{read_one, store_word, validate};
use pm3_table::Busy;

impl<D: Disk> Mutator<D> {
    /// Stores a number at a place. Where the page that it would name has a mark, the place holds 0 as a nil reference.
    pub fn put_number(&mut self, heap: &Heap<D>, j: usize, n: u64) -> Result<(), Busy>
        requires of { Belongs D.Reader.content heap.now self.old }
        requires low { j < 512 }
        ensures put { OnOk result (HasPut self.old self.new j n false) }
        ensures cleared { OnErr result (HasPut self.old self.new j 0 true) }
        ensures pinned { OnOk result (IsPinned heap.now.1.pages self.new j) }
        ensures calm { OnOk result (self.new.pass.1.refusals ≡ self.old.pass.1.refusals) }
        ensures marked { IfErr result (λ busy. IsMarked heap.now.1.pages n self.old self.new busy) }
        ensures kept { Belongs D.Reader.content heap.now self.new }
    {
        if let Err(busy) = self.put(heap, j, n, false) {
            return Err(busy);
        }
        Ok(())
    }

    /// Stores the word of place i at place j, under its tag. Where the page that it names has a mark, place j holds 0 as a nil
    /// reference.
    pub fn copy(&mut self, heap: &Heap<D>, i: usize, j: usize) -> Result<(), Busy>
        requires of { Belongs D.Reader.content heap.now self.old }
        requires low { (i < 512) × (j < 512) }
        ensures put { OnOk result (HasPut self.old self.new j (word_of self.old.pass.1.log i) (slice_index_or self.old.refs i false)) }
        ensures cleared { OnErr result (HasPut self.old self.new j 0 true) }
        ensures pinned { OnOk result (IsPinned heap.now.1.pages self.new j) }
        ensures calm { OnOk result (self.new.pass.1.refusals ≡ self.old.pass.1.refusals) }
        ensures marked { IfErr result (λ busy. IsMarked heap.now.1.pages (word_of self.old.pass.1.log i) self.old self.new busy) }
        ensures kept { Belongs D.Reader.content heap.now self.new }
    {
        if let Err(busy) = self.copy_word(heap, i, j) {
            return Err(busy);
        }
        Ok(())
    }

    /// Makes a place a nil reference.
    pub fn clear(&mut self, heap: &Heap<D>, j: usize)
        requires of { Belongs D.Reader.content heap.now self.old }
        requires low { j < 512 }
        ensures put { HasPut self.old self.new j 0 true }
        ensures calm { self.new.pass.1.refusals ≡ self.old.pass.1.refusals }
        ensures kept { Belongs D.Reader.content heap.now self.new }
    {
        self.clear_word(heap, j);
    }

    /// The word at a place.
    pub fn stack_word(&mut self, heap: &Heap<D>, i: usize) -> u64
        requires of { Belongs D.Reader.content heap.now self.old }
        requires low { i < 512 }
        ensures word { result ≡ word_of self.old.pass.1.log i }
        ensures read { self.new ≡ read_own self.old i }
        ensures kept { Belongs D.Reader.content heap.now self.new }
    {
        self.read_word(heap, i)
    }
}

// The same in a transaction or outside of one, whatever the mutator knows of the words.
impl<D: Disk> Mutator<D> {
    /// Stores a word at a place and validates it, before the place has its tag. A page of a space that the mutator holds has no
    /// mark.
    pub(crate) fn put(
        &mut self,
        heap: &Heap<D>,
        j: usize,
        word: u64,
        is_ref: bool,
    ) -> Result<(), Busy>
        requires of { IsMutatorOf D.Reader.content heap.now self.old }
        requires low { j < 512 }
        ensures put { OnOk result (HasPut self.old self.new j word is_ref) }
        ensures cleared { OnErr result (HasPut self.old self.new j 0 true) }
        ensures pinned { OnOk result (IsPinned heap.now.1.pages self.new j) }
        ensures calm { OnOk result (self.new.pass.1.refusals ≡ self.old.pass.1.refusals) }
        ensures marked { IfErr result (λ busy. IsMarked heap.now.1.pages word self.old self.new busy) }
        ensures own { IfErr result (λ busy. (page k : ℕ) → busy.unit ≡ Page page → HasInSpace heap.now.1 self.old.pass.1 k page → ⊥) }
        ensures kept { IsMutatorOf D.Reader.content heap.now self.new }
    {
        self.store(heap, j, word);
        if let Err(busy) = self.check(heap, j) {
            self.store(heap, j, 0);
            self.set_tag(j, true);
            return Err(busy);
        }
        self.set_tag(j, is_ref);
        Ok(())
    }

    /// Stores the word of place i at place j, under its tag, and validates it.
    pub(crate) fn copy_word(&mut self, heap: &Heap<D>, i: usize, j: usize) -> Result<(), Busy>
        requires of { IsMutatorOf D.Reader.content heap.now self.old }
        requires low { (i < 512) × (j < 512) }
        ensures put { OnOk result (HasPut self.old self.new j (word_of self.old.pass.1.log i) (slice_index_or self.old.refs i false)) }
        ensures cleared { OnErr result (HasPut self.old self.new j 0 true) }
        ensures pinned { OnOk result (IsPinned heap.now.1.pages self.new j) }
        ensures calm { OnOk result (self.new.pass.1.refusals ≡ self.old.pass.1.refusals) }
        ensures marked { IfErr result (λ busy. IsMarked heap.now.1.pages (word_of self.old.pass.1.log i) self.old self.new busy) }
        ensures kept { IsMutatorOf D.Reader.content heap.now self.new }
    {
        let word = self.read_word(heap, i);
        let is_ref = self.refs[i];
        self.put(heap, j, word, is_ref)
    }

    /// Makes a place a nil reference.
    pub(crate) fn clear_word(&mut self, heap: &Heap<D>, j: usize)
        requires of { IsMutatorOf D.Reader.content heap.now self.old }
        requires low { j < 512 }
        ensures put { HasPut self.old self.new j 0 true }
        ensures calm { self.new.pass.1.refusals ≡ self.old.pass.1.refusals }
        ensures kept { IsMutatorOf D.Reader.content heap.now self.new }
    {
        self.store(heap, j, 0);
        self.set_tag(j, true);
    }

    /// The word at a place.
    pub(crate) fn read_word(&mut self, heap: &Heap<D>, i: usize) -> u64
        requires of { IsMutatorOf D.Reader.content heap.now self.old }
        requires low { i < 512 }
        ensures word { result ≡ word_of self.old.pass.1.log i }
        ensures read { self.new ≡ read_own self.old i }
        ensures kept { IsMutatorOf D.Reader.content heap.now self.new }
    {
        let row = self.pass.row();
        read_one(&heap.shared, &mut self.pass, row, i)
    }

    /// Stores a word at a place, and notes that the place was written.
    fn store(&mut self, heap: &Heap<D>, j: usize, word: u64)
        requires of { IsOf self.old.pass heap.now }
        requires low { j < 512 }
        ensures { self.new ≡ stored self.old j word }
    {
        store_word(&heap.shared, &mut self.pass, j, word);
        self.wrote[j] = true;
    }

    /// Loads the word of the page that a place names.
    fn check(&mut self, heap: &Heap<D>, j: usize) -> Result<(), Busy>
        requires of { IsOf self.old.pass heap.now }
        requires low { j < 512 }
        ensures stands { OnOk result (Stands heap.now.1.pages self.old.pass self.new.pass j) }
        ensures own { IfErr result (λ busy. (page k : ℕ) → busy.unit ≡ Page page → HasInSpace heap.now.1 self.old.pass.1 k page → marks_of self.old.pass.1.log page ≡ true) }
        ensures busy { IfErr result (λ busy. (page : ℕ) × Names heap.now.1.pages (word_of self.old.pass.1.log j) page × (busy.unit ≡ Page page) × (mark_in busy.word ≢ 0) × Becomes self.old.pass self.new.pass (refused (reread self.old.pass.1 j) page busy.word)) }
        ensures rest { self.new ≡ record self.old { pass = self.new.pass } }
    {
        validate(&heap.shared, &mut self.pass, j)
    }

    fn set_tag(&mut self, j: usize, is_ref: bool)
        requires { j < 512 }
        ensures { self.new ≡ record self.old { refs = slice_set self.old.refs j is_ref } }
    {
        self.refs[j] = is_ref;
    }
}
