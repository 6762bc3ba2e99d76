//! Objects to which places of the row lead.
ghost use Rattle.std.specs.Prelude.{◌≡◌, ◌≢◌, ◌<◌, ◌≤◌, true, false, slice_index_or, IfOk, IfErr};
ghost use Rattle.pm3_core.specs.declared.naming.TheConstants.{BASE};
ghost use Rattle.pm3_types.specs.Layout.{page_in, word_in};
ghost use Rattle.pm3_types.specs.PageForm.{is_memory_reference};
ghost use Rattle.pm3_access.specs.Access.{is_object_held};
ghost use Rattle.pm3_txn.specs.Refusals.{HasObject, IsObjectRefusal, with_read, word_at};

use crate::faults::AccessFault;
use crate::heap::Heap;
use crate::mutator::Tag;
use crate::transaction::Txn;
use pm3_core::BASE;
use pm3_disk::Disk;

impl<D: Disk> Heap<D> {
    /// The page of a reference that is not nil.
    #[tactic(auto, unfolding(pm3_types::specs::Layout::page_in, pm3_types::specs::Layout::is_address, pm3_types::specs::PageForm::is_memory_reference))]
    pub(crate) fn page_of(&self, at: u64) -> u32
        requires reference { is_memory_reference BASE self.now.1.pages at ≡ true }
        requires some { at ≢ 0 }
        ensures { result ≡ page_in BASE at }
    {
        self.page_count();
        ((at - BASE) / 4096) as u32
    }
}

impl<D: Disk> Txn<'_, D> {
    /// Whether a place of the row is tagged as a reference.
    pub(crate) fn is_reference(&self, i: usize) -> bool
        requires low { i < 512 }
        ensures { result ≡ slice_index_or self.now.mutator.refs i false }
    {
        self.mutator.tag(i) == Tag::Ref
    }

    /// The word at a place of the row.
    pub(crate) fn row_word(&mut self, i: usize) -> u64
        requires low { i < 512 }
        ensures heap { self.new.heap ≡ self.old.heap }
        ensures word { result ≡ word_at self.old i }
        ensures read { self.new ≡ with_read self.old i }
    {
        let heap = self.heap;
        self.mutator.read_word(heap, i)
    }

    /// Whether an object begins at an address on a page that is held.
    fn begins(&self, page: u32, at: u64) -> bool
        requires page { page ≡ page_in BASE at }
        ensures { result ≡ is_object_held BASE self.now.held at }
    {
        match self.held.image(page) {
            Some(image) => image.is_object(at),
            None => false,
        }
    }

    /// The address to which a place of the row leads. Its page is held then, and an object begins there.
    pub(crate) fn object(&mut self, i: usize) -> Result<u64, AccessFault>
        requires low { i < 512 }
        ensures heap { self.new.heap ≡ self.old.heap }
        ensures there { IfOk result (λ at. HasObject self.old self.new i at) }
        ensures refused { IfErr result (λ fault. IsObjectRefusal D.Reader.faults self.old self.new i fault) }
    {
        if !self.is_reference(i) {
            return Err(AccessFault::NotAReference { index: i });
        }
        let at = self.row_word(i);
        if at == 0 {
            return Err(AccessFault::Nil { index: i });
        }
        let page = self.heap.page_of(at);
        if let Err(fault) = self.touch(page) {
            return Err(fault);
        }
        if !self.begins(page, at) {
            return Err(AccessFault::Damaged {
                page,
                word: word_of(at),
            });
        }
        let _ = &self.tag;
        Ok(at)
    }
}

/// The word of its page at which an address lies.
#[tactic(auto, unfolding(pm3_types::specs::Layout::word_in))]
fn word_of(at: u64) -> u32
    requires { BASE ≤ at }
    ensures { result ≡ word_in BASE at }
{
    ((at - BASE) % 4096 / 8) as u32
}
