//! Heaps may be shared among threads, and mutators, transactions and heaps may go to other ones, where devices and their readers
//! may go: these functions are proved, and nothing calls them.
use crate::heap::Heap;
use crate::mutator::Mutator;
use crate::transaction::Txn;
use pm3_disk::Disk;

fn goes<T: Send>(_value: &T) {}

fn is_shared<T: Sync>(_value: &T) {}

fn heap_is_shared<D: Disk + Send>(heap: &Heap<D>) {
    is_shared(heap);
}

fn heap_goes<D: Disk + Send>(heap: &Heap<D>) {
    goes(heap);
}

fn mutator_goes<D: Disk + Send>(mutator: &Mutator<D>)
where
    D::Reader: Send,
{
    goes(mutator);
}

fn transaction_goes<D: Disk + Send>(txn: &Txn<'_, D>)
where
    D::Reader: Send,
{
    goes(txn);
}
