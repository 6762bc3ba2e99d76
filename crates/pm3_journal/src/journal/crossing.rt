//! Journals and open stores may go to other threads and be shared among them, where their devices may: these functions are
//! proved, and nothing calls them.
use crate::journal::{FailedAppend, Journal};
use crate::opened::Opened;
use pm3_disk::Disk;

fn goes<T: Send>(_value: &T) {}

fn is_shared<T: Sync>(_value: &T) {}

fn failed_append_crosses(failed: &FailedAppend) {
    goes(failed);
    is_shared(failed);
}

fn journal_goes<D: Disk + Send>(journal: &Journal<D>) {
    goes(journal);
}

fn journal_is_shared<D: Disk + Sync>(journal: &Journal<D>) {
    is_shared(journal);
}

fn opened_goes<D: Disk + Send>(opened: &Opened<D>) {
    goes(opened);
}

fn opened_is_shared<D: Disk + Sync>(opened: &Opened<D>) {
    is_shared(opened);
}
