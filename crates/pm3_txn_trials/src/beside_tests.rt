//! What two threads count in one heap.
use super::*;
use pm3_disk::MemoryDisk;
use std::test::Fail;

#[test]
fn two_threads_lose_no_count(rt: HostRuntime) -> Result<(), Fail> {
    let alloc = rt.alloc();
    let Some((pages, records)) = small_files(alloc) else {
        return Err(Fail::new("no store"));
    };
    let pages = MemoryDisk::new(alloc, pages, Vec::new(alloc));
    let journal = MemoryDisk::new(alloc, records, Vec::new(alloc));
    let seen = count_beside(&rt, alloc, pages, journal, 100);
    assert_eq!(rt; seen, Some(([Ok(()), Ok(())], [Ok(207), Ok(207)])));
    Ok(())
}
