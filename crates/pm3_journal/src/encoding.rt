//! The bytes of a record, and of the closed gate behind it.
ghost use Rattle.std.specs.Prelude.{◌≡◌, ◌+◌, ◌*◌, ◌^◌, ◌<◌, ◌≤◌, ◌++◌, length, vec_len, vec_capacity};
ghost use Rattle.pm3_journal.specs.Entered.{record_of};
ghost use Rattle.pm3_journal.specs.Format.{Image, part_bytes, body, closed_gate};

use crate::entry::Entry;
use crate::record_front;
use crate::sizes::GATE_SIZE;

/// Writes into `buffer`, which has room for them, the bytes of a record behind its gate, and the closed gate of the next.
/// That gate is written with the record, so that what an earlier list left behind it can't be read as a record of this one.
pub(crate) fn encode(buffer: &mut Vec<u8>, seq: u64, entry: &Entry)
    requires room { 55 + 4104 * length entry.now.pages.items ≤ vec_capacity buffer.old }
    requires few { length entry.now.pages.items < 2 ^ 32 }
    ensures bytes { buffer.new.items ≡ body (record_of seq entry.now) ++ closed_gate }
    ensures capacity { vec_capacity buffer.old ≤ vec_capacity buffer.new }
{
    buffer.clear();
    let front = record_front::encode(seq, entry);
    put(buffer, &front);
    for i in 0..entry.pages.len() {
        put_page(buffer, entry.pages.number(i), entry.pages.image(i));
    }
    put(buffer, &[0; GATE_SIZE as usize]);
}

/// Adds bytes for which there is room.
fn put(buffer: &mut Vec<u8>, bytes: &[u8])
    requires room { vec_len buffer.old + length bytes.now ≤ vec_capacity buffer.old }
    ensures items { buffer.new.items ≡ buffer.old.items ++ bytes.now }
    ensures len { vec_len buffer.new ≡ vec_len buffer.old + length bytes.now }
    ensures capacity { vec_capacity buffer.old ≤ vec_capacity buffer.new }
{
    let Ok(()) = buffer.extend_from_slice(bytes) else {
        unreachable!()
    };
}

/// Adds a page's number and its bytes.
fn put_page(buffer: &mut Vec<u8>, page: u32, image: &[u8; 4096])
    requires room { vec_len buffer.old + 4104 ≤ vec_capacity buffer.old }
    ensures items { buffer.new.items ≡ buffer.old.items ++ part_bytes (Image page image.now) }
    ensures len { vec_len buffer.new ≡ vec_len buffer.old + 4104 }
    ensures capacity { vec_capacity buffer.old ≤ vec_capacity buffer.new }
{
    put(buffer, &record_front::encode_part(page));
    put(buffer, image);
}
