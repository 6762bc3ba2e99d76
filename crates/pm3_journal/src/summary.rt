//! What is kept of a record.
ghost use Rattle.std.specs.Prelude.{◌≡◌, ◌+◌, ◌<◌, ◌≤◌, ◌∷◌, [], ◌++◌, length, vec_len, vec_capacity};
ghost use Rattle.pm3_journal.specs.Entered.{record_of};
ghost use Rattle.pm3_journal.specs.Summaries.{summary_of};

use crate::entry::Entry;
use std::marker::Model;

/// A record but for its images.
#[derive(Drop)]
pub(crate) struct Summary {
    /// The sequence number.
    pub(crate) seq: u64,
    /// The next name and the high page after the commit.
    pub(crate) next_name: u64,
    /// The tag that the transaction was begun with.
    pub(crate) tag: u32,
    pub(crate) high_page: u32,
    /// How many pages were pinned, and how many objects moved.
    pub(crate) pins: u32,
    pub(crate) moved: u32,
    /// The numbers of its pages, rising.
    pub(crate) pages: Vec<u32>,
}

impl Model for Summary {
    ghost use Rattle.pm3_journal.specs.Summaries.{Summary};

    ghost Value = { Summary };

    ghost view = { λ s. record {
      seq = s.seq;
      next_name = s.next_name;
      tag = s.tag;
      high_page = s.high_page;
      pins = s.pins;
      moved = s.moved;
      pages = s.pages.items;
    } };
}

/// What is kept of an entry. Its page numbers go into `numbers`, which has room for them.
pub(crate) fn summarize(numbers: Vec<u32>, seq: u64, entry: &Entry) -> Summary
    requires { length entry.now.pages.items ≤ vec_capacity numbers }
    ensures { result ≡ summary_of (record_of seq entry.now) }
{
    let mut numbers = numbers;
    numbers.clear();
    for i in 0..entry.pages.len() {
        add(&mut numbers, entry.pages.number(i));
    }
    Summary {
        seq,
        next_name: entry.next_name,
        tag: entry.tag,
        high_page: entry.high_page,
        pins: entry.pins,
        moved: entry.moved,
        pages: numbers,
    }
}

/// Adds a number for which there is room.
pub(crate) fn add(numbers: &mut Vec<u32>, number: u32)
    requires { vec_len numbers.old < vec_capacity numbers.old }
    ensures items { numbers.new.items ≡ numbers.old.items ++ number ∷ [] }
    ensures len { vec_len numbers.new ≡ vec_len numbers.old + 1 }
    ensures capacity { vec_capacity numbers.old ≤ vec_capacity numbers.new }
{
    let pushed = numbers.push(number);
    let Ok(()) = pushed else { unreachable!() };
}
