//! What follows on a word of a page.
ghost use Rattle.std.specs.Prelude.{◌≡◌, ◌<◌};
ghost use Rattle.pm3_types.specs.Layout.{has_tail_by};
ghost use Rattle.pm3_types.specs.PageForm.{is_page_head, is_head_of, is_name, is_padded};
ghost use Rattle.pm3_page.specs.References.{refer_by};
ghost use Rattle.pm3_page.specs.Roles.{role_at};
ghost use Rattle.pm3_page.specs.Scan as Scan;
ghost use Rattle.pm3_page.specs.Scan.{step_in, when, head_step, reference_step, first_reading, reading_to};

use crate::addresses::{PageNo, ROOTS_PAGE};
use crate::heads::{first_word, object_size, tail_part, type_part, used_part};
use crate::references::Way;
use crate::roles::{Reading, Role};
use pm3_core::BASE;
use pm3_types::{Catalog, Tail, TypeMap};

/// What follows on a word that has the form.
#[derive(Clone, Copy, Debug)]
pub(crate) struct Step {
    /// What has been read with it.
    pub reading: Reading,
    /// Whether an object begins at the word.
    pub begins: bool,
    /// The word in the other form.
    pub word: u64,
}

/// What follows on the word `i`, or None exactly where it departs from the form.
pub(crate) fn step_over(
    catalog: &Catalog,
    way: Way,
    page: PageNo,
    reading: Reading,
    i: u32,
    word: u64,
) -> Option<Step>
    requires { i < 512 }
    ensures { result ≡ step_in catalog.now (refer_by BASE way) page reading i (role_at reading i) word }
{
    let step = plain(reading, word);
    match reading.role(i) {
        Role::PageHead => step_if(begins_page(page, word), plain(begin(page, word), word)),
        Role::Zero => step_if(word == 0, step),
        Role::Head => head(catalog.get(type_part(word)), reading, i, word),
        Role::Name => step_if(names(word), step),
        Role::Number => Some(step),
        Role::Reference => reference(way.refer(word), reading),
        Role::Bytes { left } => step_if(ends_in_zeros(left, word), step),
    }
}

/// Nothing more has been read than that word.
fn plain(reading: Reading, word: u64) -> Step
    ensures { result ≡ Scan.plain reading word }
{
    Step {
        reading,
        begins: false,
        word,
    }
}

/// The step where a test is met.
fn step_if(holds: bool, step: Step) -> Option<Step>
    ensures { result ≡ when holds step }
{
    if holds { Some(step) } else { None }
}

/// The step over a reference.
fn reference(word: Option<u64>, reading: Reading) -> Option<Step>
    ensures { result ≡ reference_step word reading }
{
    match word {
        Some(word) => Some(plain(reading, word)),
        None => None,
    }
}

/// The step over the head of an object.
fn head(map: Option<TypeMap>, reading: Reading, i: u32, word: u64) -> Option<Step>
    requires { i < 512 }
    ensures { result ≡ head_step map reading i word }
{
    let Some(map) = map else {
        return None;
    };
    let tail = tail_part(word);
    let next = u64::from(i) + object_size(map, tail);
    if !heads(map, word) || next > u64::from(reading.end) {
        return None;
    }
    let reading = Reading {
        end: reading.end,
        next: next as u32,
        at: i,
        map,
        tail,
    };
    Some(Step {
        reading,
        begins: true,
        word,
    })
}

/// Whether it is the head of an object of the type with this map.
#[tactic(auto, unfolding(pm3_types::specs::PageForm::is_head_of))]
fn heads(map: TypeMap, word: u64) -> bool
    ensures { result ≡ is_head_of map word }
{
    word < 1 << 48 && (has_tail(map.tail) || tail_part(word) == 0)
}

/// Whether objects of a type with this tail have one.
fn has_tail(tail: Tail) -> bool
    ensures { result ≡ has_tail_by tail }
{
    match tail {
        Tail::Empty => false,
        Tail::Refs | Tail::Bytes => true,
    }
}

/// Whether it is a name.
#[tactic(auto, unfolding(pm3_types::specs::PageForm::is_name))]
fn names(word: u64) -> bool
    ensures { result ≡ is_name word }
{
    0 < word && word < 1 << 62
}

/// Whether the bytes of a word past those that are left of a tail are 0.
#[tactic(auto, unfolding(pm3_types::specs::PageForm::is_padded))]
fn ends_in_zeros(left: u32, word: u64) -> bool
    ensures { result ≡ is_padded left word }
{
    left >= 8 || word >> (8 * left) == 0
}

/// Whether it is the first word of this page.
#[tactic(auto, unfolding(pm3_types::specs::PageForm::is_page_head))]
fn begins_page(page: PageNo, word: u64) -> bool
    ensures { result ≡ is_page_head page word }
{
    if page == ROOTS_PAGE {
        return word == first_word(page, 18);
    }
    let used = used_part(word);
    word % 4_294_967_296 == u64::from(page) && (2 < used && used <= 512)
}

/// What has been read after the first word of a page.
fn begin(page: PageNo, word: u64) -> Reading
    ensures { result ≡ first_reading page word }
{
    if page == ROOTS_PAGE {
        return read_to(18, 18);
    }
    read_to(used_part(word) as u32, 2)
}

/// Nothing has been read of a page with these bounds.
pub(crate) fn read_to(end: u32, next: u32) -> Reading
    ensures { result ≡ reading_to end next }
{
    let map = TypeMap {
        count: 16,
        refs: 0xffff,
        tail: Tail::Empty,
    };
    Reading {
        end,
        next,
        at: 0,
        map,
        tail: 0,
    }
}
