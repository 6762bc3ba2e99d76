//! What each word of a page in a file is, from the words before it.
ghost use Rattle.std.specs.Prelude.{◌≡◌, ◌+◌, ◌<◌, ◌≤◌};
ghost use Rattle.pm3_types.specs.Fields.{is_reference};
ghost use Rattle.pm3_page.specs.Roles.{role_at, body_role, tail_role};

use pm3_types::{Tail, TypeMap};

/// What has been read of a page up to some word.
#[derive(Clone, Copy, Debug)]
pub(crate) struct Reading {
    /// The word behind the last object.
    pub end: u32,
    /// The word at which the next object begins.
    pub next: u32,
    /// The word at which the present object begins.
    pub at: u32,
    /// The map of the present object's type.
    pub map: TypeMap,
    /// The length of the present object's tail.
    pub tail: u32,
}

/// What a word is.
#[derive(Clone, Copy, Debug)]
pub(crate) enum Role {
    /// The first word of the page.
    PageHead,
    /// A word that is 0.
    Zero,
    /// The head of an object.
    Head,
    /// The name of an object.
    Name,
    /// A field that is no reference.
    Number,
    /// A reference.
    Reference,
    /// A word of a tail of bytes, of which so many are left from this word on.
    Bytes { left: u32 },
}

impl Reading {
    /// What the word `i` is.
    pub(crate) fn role(&self, i: u32) -> Role
        ensures { result ≡ role_at self.now i }
    {
        if i == 0 {
            return Role::PageHead;
        }
        if i == 1 || self.end <= i {
            return Role::Zero;
        }
        if i == self.next {
            return Role::Head;
        }
        if u64::from(i) == u64::from(self.at) + 1 {
            return Role::Name;
        }
        body(
            self.map,
            self.tail,
            i.saturating_sub(self.at).saturating_sub(2),
        )
    }
}

/// What word `k` of an object's body is.
fn body(map: TypeMap, len: u32, k: u32) -> Role
    ensures { result ≡ body_role map len k }
{
    let count = u32::from(map.count);
    if k >= count {
        return tail(map.tail, len, k - count);
    }
    if is_reference_field(map, k) {
        Role::Reference
    } else {
        Role::Number
    }
}

/// What word `k` of a tail is.
fn tail(tail: Tail, len: u32, k: u32) -> Role
    ensures { result ≡ tail_role tail len k }
{
    match tail {
        Tail::Empty => Role::Zero,
        Tail::Refs => Role::Reference,
        Tail::Bytes => Role::Bytes {
            left: u64::from(len).saturating_sub(8 * u64::from(k)) as u32,
        },
    }
}

/// Whether a field of the type is a reference.
#[tactic(auto, unfolding(pm3_types::specs::Fields::is_reference))]
fn is_reference_field(map: TypeMap, field: u32) -> bool
    requires { field < map.count }
    ensures { result ≡ is_reference map field }
{
    map.refs >> field & 1 == 1
}
