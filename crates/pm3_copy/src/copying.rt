//! Objects are copied to other pages.
ghost use Rattle.std.specs.Prelude.{◌≡◌, ◌≢◌, ◌+◌, ◌<◌, ◌≤◌, true};
ghost use Rattle.pm3_types.specs.Layout.{address, begins_at, end_of, size_at, word_in};
ghost use Rattle.pm3_types.specs.PageForm.{IsSound};
ghost use Rattle.pm3_copy.specs.Copies.{IsCopied};
ghost use Rattle.pm3_types.specs.Whole.{IsWhole};

use crate::objects::size_of;
use pm3_page::{Addr, BASE, Image};
use pm3_types::Catalog;

/// Copies the object at `at` behind the last object of another page, with its references as they are, and answers the new address.
pub(crate) fn copy_object(catalog: &Catalog, source: &Image, at: Addr, target: &mut Image) -> Addr
    requires object { begins_at BASE source.now at ≡ true }
    requires whole { IsWhole catalog.now source.now.sheet (word_in BASE at) }
    requires source { IsSound catalog.now BASE 16384 source.now }
    requires target { IsSound catalog.now BASE 16384 target.old }
    requires page { target.old.page ≢ 2 }
    requires low { target.old.page < 16384 }
    requires fits { end_of target.old.sheet + size_at catalog.now source.now.sheet (word_in BASE at) ≤ 512 }
    ensures at { result ≡ address BASE target.old.page (end_of target.old.sheet) }
    ensures copied { IsCopied source.now.sheet (word_in BASE at) (size_at catalog.now source.now.sheet (word_in BASE at)) target.old target.new }
    ensures sound { IsSound catalog.now BASE 16384 target.new }
{
    let size = size_of(catalog, source, at);
    target.place_copy(source, at, size)
}
