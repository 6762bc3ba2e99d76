//! The root slots of page 2, where it is held alone.
ghost use Rattle.std.specs.Prelude.{◌≡◌, ℕ, Bool, ◌<◌, List, true, Some};
ghost use Rattle.std.specs.FinMap as map;
ghost use Rattle.pm3_types.specs.Fields.{Fields};
ghost use Rattle.pm3_access.specs.Access.{HaveForm};
ghost use Rattle.pm3_access.specs.Roots.{root_held, root_written, IsRootRead, IsRootWrite};

use crate::held::Held;
use pm3_page::BASE;

impl Held {
    /// The address in a root slot, or 0 for nil.
    pub fn root(&self, slot: u32) -> u64
        requires held { map.contains_key self.now.pages.left 2 ≡ true }
        requires slot { slot < 16 }
        ensures value { root_held self.now slot ≡ Some result }
        ensures step { (catalog : List Fields) → IsRootRead catalog BASE self.now slot result }
    {
        let Some(image) = self.pages.get(2) else {
            unreachable!()
        };
        image.root(slot)
    }

    /// Writes an address, or 0 for nil, into a root slot. All else is as it was.
    pub fn set_root(&mut self, slot: u32, at: u64)
        requires held { map.contains_key self.old.pages.left 2 ≡ true }
        requires slot { slot < 16 }
        ensures written { root_written self.old slot at ≡ Some self.new }
        ensures step { (catalog : List Fields) → IsRootWrite catalog BASE self.old slot at self.new }
        ensures form { (catalog : List Fields) (refers : ℕ → Bool) → HaveForm catalog refers self.old → refers at ≡ true → HaveForm catalog refers self.new }
    {
        self.pages.set_root(slot, at);
    }
}
