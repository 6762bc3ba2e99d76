//! Values of slots.
ghost use Rattle.std.specs.Prelude.{◌≡◌, ◌≢◌, ℕ, IsTrue, false, List, [], ◌∷◌, ◌++◌};
ghost use Rattle.pm3_history.specs.Entry.{Done};
ghost use Rattle.pm3_history.specs.Opens.{Origin};
ghost use Rattle.pm3_table.specs.declared.view.Told.{Told};
ghost use Rattle.pm3_table.specs.Telling.{names};
ghost use Rattle.pm3_table.specs.Words.{turn_unit};

/// A value that a slot of the table may have: the image of a page, a space, or what goes with the turn.
pub trait Chronicle {
    // It stands for a unit after a history, where these commits failed.
    ghost stands: { Told → List Done → List Done → ℕ → Self → Type 0 };
    // What the turn's first value tells of the opening.
    ghost opening: { Self → Origin };
    // The pages of a space: those of its images, and its free ones.
    ghost spans: { Self → List ℕ };
    // The faults that the turn's value has counted.
    ghost counted: { Self → ℕ };

    /// Whether it is a value that goes with the turn, and so stands for no other unit. The table does not ask, but a trait has
    /// laws only beside a call.
    fn is_turn(&self) -> bool
        ensures turn { IsTrue result → (told : Told) (lost h : List Done) (u : ℕ) → stands told lost h u self.now → u ≡ turn_unit told.pages };

    // A commit that does not name the unit leaves what stands for it.
    ghost frame: { (told : Told) (lost h : List Done) (e : Done) (u : ℕ) (x : Self) → names told e u ≡ false
        → stands told lost h u x → stands told lost (h ++ e ∷ []) u x };
    // Failed commits concern the turn alone.
    ghost alike: { (told : Told) (lost more h : List Done) (u : ℕ) (x : Self) → u ≢ turn_unit told.pages
        → stands told lost h u x → stands told more h u x };
}
