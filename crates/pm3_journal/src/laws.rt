//! What the definitions of the journal's bytes say of worked bytes, and of the graph that files open to.
ghost use Rattle.std.specs.Prelude.{◌≡◌, ◌≤◌, ℕ, [], List};
ghost use Rattle.pm3_types.specs.Graph.{Part};
ghost use Rattle.pm3_journal.specs.Damage.{NothingMends};
ghost use Rattle.pm3_journal.specs.FileHead.{empty_journal};
ghost use Rattle.pm3_journal.specs.Opening.{OpenTo};
ghost use Rattle.pm3_journal.specs.Records.{records, Whole};

/// A new journal has no record.
pub fn new_journal_is_empty()
    ensures { (pages : ℕ) → 16 ≤ pages → pages ≤ 16384 → records (empty_journal pages) ≡ Whole [] }
{}

/// Nothing that stands further on mends a journal that is damaged.
pub fn nothing_mends()
    ensures { NothingMends }
{}

/// The bytes of a page file and of a journal open to one graph at most.
pub fn opens_to_one_graph()
    ensures { (base : ℕ) (file journal : List ℕ) (g h : Part) → OpenTo base file journal g → OpenTo base file journal h → g ≡ h }
{}
