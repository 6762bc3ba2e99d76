//! What is proved of every state that a table comes to.
ghost use Rattle.std.specs.Prelude.{Option};
ghost use Rattle.atomic_table.specs.Table.{State};
ghost use Rattle.pm3_table.specs.declared.view.Told.{Told};
ghost use Rattle.pm3_table.specs.declared.view.View.{View};
ghost use Rattle.pm3_table.specs.Laws.{ClearedUnnamed, OneHistory, DrawnApart};
ghost use Rattle.pm3_table.specs.Rule.{Ruled};

use crate::chronicle::Chronicle;

/// In each state that meets the rule no standing word names a page that a mutator has cleared (`pins`), there is one lawful
/// history for which the values at home stand (`history`), and what is drawn is drawn once (`apart`).
pub fn table_law<V: Chronicle>()
    ensures pins { (told : Told) (s : State (Option V) View) → Ruled V.stands V.spans V.counted told s → ClearedUnnamed told.pages s }
    ensures history { (told : Told) (s : State (Option V) View) → Ruled V.stands V.spans V.counted told s → OneHistory V.stands told s }
    ensures apart { (told : Told) (s : State (Option V) View) → Ruled V.stands V.spans V.counted told s → DrawnApart s }
{}
