//! Counts the updates of a transaction that is committed.
ghost use Rattle.std.specs.Prelude.{◌≡◌, ◌++◌, ◌∷◌, [], ℕ, List, true, false};
ghost use Rattle.walter_cset.specs.Totals.{HavePlaces};
ghost use Rattle.walter_rows.specs.Rows.{AreTotalsOf, SeesAlike};
ghost use Rattle.walter_rules.specs.declared.held.Held.{Held};
ghost use Rattle.walter_rules.specs.Log.{sees};

use walter_base::Update;
use walter_cset::Totals;

/// Counts the updates of a transaction that is committed, without taking memory: of an own one, which the log gets now,
/// or of one that was received before.
pub fn count_commit(totals: &mut Totals, updates: &[Update])
    requires { HavePlaces totals.old updates.now }
    ensures own { (before after : List ℕ) (log : List Held) (h : Held) → h.tx.updates ≡ updates.now
        → SeesAlike before after log → sees after h ≡ true
        → AreTotalsOf before log totals.old → AreTotalsOf after (log ++ h ∷ []) totals.new }
    ensures received { (before after : List ℕ) (front back : List Held) (h : Held) → h.tx.updates ≡ updates.now
        → SeesAlike before after front → SeesAlike before after back → sees before h ≡ false → sees after h ≡ true
        → AreTotalsOf before (front ++ h ∷ back) totals.old → AreTotalsOf after (front ++ h ∷ back) totals.new }
{
    walter_cset::take_all(totals, updates);
}
