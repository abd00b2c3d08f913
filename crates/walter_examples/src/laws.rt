//! The examples are right trails, and spell the histories that are written beside them.
ghost use Rattle.std.specs.Prelude.{◌≡◌, ℕ, List};
ghost use Rattle.walter_base.specs.declared.catalog.Catalog.{Catalog};
ghost use Rattle.walter_examples.specs.CausalOrder.{HoldsCausalOrder, causal_trails, causal_history};
ghost use Rattle.walter_examples.specs.DecisionInFlight.{HoldsDecision, decision_trails, decision_history};
ghost use Rattle.walter_examples.specs.LockedByACause.{HoldsLockedCause, locked_trails, locked_history};
ghost use Rattle.walter_refinement.specs.Spelled.{psi_of};
ghost use Rattle.walter_base.specs.declared.format.Format.TheVariants.{First};
ghost use Rattle.walter_rules.specs.Layouts.{one_area};
ghost use Rattle.walter_rules.specs.Merges.{merge};
ghost use Rattle.walter_runs.specs.Runs.{AreRightTrails};

/// The right trails of three runs written out, over a catalog that has their containers and journals that have a place
/// for their records, and the histories that they spell. In the first a commit comes to a site before its cause; in
/// the second the disk fails while the decision of a slow commit is journaled, and the restart finds it; in the third
/// a slow commit meets the lock of a transaction that it has seen, and is asked for again until the lock is gone.
pub fn examples_spell()
    ensures causal_right { (catalog : Catalog) (capacity : ℕ) (cause effect : List ℕ)
        → HoldsCausalOrder catalog capacity cause effect
        → AreRightTrails catalog (λ k. one_area capacity First) (causal_trails cause effect) }
    ensures causal_history { (catalog : Catalog) (cause effect : List ℕ)
        → psi_of catalog (merge (causal_trails cause effect)) ≡ causal_history cause effect }
    ensures decision_right { (catalog : Catalog) (capacity : ℕ) (value : List ℕ)
        → HoldsDecision catalog capacity value → AreRightTrails catalog (λ k. one_area capacity First) (decision_trails value) }
    ensures decision_history { (catalog : Catalog) (value : List ℕ)
        → psi_of catalog (merge (decision_trails value)) ≡ decision_history value }
    ensures locked_right { (catalog : Catalog) (capacity : ℕ) (first second : List ℕ)
        → HoldsLockedCause catalog capacity first second
        → AreRightTrails catalog (λ k. one_area capacity First) (locked_trails first second) }
    ensures locked_history { (catalog : Catalog) (first second : List ℕ)
        → psi_of catalog (merge (locked_trails first second)) ≡ locked_history first second }
{}
