//! Laws of a history to whose end a step comes.
ghost use Rattle.std.specs.Prelude.{◌≡◌, ◌↔◌, ◌⊎◌, List, [], ◌∷◌, ◌++◌};
ghost use Rattle.walter_base.specs.declared.names.SiteId.{SiteId};
ghost use Rattle.walter_base.specs.declared.names.Tid.{Tid};
ghost use Rattle.walter_base.specs.declared.update.Update.{Update};
ghost use Rattle.walter_psi.specs.declared.step.Step.{Step};
ghost use Rattle.walter_psi.specs.Histories.{log, logged, commits, commit_of, snapshot, own_updates, done, committed_updates, given, seen_updates, IsStarted, IsCommitted};
ghost use Rattle.walter_psi.specs.Legal.{IsLegal, IsLegalStep};

/// What a history with one more step at its end is, by what it was.
pub fn one_more_step()
    ensures legal { (steps : List Step) (step : Step) → IsLegal (steps ++ step ∷ []) ↔ (IsLegal steps × IsLegalStep steps step) }
    ensures log { (site : SiteId) (steps : List Step) (step : Step) → log site (steps ++ step ∷ []) ≡ log site steps ++ logged site step }
    ensures commits { (site : SiteId) (steps : List Step) (step : Step) → commits site (steps ++ step ∷ []) ≡ commits site steps ++ commit_of site step }
    ensures done { (x : Tid) (steps : List Step) (step : Step) → own_updates x (steps ++ step ∷ []) ≡ own_updates x steps ++ done x step }
    ensures given { (x : Tid) (steps : List Step) (step : Step) → committed_updates (steps ++ step ∷ []) x ≡ committed_updates steps x ++ given x step }
    ensures snapshot_here { (x : Tid) (site : SiteId) (steps : List Step) → ¬ IsStarted x steps → snapshot x (steps ++ Step.Start x site ∷ []) ≡ log x.site steps }
    ensures snapshot_kept { (x : Tid) (steps : List Step) (step : Step) → IsStarted x steps → snapshot x (steps ++ step ∷ []) ≡ snapshot x steps }
    ensures started { (x : Tid) (steps : List Step) (step : Step) → IsStarted x (steps ++ step ∷ []) ↔ (IsStarted x steps ⊎ ((site : SiteId) × (step ≡ Step.Start x site))) }
    ensures committed { (x : Tid) (steps : List Step) (step : Step) → IsCommitted x (steps ++ step ∷ []) ↔ (IsCommitted x steps ⊎ ((updates : List Update) × (step ≡ Step.Commit x updates))) }
{}

/// What a started transaction reads changes by its own updates alone, whatever legal step comes next.
pub fn state_after_step()
    ensures { (x : Tid) (steps : List Step) (step : Step) → IsLegal (steps ++ step ∷ []) → IsStarted x steps
        → seen_updates x (steps ++ step ∷ []) ≡ seen_updates x steps ++ done x step }
{}
