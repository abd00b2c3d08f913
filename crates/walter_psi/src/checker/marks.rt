//! What has happened to a transaction among some steps.
ghost use Rattle.std.specs.Prelude.{◌≡◌, ◌↔◌, IsTrue, Contains};
ghost use Rattle.walter_base.specs.declared.transaction.Cause.{Cause};
ghost use Rattle.walter_psi.specs.Histories.{IsStarted, IsCommitted};
ghost use Rattle.walter_psi.specs.Legal.{IsRunning};
ghost use Rattle.walter_psi.specs.Checking.{IsStartOf, IsCommitOf, IsAbortOf};

use crate::step::{Level, Notice, Step};
use walter_base::Tid;

/// Whether the step starts the transaction.
pub(super) fn is_start_of(step: &Step, x: Tid) -> bool
    ensures { IsTrue result ↔ IsStartOf x step.now }
{
    matches!(step, Step::Start(y, _) if *y == x)
}

fn is_commit_of(step: &Step, x: Tid) -> bool
    ensures { IsTrue result ↔ IsCommitOf x step.now }
{
    matches!(step, Step::Commit(y, _) if *y == x)
}

fn is_abort_of(step: &Step, x: Tid) -> bool
    ensures { IsTrue result ↔ IsAbortOf x step.now }
{
    matches!(step, Step::Abort(y, _) if *y == x)
}

fn tells_uncommitted(step: &Step, x: Tid) -> bool
    ensures { IsTrue result ↔ (step.now ≡ Step.Told x (Notice.Level Level.NotCommitted)) }
{
    matches!(step, Step::Told(y, Notice::Level(Level::NotCommitted)) if *y == x)
}

/// Whether the transaction starts among the steps.
pub(super) fn is_started(steps: &[Step], x: Tid) -> bool
    ensures { IsTrue result ↔ IsStarted x steps.now }
{
    steps.iter().any(|step| is_start_of(step, x))
}

/// Whether it commits among them.
pub(super) fn is_committed(steps: &[Step], x: Tid) -> bool
    ensures { IsTrue result ↔ IsCommitted x steps.now }
{
    steps.iter().any(|step| is_commit_of(step, x))
}

/// Whether it aborts among them.
fn is_aborted(steps: &[Step], x: Tid) -> bool
    ensures { IsTrue result ↔ ((cause : Cause) × Contains steps.now (Step.Abort x cause)) }
{
    steps.iter().any(|step| is_abort_of(step, x))
}

/// Whether it is started and not over.
pub(super) fn is_running(steps: &[Step], x: Tid) -> bool
    ensures { IsTrue result ↔ IsRunning x steps.now }
{
    is_started(steps, x) && !is_committed(steps, x) && !is_aborted(steps, x)
}

/// Whether somebody was told that it isn't committed.
pub(super) fn was_told_uncommitted(steps: &[Step], x: Tid) -> bool
    ensures { IsTrue result ↔ Contains steps.now (Step.Told x (Notice.Level Level.NotCommitted)) }
{
    steps.iter().any(|step| tells_uncommitted(step, x))
}
