//! The step that a record spells.
ghost use Rattle.std.specs.Prelude.{◌≡◌, IfOk};
ghost use Rattle.std.specs.Option.{option_to_list};
ghost use Rattle.walter_base.specs.declared.names.SiteId.{SiteId};
ghost use Rattle.walter_refinement.specs.Spelled.{recorded};
ghost use Rattle.walter_rules.specs.Standing.{Standing};
ghost use Rattle.walter_psi_of.specs.Accounts.{IsToldOf};

use crate::account::Account;
use walter_base::{MaybeRecord, Mem, Record, SiteId};
use walter_psi::Step;

/// The step of a record of a site.
pub(crate) fn record_step(told: &Account, site: SiteId, rec: &MaybeRecord) -> Mem<Option<Step>>
    ensures { (W : SiteId → Standing) → IsToldOf told.now W
        → IfOk result (λ step. option_to_list step ≡ recorded W site rec.now) }
{
    match rec.as_ref() {
        Some(Record::Own(_, tx)) => Ok(Some(Step::Commit(tx.tid, tx.updates.clone()?))),
        Some(Record::Seen(home, seq)) => {
            let commit = told.commit_at(*home, *seq);
            Ok(commit.map(|tid| Step::Arrive(tid, site)))
        }
        _ => Ok(None),
    }
}
