//! The step that the answer to a call spells.
ghost use Rattle.std.specs.Prelude.{◌≡◌, IfOk, option_map};
ghost use Rattle.std.specs.Option.{option_to_list};
ghost use Rattle.walter_base.specs.declared.names.SiteId.{SiteId};
ghost use Rattle.walter_refinement.specs.Spelled.{did, saw, saw_set, saw_count, told_level, replied, answered};
ghost use Rattle.walter_rules.specs.declared.event.Event.TheVariants.{Given};
ghost use Rattle.walter_rules.specs.declared.event.Input.TheVariants.{Call as CallOf};
ghost use Rattle.walter_rules.specs.declared.outcome.Outcome.TheVariants.{Replied};
ghost use Rattle.walter_rules.specs.Standing.{Standing};
ghost use Rattle.walter_psi_of.specs.Accounts.{session_named, IsToldOf};

use crate::account::Account;
use walter_base::{
    Call, Counts, Level as HowFar, Mem, Reply, Request, SharedBytes, SiteId, Tid, Update,
};
use walter_psi::{Answer, Level, Notice, Step};
use walter_rules::{Event, Input, Outcome};

/// The step of the answer of a site, where the event is a call.
pub(crate) fn answer_step(
    told: &Account,
    site: SiteId,
    event: &Event,
    outcome: &Outcome,
) -> Mem<Option<Step>>
    ensures { (W : SiteId → Standing) → IsToldOf told.now W
        → IfOk result (λ step. option_to_list step ≡ answered site (W site) outcome.now event.now) }
{
    match (event, outcome) {
        (Event::Given(Input::Call { client, call }), Outcome::Replied(reply)) => {
            call_step(told, site, *client, call, reply)
        }
        _ => Ok(None),
    }
}

fn call_step(
    told: &Account,
    site: SiteId,
    client: u32,
    call: &Call,
    reply: &Reply,
) -> Mem<Option<Step>>
    ensures { (W : SiteId → Standing) → IsToldOf told.now W → IfOk result (λ step. option_to_list step
        ≡ answered site (W site) (Replied reply.now) (Given (CallOf client call.now))) }
{
    reply_step(site, reply, call, told.session_of(site, client))
}

/// The step of a reply of a site to a call, by the transaction that its client has open.
fn reply_step(site: SiteId, reply: &Reply, call: &Call, session: Option<Tid>) -> Mem<Option<Step>>
    ensures { IfOk result (λ step. option_to_list step
        ≡ replied site (Replied reply.now) call.now (option_map session_named session)) }
{
    match (reply, session) {
        (Reply::Started(tid), _) => Ok(Some(Step::Start(*tid, site))),
        (Reply::Level(level), _) => Ok(level_step(*level, call)),
        (Reply::Done, Some(tid)) => update_step(call, tid),
        (Reply::Value(value), Some(tid)) => value_step(value, call, tid),
        (Reply::Set(counts), Some(tid)) => set_step(counts, call, tid),
        (Reply::Count(count), Some(tid)) => Ok(count_step(*count, call, tid)),
        (Reply::Committed(version), Some(tid)) => {
            Ok(Some(Step::Told(tid, Notice::Version(*version))))
        }
        (Reply::Aborted(cause), Some(tid)) => Ok(Some(Step::Abort(tid, *cause))),
        _ => Ok(None),
    }
}

fn update_step(call: &Call, tid: Tid) -> Mem<Option<Step>>
    ensures { IfOk result (λ step. option_to_list step ≡ did call.now (session_named tid)) }
{
    match call {
        Ok(Request::Write(oid, bytes)) => {
            Ok(Some(Step::Op(tid, Update::Write(*oid, bytes.clone()?))))
        }
        Ok(Request::SetAdd(oid, id)) => Ok(Some(Step::Op(tid, Update::Add(*oid, *id)))),
        Ok(Request::SetDel(oid, id)) => Ok(Some(Step::Op(tid, Update::Del(*oid, *id)))),
        _ => Ok(None),
    }
}

fn value_step(value: &Option<SharedBytes>, call: &Call, tid: Tid) -> Mem<Option<Step>>
    ensures { IfOk result (λ step. option_to_list step ≡ saw call.now value.now (session_named tid)) }
{
    match call {
        Ok(Request::Read(oid)) => Ok(Some(Step::Read(tid, *oid, Answer::Value(value.clone()?)))),
        _ => Ok(None),
    }
}

fn set_step(counts: &Counts, call: &Call, tid: Tid) -> Mem<Option<Step>>
    ensures { IfOk result (λ step. option_to_list step ≡ saw_set call.now counts.now (session_named tid)) }
{
    match call {
        Ok(Request::SetRead(oid)) => {
            Ok(Some(Step::Read(tid, *oid, Answer::Counts(counts.clone()?))))
        }
        _ => Ok(None),
    }
}

fn count_step(count: i64, call: &Call, tid: Tid) -> Option<Step>
    ensures { option_to_list result ≡ saw_count call.now count (session_named tid) }
{
    match call {
        Ok(Request::SetReadId(oid, id)) => Some(Step::Read(tid, *oid, Answer::Count(*id, count))),
        _ => None,
    }
}

/// What the level tells of the transaction that was asked for. Of one that is open there is nothing to tell.
fn level_step(level: HowFar, call: &Call) -> Option<Step>
    ensures { option_to_list result ≡ told_level level call.now }
{
    let Ok(Request::Level(tid)) = call else {
        return None;
    };
    let told = match level {
        HowFar::NotCommitted => Level::NotCommitted,
        HowFar::Running | HowFar::Deciding => return None,
        HowFar::Committed => Level::Committed,
        HowFar::Durable => Level::Durable,
        HowFar::Visible => Level::Visible,
    };
    Some(Step::Told(*tid, Notice::Level(told)))
}
