//! What a step that is ready does to a site.
ghost use Rattle.std.specs.Prelude.{◌≡◌, ◌+◌, ◌<◌, ◌^◌, [], None, Some, true, is_some, IfSome, IsSome};
ghost use Rattle.walter_base.specs.declared.catalog.Catalog.{Catalog};
ghost use Rattle.walter_base.specs.declared.names.SiteId.{SiteId};
ghost use Rattle.walter_machine.specs.Debts.{sessions_lost};
ghost use Rattle.walter_machine.specs.States.{IsOf, IsState};
ghost use Rattle.walter_machine.specs.Steps.{CanStep, IsStep, IsPlan, IsKnownBy, Steps, came_of, outcome_of, sends_of, record_of, step_by, flight_behind, records_behind};
ghost use Rattle.walter_rules.specs.declared.event.Event.TheVariants as happens;
ghost use Rattle.walter_rules.specs.declared.event.Input.TheVariants as inputs;
ghost use Rattle.walter_rules.specs.declared.outcome.Outcome.TheVariants as outcomes;
ghost use Rattle.walter_rules.specs.Knowledge.{Knowledge};
ghost use Rattle.walter_rules.specs.Learning.{after};
ghost use Rattle.walter_rules.specs.Standing.{Standing, up_after};
ghost use Rattle.walter_site.specs.Members.{Knows, IsStanding};
ghost use Rattle.walter_tables.specs.Sites.{site_of, catalog_of};

use crate::ready::Kind;
use std::alloc::Global;
use std::mem;
use walter_base::{MaybeRecord, Record, Sends};
use walter_rules::{Event, Outcome};
use walter_session::Sessions;
use walter_site::{Plan, Site};
use walter_tables::Tables;

/// Does to a site what the step does to it. What that comes to, and what is put out, is in the plan then.
pub fn follow(
    alloc: Global,
    site: &mut Option<Site>,
    lost: &mut Option<Sessions>,
    event: &Event,
    kind: Kind,
    plan: &mut Plan,
)
    requires can { CanStep site.old event.now (step_by kind plan.old) }
    requires unlost { lost.old ≡ None }
    ensures outcome { plan.new.planned.outcome ≡ outcome_of (step_by kind plan.old) }
    ensures sends { plan.new.planned.sends ≡ sends_of (step_by kind plan.old) }
    ensures steps { (catalog : Catalog) (i : SiteId) (S : Standing) → IfSome site.old (IsOf catalog i)
        → IsState S site.old → IsStep catalog i site.old S event.now (step_by kind plan.old)
        → Steps catalog i S event.now (came_of (step_by kind plan.old)) site.new lost.new }
    ensures of { (catalog : Catalog) (i : SiteId) (S : Standing) → IfSome site.old (IsOf catalog i)
        → IsStep catalog i site.old S event.now (step_by kind plan.old) → IfSome site.new (IsOf catalog i) }
    ensures up { is_some site.new ≡ up_after event.now (outcome_of (step_by kind plan.old)) (is_some site.old) }
    ensures tick { event.now ≡ happens.Given inputs.Tick → site.new ≡ site.old }
    ensures unlost { is_some site.new ≡ true → lost.new ≡ None }
{
    match kind {
        Kind::Answer => plan.planned.sends = Sends::from(Vec::new(alloc)),
        Kind::Apply => apply(site, event, plan),
        Kind::Fall => {
            fall(site, lost);
            be_taken(alloc, plan);
        }
        Kind::Rise(tables, _) => {
            rise(site, tables);
            be_taken(alloc, plan);
        }
    }
}

// What the event comes to without a plan: what the site knows changed, and nothing is put out.
fn be_taken(alloc: Global, plan: &mut Plan)
    ensures outcome { plan.new.planned.outcome ≡ outcomes.Taken }
    ensures sends { plan.new.planned.sends ≡ [] }
{
    plan.planned.outcome = Outcome::Taken;
    plan.planned.sends = Sends::from(Vec::new(alloc));
}

// The site goes down, and its sessions are lost. Apart from `follow`, which each event passes: this moves a whole site.
fn fall(site: &mut Option<Site>, lost: &mut Option<Sessions>)
    ensures down { site.new ≡ None }
    ensures lost { (K : Knowledge) → IfSome site.old (λ t. Knows t K → sessions_lost lost.new ≡ K.sessions) }
{
    if let Some(site) = mem::replace(site, None) {
        *lost = Some(site.into_sessions());
    }
}

// The site comes up with these tables. Apart from `follow` for the same reason.
fn rise(site: &mut Option<Site>, tables: Box<Tables>)
    requires { IsStanding tables.value }
    ensures { site.new ≡ Some tables.value }
{
    *site = Some(Site::new(Box::into_inner(tables)));
}

// The plan of an input is applied.
fn apply(site: &mut Option<Site>, event: &Event, plan: &mut Plan)
    requires { (S : Standing) × IsPlan site.old S event.now plan.old }
    ensures outcome { plan.new.planned.outcome ≡ plan.old.planned.outcome }
    ensures sends { plan.new.planned.sends ≡ plan.old.planned.sends }
    ensures knows { (S : Standing) → IsPlan site.old S event.now plan.old → IfSome site.old (λ t. IsKnownBy site.new
        (after (catalog_of t) (site_of t) S.knows event.now plan.old.planned.outcome plan.old.planned.rec)) }
    ensures of { (catalog : Catalog) (i : SiteId) → IfSome site.old (IsOf catalog i)
        → IfSome site.new (IsOf catalog i) }
    ensures tick { event.now ≡ happens.Given inputs.Tick → site.new ≡ site.old }
{
    let Some(site) = site else { unreachable!() };
    let Event::Given(input) = event else {
        unreachable!()
    };
    site.apply(input, plan);
}

/// The record of a step that has one. It is gone from the plan then.
pub fn rec_of(kind: Kind, plan: &mut Plan) -> Record
    requires { IsSome (record_of (step_by kind plan.old)) }
    ensures { record_of (step_by kind plan.old) ≡ Some result }
{
    match kind {
        Kind::Apply => planned_record(plan),
        Kind::Rise(_, epoch) => Record::Boot(epoch),
        Kind::Answer | Kind::Fall => unreachable!(),
    }
}

// The record of a plan that has one.
fn planned_record(plan: &mut Plan) -> Record
    requires { IsSome plan.old.planned.rec }
    ensures { plan.old.planned.rec ≡ Some result }
{
    match mem::replace(&mut plan.planned.rec, MaybeRecord::none()).into_option() {
        Some(rec) => rec,
        None => unreachable!(),
    }
}

/// How many records there are behind an event that wrote this one, if any, and the one in flight: none where one was
/// written.
pub fn count_in(wrote: &MaybeRecord, records: u64, flight: MaybeRecord) -> (u64, MaybeRecord)
    requires { IsSome wrote.now → records + 1 < 2 ^ 64 }
    ensures records { result.0 ≡ records_behind wrote.now records }
    ensures flight { result.1 ≡ flight_behind wrote.now flight }
{
    if wrote.as_ref().is_some() {
        (records + 1, MaybeRecord::none())
    } else {
        (records, flight)
    }
}
