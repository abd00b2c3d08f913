//! Makes ready what an event is to come to.
ghost use Rattle.std.specs.Prelude.{◌≡◌, ◌≢◌, ◌≤◌, ◌<◌, ◌+◌, ◌^◌, ℕ, [], map, true, is_some, All, IfOk, IsSome, OnErr, OnOk, Option, Some, None};
ghost use Rattle.walter_base.specs.declared.names.Tid.{Tid as Named};
ghost use Rattle.walter_base.specs.Vectors.{most_sites};
ghost use Rattle.walter_machine.specs.Debts.{IsDebtOf, gone_first};
ghost use Rattle.walter_machine.specs.declared.ready.Kind.TheVariants as kind;
ghost use Rattle.walter_machine.specs.Readiness.{IsReadyFor, IsReadyAnyway, rec_in, step_in};
ghost use Rattle.walter_machine.specs.States.{IsUp};
ghost use Rattle.walter_machine.specs.Steps.{Answer, Fall};
ghost use Rattle.walter_packet.specs.Framed.{frame_of};
ghost use Rattle.walter_packet.specs.Spelling.{HasPacketSpelling};
ghost use Rattle.walter_rules.specs.declared.event.Event.{Event as Happens};
ghost use Rattle.walter_rules.specs.declared.event.Input.{Input as Asked};
ghost use Rattle.walter_rules.specs.Standing.{Standing};
ghost use Rattle.walter_rules.specs.Trails.{TakesMemory};
ghost use Rattle.walter_site.specs.Members.{IsStanding, IsSizedInput, IsSizedPacket};
ghost use Rattle.walter_tables.specs.Folding.{IsTidy};
ghost use Rattle.walter_tables.specs.Sites.{site_of, catalog_of};

use crate::outcomes::gone_first;
use crate::ready::{Kind, Ready};
use std::alloc::Global;
use walter_base::{Format, MaybeRecord, Mem, NoMemory, Refusal, Reply, Sends, Tid};
use walter_packet::Framed;
use walter_rules::{Input, Outcome};
use walter_site::Site;

/// An answer alone is ready: no record, and no packets.
pub fn make_answer(alloc: Global, ready: &mut Ready, outcome: Outcome)
    ensures step { step_in ready.new ≡ Answer outcome }
    ensures frames { ready.new.frames.items ≡ [] }
{
    make_fall(alloc, ready);
    ready.kind = Kind::Answer;
    ready.plan.planned.outcome = outcome;
}

/// The fall of a site is ready.
pub fn make_fall(alloc: Global, ready: &mut Ready)
    ensures kind { ready.new.kind ≡ kind.Fall }
    ensures step { step_in ready.new ≡ Fall }
    ensures frames { ready.new.frames.items ≡ [] }
{
    ready.kind = Kind::Fall;
    ready.rec = MaybeRecord::none();
    ready.frames = Vec::new(alloc);
}

/// What an input comes to at a site that has so many records, in a journal whose header names this format. Its client
/// is owed the news of this transaction, or of none.
pub fn prepare_input(
    alloc: Global,
    site: &mut Site,
    owed: Option<Tid>,
    sites: u8,
    records: u64,
    input: &Input,
    header: Format,
    ready: &mut Ready,
) -> Mem<()>
    requires most { sites ≤ most_sites }
    requires among { (catalog_of site.old).sites ≡ sites }
    requires sized { IsSizedInput sites input.now }
    ensures ready { (S : Standing) → IsUp S site.old → IsDebtOf S.gone input.now owed → OnOk result
        (IsReadyFor header (catalog_of site.old) (site_of site.old) (Some site.new) S (Happens.Given input.now)
        ready.new) }
    ensures free { OnErr result (TakesMemory true (Happens.Given input.now)) }
    ensures state { (S : Standing) → IsUp S site.old → IsUp S site.new }
    ensures site { site_of site.new ≡ site_of site.old }
    ensures catalog { catalog_of site.new ≡ catalog_of site.old }
    ensures tidy { input.now ≡ Asked.Tick → IsTidy site.new }
    ensures countable { OnOk result (IsSome (rec_in ready.new) → records + 1 < 2 ^ 64) }
    ensures anyway { (gone : ℕ → Option Named) → IsDebtOf gone input.now owed → OnOk result
        (IsReadyAnyway (catalog_of site.old) (site_of site.old) (Some site.new) (Happens.Given input.now) ready.new) }
{
    match gone_first(owed, input) {
        Some(tid) => {
            let outcome = Outcome::Replied(Reply::Refused(Refusal::Gone { tid }));
            make_answer(alloc, ready, outcome);
            Ok(())
        }
        None => {
            tidy_at(site, input);
            plan(alloc, site, sites, records, input, header, ready)
        }
    }
}

// At a tick the rows are folded, before anything is planned.
fn tidy_at(site: &mut Site, input: &Input)
    ensures tidy { input.now ≡ Asked.Tick → IsTidy site.new }
    ensures state { (S : Standing) → IsUp S site.old → IsUp S site.new }
    ensures site { site_of site.new ≡ site_of site.old }
    ensures catalog { catalog_of site.new ≡ catalog_of site.old }
{
    if let Input::Tick = input {
        site.tidy();
    }
}

// What it comes to at a site that is up and asked.
fn plan(
    alloc: Global,
    site: &mut Site,
    sites: u8,
    records: u64,
    input: &Input,
    header: Format,
    ready: &mut Ready,
) -> Mem<()>
    requires most { sites ≤ most_sites }
    requires among { (catalog_of site.old).sites ≡ sites }
    requires sized { IsSizedInput sites input.now }
    ensures ready { (S : Standing) (owed : Option Named) → IsUp S site.old → IsDebtOf S.gone input.now owed
        → gone_first owed input.now ≡ None → OnOk result
        (IsReadyFor header (catalog_of site.old) (site_of site.old) (Some site.new) S (Happens.Given input.now)
        ready.new) }
    ensures free { OnErr result (TakesMemory true (Happens.Given input.now)) }
    ensures state { (S : Standing) → IsUp S site.old → IsUp S site.new }
    ensures site { site_of site.new ≡ site_of site.old }
    ensures catalog { catalog_of site.new ≡ catalog_of site.old }
    ensures rests { input.now ≡ Asked.Tick → site.new ≡ site.old }
    ensures countable { OnOk result (IsSome (rec_in ready.new) → records + 1 < 2 ^ 64) }
    ensures standing { IsStanding site.old }
{
    // Where memory runs out, no record is ready.
    make_fall(alloc, ready);
    site.plan(input, header, &mut ready.plan)?;
    ready.frames = frame_all(alloc, &ready.plan.planned.sends, sites)?;
    ready.rec = copy_any(alloc, &ready.plan.planned.rec, records)?;
    ready.kind = Kind::Apply;
    Ok(())
}

// A copy of a record, where there is one, that comes behind so many.
fn copy_any(alloc: Global, rec: &MaybeRecord, records: u64) -> Mem<MaybeRecord>
    ensures copy { IfOk result (λ copy. copy ≡ rec.now) }
    ensures countable { IfOk result (λ copy. IsSome copy → records + 1 < 2 ^ 64) }
    ensures free { OnErr result (is_some rec.now ≡ true) }
{
    let Some(rec) = rec.as_ref() else {
        return Ok(MaybeRecord::none());
    };
    // No memory holds so many records.
    if records >= u64::MAX - 1 {
        return Err(NoMemory);
    }
    MaybeRecord::some(alloc, rec.clone()?)
}

// The frames of packets, which are among so many sites.
fn frame_all(alloc: Global, sends: &Sends, sites: u8) -> Mem<Vec<Framed>>
    requires most { sites ≤ most_sites }
    requires sized { All (λ s. IsSizedPacket sites s.1) sends.now }
    ensures frames { IfOk result (λ frames. frames.items ≡ map (λ s. frame_of sites s.1) sends.now) }
    ensures spelled { IfOk result (λ _. All (λ s. HasPacketSpelling sites s.1) sends.now) }
    ensures free { OnErr result (sends.now ≢ []) }
{
    let mut frames = Vec::new(alloc);
    for (_, packet) in sends.as_slice() {
        frames.push(Framed::new(alloc, packet, sites)?)?;
    }
    Ok(frames)
}
