//! What is to come of an event, with all that it takes.
ghost use Rattle.std.specs.Prelude.{◌≡◌, ◌+◌, Some, None, false, IfOk, IfErr, IfSome, IfNone, Err};
ghost use Rattle.walter_base.specs.declared.format.Format.{Format};
ghost use Rattle.walter_machine.specs.Steps.{record_of, step_by};
ghost use Rattle.walter_rules.specs.Knowledge.{Knowledge};
ghost use Rattle.walter_rules.specs.Standing.{Standing};
ghost use Rattle.walter_rules.specs.declared.event.Event.TheVariants as event;
ghost use Rattle.walter_tables.specs.Sites.{values_of, site_of, catalog_of, Stands};

use std::alloc::Global;
use walter_base::{MaybeRecord, Record, RecordPlace};
use walter_packet::Framed;
use walter_site::Plan;
use walter_tables::Tables;

/// What is to come of an event, with all that it takes. Contracts say by `IsReadyFor` of which event, and read it by
/// `step_in`, `rec_in` and `came_in`. It is large, so who prepares events makes it once for each, and has it filled
/// where it stays.
#[derive(Drop)]
pub struct Ready {
    pub(crate) kind: Kind,
    // Of an answer the outcome alone counts.
    pub(crate) plan: Plan,
    // The step's record, once more for the trail.
    pub(crate) rec: MaybeRecord,
    // The frames of the packets that are to be put out.
    pub(crate) frames: Vec<Framed>,
    ghost copy: { rec ≡ record_of (step_by kind plan) },
}

/// What an event does to the site.
#[derive(Drop)]
pub(crate) enum Kind {
    /// It is answered, and what the site knows stays.
    Answer,
    /// The plan of an input is applied.
    Apply,
    /// The site goes down.
    Fall,
    /// The site comes up in this epoch, with these tables behind its Boot.
    Rise(Box<Tables>, u32),
}

/// Why the next epoch of a site isn't ready.
#[derive(Clone, Copy, Debug, PartialEq, Eq)]
pub enum BootFault {
    /// The site has had its last epoch.
    LastEpoch,
    /// Memory ran out.
    NoMemory,
}

impl Ready {
    ghost use Rattle.walter_machine.specs.Readiness.{IsReadyFor, IsReadyAnyway, rec_in};

    /// Nothing is ready.
    pub fn none(alloc: Global) -> Ready
        ensures { rec_in result ≡ None }
    {
        Ready {
            kind: Kind::Fall,
            plan: Plan::none(alloc),
            rec: MaybeRecord::none(),
            frames: Vec::new(alloc),
        }
    }

    /// The next epoch of a site that is down, whose records tell these tables.
    pub fn boot(alloc: Global, mut tables: Tables) -> Result<Ready, BootFault>
        requires told { (K : Knowledge) × Stands tables K }
        ensures ready { (header : Format) (S : Standing) → S.up ≡ false → Stands tables S.knows
            → IfOk result (IsReadyFor header (catalog_of tables) (site_of tables) None S event.Restart) }
        ensures anyway { IfOk result (IsReadyAnyway (catalog_of tables) (site_of tables) None event.Restart) }
        ensures boots { IfOk result (λ r. rec_in r ≡ Some (Record.Boot ((values_of tables).epoch + 1))) }
        ensures last { IfErr result (λ why. why ≡ BootFault.LastEpoch → (values_of tables).epoch ≡ 4294967295) }
        ensures takes_none { (values_of tables).epoch ≡ 4294967295 → result ≡ Err BootFault.LastEpoch }
    {
        let Some(epoch) = tables.epoch().checked_add(1) else {
            return Err(BootFault::LastEpoch);
        };
        // The next epoch fits behind any records.
        let Ok(()) = tables.replay(Record::Boot(epoch)) else {
            return Err(BootFault::NoMemory);
        };
        let Ok(tables) = Box::new(alloc, tables) else {
            return Err(BootFault::NoMemory);
        };
        let Ok(place) = RecordPlace::new(alloc) else {
            return Err(BootFault::NoMemory);
        };
        Ok(Ready {
            kind: Kind::Rise(tables, epoch),
            plan: Plan::none(alloc),
            rec: place.fill(Record::Boot(epoch)),
            frames: Vec::new(alloc),
        })
    }

    /// The record that is to be stable first.
    pub fn record(&self) -> Option<&Record>
        ensures some { IfSome result (λ rec. rec_in self.now ≡ Some rec.now) }
        ensures none { IfNone result (rec_in self.now ≡ None) }
    {
        self.rec.as_ref()
    }
}
