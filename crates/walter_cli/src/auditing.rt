//! Audits the journals of a scenario's sites, and writes what is found.
ghost use Rattle.std.specs.Prelude.{◌≡◌, ◌<◌, ◌≤◌, []};
ghost use Rattle.walter_cli.specs.Audits.{IsKept};
ghost use Rattle.walter_cli.specs.Auditing.{EndsAudit, IsToldAs, fault_of_unread, says_yes};
ghost use Rattle.walter_cli.specs.Ending.{IsPlayable};
ghost use Rattle.walter_cli.specs.Racks.{rack_at, racked};

use crate::disks::{give_all, take_all};
use crate::ended::{Ended, Fault, JournalCause};
use std::alloc::Global;
use walter_audit::Finding;
use walter_disk::Rack;
use walter_inspect::{Inspected, Unread, read_contents, write_finding};
use walter_journal::JournalFault;
use walter_page::WriteFault;
use walter_scenario::Scenario;
use walter_stream::Sink;

/// Reads what the journals of a scenario's sites hold, gives their disks back, and writes what an audit finds.
pub fn audit<K: Sink, R: Rack>(
    alloc: Global,
    scenario: &Scenario,
    sink: &mut K,
    rack: &mut R,
) -> Ended
    requires playable { IsPlayable scenario.now }
    ensures trails { result.trails.items ≡ [] }
    ensures same_folder { R.folder rack.new ≡ R.folder rack.old }
    ensures given_back { (racked R.D.Disk (rack_at R.Rack rack.old) (rack_at R.Rack rack.new)).balanced }
    ensures unfailing { 32 ≤ R.unfailing rack.old → ¬ (R.faults rack.old < R.faults rack.new) }
    ensures kept { (racked R.D.Disk (rack_at R.Rack rack.old) (rack_at R.Rack rack.new)).each
        (IsKept (racked R.D.Disk (rack_at R.Rack rack.old) (rack_at R.Rack rack.new))) }
    ensures ends { EndsAudit (racked R.D.Disk (rack_at R.Rack rack.old) (rack_at R.Rack rack.new))
        scenario.now (K.holds sink.old) (K.holds sink.new) (K.faults sink.old) (K.faults sink.new)
        result.status result.fault }
{
    let disks = match take_all(alloc, rack, scenario) {
        Ok(disks) => disks,
        Err(fault) => return Ended::early(alloc, fault),
    };
    let sites = scenario.catalog.sites;
    let Inspected { disks, read } = read_contents(alloc, disks, scenario.capacity, sites);
    let given = give_all(rack, disks);
    let contents = match read {
        Ok(contents) => contents,
        Err(unread) => return Ended::early(alloc, unreadable(unread)),
    };
    if let Err(site) = given {
        return Ended::early(alloc, Fault::Rack { site });
    }
    let Ok(finding) = walter_audit::audit(alloc, &scenario.catalog, &contents) else {
        return Ended::early(alloc, Fault::Memory);
    };
    tell(alloc, sites, &finding, sink)
}

// Writes what an audit has found, and says yes or no by the status.
fn tell<K: Sink>(alloc: Global, sites: u8, finding: &Finding, sink: &mut K) -> Ended
    ensures trails { result.trails.items ≡ [] }
    ensures told { IsToldAs sites finding.now (K.holds sink.old) (K.holds sink.new)
        (K.faults sink.old) (K.faults sink.new) result.status result.fault }
{
    match write_finding(alloc, sites, finding, sink) {
        Ok(()) => {
            if is_yes(finding) {
                Ended::late(Vec::new(alloc), None)
            } else {
                Ended::refuted(alloc)
            }
        }
        Err(WriteFault::NoMemory) => Ended::early(alloc, Fault::Memory),
        Err(WriteFault::Failed) => Ended::early(alloc, Fault::Write),
    }
}

fn is_yes(finding: &Finding) -> bool
    ensures { result ≡ says_yes finding.now }
{
    match finding {
        Finding::Yes(_) => true,
        Finding::No { .. } => false,
    }
}

// The fault of an audit where the journal of a site can't be read.
fn unreadable(unread: Unread) -> Fault
    ensures { result ≡ fault_of_unread unread.site unread.why }
{
    let site = unread.site;
    match unread.why {
        JournalFault::Failed => Fault::Rack { site },
        JournalFault::Foreign => Fault::Journal {
            site,
            cause: JournalCause::Foreign,
            place: 0,
        },
        JournalFault::Damaged { at, length } => Fault::Journal {
            site,
            cause: JournalCause::Damaged { length },
            place: at,
        },
        JournalFault::NoMemory => Fault::Memory,
    }
}
