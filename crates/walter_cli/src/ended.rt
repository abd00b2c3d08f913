//! How a call of the program ended.
ghost use Rattle.std.specs.Prelude.{◌≡◌, [], Some, None};

use std::alloc::Global;
use thiserror::Error;
use walter_scenario::{Detail, Place, Refusal};
use walter_trail::Trail;

/// Why no site can begin with what a disk has.
#[derive(Clone, Copy, Debug, PartialEq, Eq, Error)]
pub enum JournalCause {
    #[error("it has no journal")]
    Foreign,
    #[error("its journal is damaged, since it claims a length of {length}")]
    Damaged { length: u32 },
    #[error("its journal has records")]
    Used,
}

/// Why a run wrote no whole report, or an audit not all that it found.
#[derive(Debug, Drop, PartialEq, Eq, Error)]
pub enum Fault {
    /// What is wrong with the words, in some lines, with a hint at `--help`.
    #[error("{0}")]
    Usage(String),
    #[error("the scenario has no reading: {}", Refusal {place: *.place, detail: .detail})]
    Scenario {
        place: Place,
        detail: Detail,
    },
    #[error("the scenario could not be read to its end")]
    Read,
    #[error("the report could not be written to its end")]
    Write,
    #[error("out of memory")]
    Memory,
    #[error("the disk of site {site} failed, or could not be taken or given back")]
    Rack {
        site: u8,
    },
    /// At this place of the disk's bytes stands what is wrong: 0 of what is no journal, and else that of the gate.
    #[error("site {site} cannot begin with its disk: {cause} (at place {place})")]
    Journal {
        site: u8,
        cause: JournalCause,
        place: u64,
    },
}

/// How a call of the program ended: its status, the fault if the status is neither 0 nor 8, and the trails of its run.
/// There are none where no run began.
#[derive(Debug, Drop)]
pub struct Ended {
    pub status: u8,
    pub fault: Option<Fault>,
    pub trails: Vec<Trail>,
}

impl Ended {
    ghost use Rattle.walter_cli.specs.Statuses.{status_of};

    /// The end of a call that began no run.
    pub fn early(alloc: Global, fault: Fault) -> Ended
        ensures status { result.status ≡ status_of (Some fault) }
        ensures fault { result.fault ≡ Some fault }
        ensures trails { result.trails.items ≡ [] }
    {
        Ended::late(Vec::new(alloc), Some(fault))
    }

    /// The end of an audit that says no.
    pub fn refuted(alloc: Global) -> Ended
        ensures status { result.status ≡ 8 }
        ensures fault { result.fault ≡ None }
        ensures trails { result.trails.items ≡ [] }
    {
        Ended {
            status: 8,
            fault: None,
            trails: Vec::new(alloc),
        }
    }

    /// The end of a call whose run has these trails.
    pub fn late(trails: Vec<Trail>, fault: Option<Fault>) -> Ended
        ensures status { result.status ≡ status_of fault }
        ensures fault { result.fault ≡ fault }
        ensures trails { result.trails ≡ trails }
    {
        let status = match &fault {
            None => 0,
            Some(Fault::Usage(_)) => 1,
            Some(Fault::Scenario { .. }) => 2,
            Some(Fault::Read) => 3,
            Some(Fault::Write) => 4,
            Some(Fault::Memory) => 5,
            Some(Fault::Rack { .. }) => 6,
            Some(Fault::Journal { .. }) => 7,
        };
        Ended {
            status,
            fault,
            trails,
        }
    }
}
