//! A scenario, and the limits of what it may name.
use crate::lists::{Arms, Clients, Steps};
use walter_base::{Catalog, Format, SharedBytes, SiteId};
use walter_link::Link;

/// The most bytes that a scenario may have.
pub const LONGEST_TEXT: usize = 16_777_216;

/// The most clients that a site may have.
pub const MOST_CLIENTS: usize = 1024;

/// The least capacity of a journal, in bytes: there is place for the first epoch.
pub const LEAST_CAPACITY: u64 = 19;

/// The greatest capacity of a journal, in bytes.
pub const GREATEST_CAPACITY: u64 = 1_099_511_627_776;

/// The capacity of each journal in bytes, where a scenario names none.
pub const COMMON_CAPACITY: u64 = 16_777_216;

/// How many areas each journal has, where a scenario names no number.
pub const COMMON_AREAS: u8 = 1;

/// The least capacity of a journal of two areas, in bytes: each of them has place for the first epoch.
pub const LEAST_CAPACITY_OF_TWO: u64 = 47;

/// The most sites of which a journal of the first format may be.
pub const MOST_OF_FIRST: u8 = 8;

/// The most entries for which a trail may have its memory from the start.
pub const MOST_ROOM: u32 = 100_000;

/// For how many entries each trail has its memory from the start, where a scenario names no number.
pub const COMMON_ROOM: u32 = 0;

/// The greatest rate of a link, of 1,000 packets.
pub const GREATEST_RATE: u16 = 1000;

/// The most ticks that a site may make when it is pumped.
pub const MOST_TICKS: u32 = 10_000;

/// How many ticks a site may make when it is pumped, where a scenario names no number.
pub const COMMON_TICKS: u32 = 100;

/// The fewest client threads that a threaded run may have.
pub const LEAST_THREADS: u8 = 1;

/// The most client threads that a threaded run may have.
pub const MOST_THREADS: u8 = 32;

/// How many client threads a threaded run has, where a scenario names no number.
pub const COMMON_THREADS: u8 = 8;

/// The last call on a disk that may be armed, counted from 1.
pub const LAST_ARMED: u64 = 1_000_000;

/// A client: its site, and all bytes that it sends.
#[derive(Debug, Drop)]
pub struct Client {
    pub site: SiteId,
    pub bytes: SharedBytes,
}

/// A fault of a site's disk that is to come: at its `nth` call, counted from 1 from when it is armed. The choice says
/// what is left there of the bytes that weren't synced.
#[derive(Clone, Copy, Debug, PartialEq, Eq)]
pub struct Arm {
    pub site: SiteId,
    pub nth: u64,
    pub choice: u64,
}

/// One step of the script.
#[derive(Clone, Copy, Debug, PartialEq, Eq)]
pub enum Step {
    /// The client of this number has its turn.
    Call(u32),
    /// The site `to` is handed the packet of this number, counted from 1, among those that `from` put out to it.
    Deliver {
        to: SiteId,
        from: SiteId,
        number: u32,
    },
    /// The site `at` is to commit the next transaction of `from`.
    Advance {
        at: SiteId,
        from: SiteId,
    },
    /// The site is to say again what its peers may have missed.
    Tick(SiteId),
    /// The site is to journal in the second format from now on.
    Upgrade(SiteId),
    /// The site loses its memory.
    Stop(SiteId),
    /// The site is to come up.
    Restart(SiteId),
    /// The site does the first that can be done: it comes up, is handed the packet in front of its queue, commits the
    /// next transaction of a peer, or ticks.
    Pump(SiteId),
    /// The site's disk is armed.
    Arm(Arm),
}

/// What is to be played: the sites and their containers, the clients by their numbers from 0, the capacity of each
/// site's journal in bytes, how many areas it has, for how many entries each trail has its memory from the start, the
/// format of a journal that is made, the link between the sites, how many ticks each site may make when it is pumped,
/// how many client threads a threaded run has, what is armed before the first step, and the script.
#[derive(Debug, Drop)]
pub struct Scenario {
    pub catalog: Catalog,
    pub clients: Clients,
    pub capacity: u64,
    pub areas: u8,
    pub room: u32,
    pub format: Format,
    pub link: Link,
    pub ticks: u32,
    pub threads: u8,
    pub arms: Arms,
    pub steps: Steps,
}
