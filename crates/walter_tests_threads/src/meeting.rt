//! Two who wait for each other: only two threads at once come past that.
use std::sync::atomic::{AtomicBool, Ordering};
use std::thread::yield_now;
use walter_stream::{BytesSource, Failed, Source};
use walter_workers::Gate;

/// How many turns one waits for the other at most.
const MOST_TURNS: u32 = 200_000_000;

/// Where number 0 and number 1 meet.
#[derive(Drop)]
pub(crate) struct Meeting {
    first: AtomicBool,
    second: AtomicBool,
    missed: AtomicBool,
}

impl Meeting {
    /// Nobody is there yet.
    pub(crate) fn new() -> Meeting {
        Meeting {
            first: AtomicBool::new(false),
            second: AtomicBool::new(false),
            missed: AtomicBool::new(false),
        }
    }

    /// Both are there already.
    pub(crate) fn over() -> Meeting {
        Meeting {
            first: AtomicBool::new(true),
            second: AtomicBool::new(true),
            missed: AtomicBool::new(false),
        }
    }

    /// Comes as this number, and waits for the other.
    fn come(&self, number: u32) {
        match number {
            0 => self.wait(&self.first, &self.second),
            1 => self.wait(&self.second, &self.first),
            _ => {}
        }
    }

    // Raises the one flag, and waits for the other, unless this was in vain before.
    fn wait(&self, mine: &AtomicBool, other: &AtomicBool) {
        mine.store(true, Ordering::SeqCst);
        if !self.missed.load(Ordering::SeqCst) && !rises(other) {
            self.missed.store(true, Ordering::SeqCst);
        }
    }

    /// Whether both have come, and none waited in vain.
    pub(crate) fn is_held(&self) -> bool {
        self.first.load(Ordering::SeqCst)
            && self.second.load(Ordering::SeqCst)
            && !self.missed.load(Ordering::SeqCst)
    }
}

fn rises(flag: &AtomicBool) -> bool {
    for _ in 0..MOST_TURNS {
        if flag.load(Ordering::SeqCst) {
            return true;
        }
        yield_now();
    }
    false
}

impl Gate for Meeting {
    fn before(&self, client: u32, call: u64) {
        if call == 0 {
            self.come(client);
        }
    }
}

/// The bytes of the client of this number, who comes to a meeting at each read.
#[derive(Drop)]
pub(crate) struct MeetingSource<'a> {
    pub(crate) source: BytesSource,
    pub(crate) number: u32,
    pub(crate) meeting: &'a Meeting,
}

impl Source for MeetingSource<'_> {
    ghost use Rattle.std.specs.Prelude.{Some};

    ghost faults = { λ _. 0 };

    ghost left = { λ s. Some s.source };

    fn read(&mut self, into: &mut [u8]) -> Result<usize, Failed> {
        self.meeting.come(self.number);
        self.source.read(into)
    }
}
