//! Which calls of a disk fail: those that an arm says, and all until it has settled.
ghost use Rattle.std.specs.Prelude.{◌≡◌, ◌<◌, is_err, OnOk, OnErr};
ghost use Rattle.walter_disk_memory.specs.Stops.{unarmed, fails, passed, failed, armed, choice_made, mended, FailOnlyIfArmed};

use std::alloc::Global;
use std::marker::Model;
use walter_disk::{Failed, Mem};
use walter_faults::GhostCount;

/// An arm, as it was laid.
#[derive(Drop)]
pub(crate) struct Laid {
    at: GhostCount,
    nth: u64,
    choice: u64,
}

impl Model for Laid {
    ghost use Rattle.walter_disk.specs.Disks.{Arming};

    ghost Value = { Arming };

    ghost view = { λ a. record { at = a.at.count; nth = a.nth; choice = a.choice } };
}

/// Which calls fail.
#[derive(Drop)]
pub(crate) struct Stops {
    arms: Vec<Laid>,
    due: Option<(u64, u64)>,
    came: Option<u64>,
    made: GhostCount,
    faults: GhostCount,
}

impl Model for Stops {
    ghost use Rattle.std.specs.Prelude.{◌≡◌, ◌<◌, [], None};
    ghost use Rattle.std.specs.Option.{ForSome};
    ghost use Rattle.walter_disk_memory.specs.Stops.{Stops};

    ghost Value = { Stops };

    ghost view = { λ s. record {
      arms = s.arms.items;
      due = s.due;
      came = s.came;
      made = s.made.count;
      faults = s.faults.count;
    } };

    ghost invariant = { λ s.
        ForSome s.due (λ arm. 0 < arm.0)
        × (s.arms.items ≡ [] → (s.due ≡ None) × (s.came ≡ None) × (s.faults.count ≡ 0)) };
}

impl Stops {
    pub(crate) fn new(alloc: Global) -> Stops
        ensures { result ≡ unarmed }
    {
        Stops {
            arms: Vec::new(alloc),
            due: None,
            came: None,
            made: GhostCount::zero(),
            faults: GhostCount::zero(),
        }
    }

    /// Counts a call, which fails where the disk is broken or an arm comes.
    pub(crate) fn call(&mut self) -> Result<(), Failed>
        ensures fails { is_err result ≡ fails self.old }
        ensures ok { OnOk result (self.new ≡ passed self.old) }
        ensures err { OnErr result (self.new ≡ failed self.old) }
    {
        self.made = self.made.next();
        if self.came.is_some() {
            self.faults = self.faults.next();
            return Err(Failed);
        }
        match self.due {
            Some((1, choice)) => {
                self.due = None;
                self.came = Some(choice);
                self.faults = self.faults.next();
                Err(Failed)
            }
            Some((left, choice)) => {
                self.due = Some((left - 1, choice));
                Ok(())
            }
            None => Ok(()),
        }
    }

    /// Without an arm no call has failed. It does nothing.
    pub(crate) fn fail_only_if_armed(&self)
        ensures { FailOnlyIfArmed self.now }
    {
        let _arms = &self.arms;
    }

    pub(crate) fn arm(&mut self, nth: u64, choice: u64) -> Mem<()>
        requires { 0 < nth }
        ensures ok { OnOk result (self.new ≡ armed nth choice self.old) }
        ensures err { OnErr result (self.new ≡ self.old) }
    {
        let at = self.made.same();
        self.arms.push(Laid { at, nth, choice })?;
        self.due = Some((nth, choice));
        Ok(())
    }

    /// Ends the stop, and answers its choice.
    pub(crate) fn mend(&mut self) -> u64
        ensures choice { result ≡ choice_made self.old }
        ensures mended { self.new ≡ mended self.old }
    {
        self.came.take().unwrap_or(0)
    }
}
