//! What waits at a site that is pumped, and how many ticks are left to it.
ghost use Rattle.std.specs.Prelude.{◌≡◌, ◌≢◌, ◌<◌, ◌≤◌, ◌+◌, ◌-◌, ◌*◌, ◌↔◌, length, drop, slice_get, IfOk, IfSome, IsTrue, OnErr, OnOk};
ghost use Rattle.std.specs.VecDeque.{deque_len, deque_capacity};
ghost use Rattle.walter_link.specs.Pumps.{HasTaken, new_pump, put_all, put_in, sender_behind, take_up_to};

use crate::chooser::{Choice, Chooser, Link, Rates};
use std::alloc::Global;
use std::collections::VecDeque;
use std::marker::Model;
use walter_base::{Mem, SiteId};

/// A packet that waits at a site: who put it out, and its number, from 1, among those that arrived from there.
#[derive(Clone, Copy, Debug, PartialEq, Eq)]
pub struct Waiting {
    pub from: SiteId,
    pub number: u32,
}

/// What was taken of the packets of one sender: how many, and what chooses of the next.
#[derive(Drop)]
pub struct Sender {
    pub(crate) chooser: Chooser,
    pub(crate) taken: u32,
}

/// What a site does that is pumped: the packets that wait there, as the scripted link let them come, and how many ticks
/// are left.
#[derive(Drop)]
pub struct Pump {
    site: SiteId,
    rates: Rates,
    // By the numbers of the sites.
    senders: Vec<Sender>,
    waiting: VecDeque<Waiting>,
    ticks: u32,
}

impl Model for Pump {
    ghost use Rattle.walter_link.specs.Pumps.{PumpValue, IsPump};

    ghost Value = { PumpValue };

    ghost view = { λ p. record {
      site = p.site;
      rates = p.rates;
      senders = p.senders.items;
      waiting = p.waiting.items;
      ticks = p.ticks;
    } };

    ghost invariant = { λ p. IsPump (record {
      site = p.site;
      rates = p.rates;
      senders = p.senders.items;
      waiting = p.waiting.items;
      ticks = p.ticks;
    }) };
}

impl Pump {
    /// That of a site among so many, to which nothing has come.
    pub fn new(alloc: Global, link: Link, site: SiteId, sites: u8, ticks: u32) -> Mem<Pump>
        ensures { IfOk result (λ pump. pump ≡ new_pump link site sites ticks) }
    {
        let mut senders = Vec::with_capacity(alloc, usize::from(sites))?;
        for from in 0..sites {
            senders.push_reserved(Sender {
                chooser: Chooser::new(link.seed, site, SiteId(from)),
                taken: 0,
            });
        }
        Ok(Pump {
            site,
            rates: link.rates,
            senders,
            waiting: VecDeque::new(alloc),
            ticks,
        })
    }

    pub fn site(&self) -> SiteId
        ensures { result ≡ self.now.site }
    {
        self.site
    }

    /// Takes the packets from a site that have arrived and weren't taken before, as the link chooses of each. So many have
    /// arrived in all.
    pub fn take(&mut self, from: SiteId, arrived: u32) -> Mem<()>
        requires from { from.0 < length self.old.senders }
        requires apart { from ≢ self.old.site }
        ensures taken { OnOk result (self.new ≡ take_up_to from arrived self.old) }
        ensures same { OnErr result (self.new ≡ self.old) }
    {
        let sender = &mut self.senders[usize::from(from.0)];
        let count = arrived.saturating_sub(sender.taken);
        self.waiting.reserve(2 * count as usize)?;
        take_all(sender, &mut self.waiting, self.rates, from, arrived);
        Ok(())
    }

    /// The packet that waits in front.
    pub fn first(&self) -> Option<Waiting>
        ensures first { result ≡ slice_get self.now.waiting 0 }
        ensures taken { IfSome result (HasTaken self.now) }
    {
        self.waiting.front().copied()
    }

    /// The packet in front is delivered, and leaves.
    pub fn leave(&mut self)
        ensures { self.new ≡ record self.old { waiting = drop 1 self.old.waiting } }
    {
        let _first = self.waiting.pop_front();
    }

    /// Whether ticks are left.
    pub fn can_tick(&self) -> bool
        ensures { IsTrue result ↔ (0 < self.now.ticks) }
    {
        self.ticks > 0
    }

    /// A tick is made.
    pub fn tick(&mut self)
        requires { 0 < self.old.ticks }
        ensures { self.new ≡ record self.old { ticks = self.old.ticks - 1 } }
    {
        self.ticks -= 1;
    }
}

// Takes the packets of a sender up to this number, one after another.
fn take_all(
    sender: &mut Sender,
    waiting: &mut VecDeque<Waiting>,
    rates: Rates,
    from: SiteId,
    last: u32,
)
    requires room { deque_len waiting.old + 2 * (last - sender.old.taken) ≤ deque_capacity waiting.old }
    ensures sender { sender.new ≡ sender_behind (last - sender.old.taken) sender.old }
    ensures waiting { waiting.new.items
        ≡ put_all (last - sender.old.taken) rates from sender.old waiting.old.items }
{
    for number in sender.taken..last {
        let choice = sender.chooser.choose(rates);
        sender.taken = number + 1;
        put_in(
            waiting,
            Waiting {
                from,
                number: number + 1,
            },
            choice,
        );
    }
}

// Puts a packet in where the link chooses.
fn put_in(waiting: &mut VecDeque<Waiting>, packet: Waiting, choice: Choice)
    requires few { choice.copies ≤ 2 }
    requires room { deque_len waiting.old + 2 ≤ deque_capacity waiting.old }
    ensures items { waiting.new.items ≡ put_in choice packet waiting.old.items }
    ensures len { deque_len waiting.new ≤ deque_len waiting.old + 2 }
    ensures room { deque_capacity waiting.new ≡ deque_capacity waiting.old }
{
    if choice.copies == 0 {
        return;
    }
    if choice.front {
        waiting.push_front_reserved(packet);
    } else {
        waiting.push_back_reserved(packet);
    }
    if choice.copies == 2 {
        waiting.push_back_reserved(packet);
    }
}
