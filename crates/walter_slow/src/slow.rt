//! All slow commits of a site.
ghost use Rattle.std.specs.Prelude.{◌≡◌, ◌<◌, ◌≤◌, ◌+◌, ◌↔◌, [], ℕ, nat_eq, true, false, length, slice_get, Some, None, is_some, IsTrue, IsOk, OnOk, option_map, option_and_then, if◌then◌else◌};
ghost use Rattle.std.specs.Option.{option_copied, option_map_or};
ghost use Rattle.walter_base.specs.declared.transaction.Tx.{Tx as Transaction};
ghost use Rattle.walter_base.specs.Names.{same_tid};
ghost use Rattle.walter_slow.specs.Kept.{Kept, is_being_decided, does_decide, verdict_of, heard_yes, heard_released, heard_no, ended_by, booted, waits_for, owes};
ghost use Rattle.walter_slow.specs.Tables.{commit_of, numbers_of, is_number_at, CanBegin, RiseBetween, AreBusy};

use crate::busy::settle;
use crate::slow_commit::SlowCommit;
use crate::verdict::Verdict;
use indexmap::IndexMap;
use std::alloc::Global;
use std::marker::Model;
use std::mem;
use walter_base::{Answer, Conflict, Mem, SiteId, Sites, Tid, Tx};

/// The slow commits of a site that are being decided, and those that ended without a commit, by rising number; and which
/// of them are busy. Contracts read them by `commit_of`.
#[derive(Drop)]
pub struct SlowCommits {
    alloc: Global,
    last: u64,
    commits: IndexMap<u64, SlowCommit>,
    // The numbers of those that are being decided, or owe a RELEASE, rising.
    busy: Vec<u64>,
    seats: Vec<SiteId>,
}

impl Model for SlowCommits {
    ghost use Rattle.std.specs.Prelude.{◌≡◌, ◌-◌, [], vec_capacity, vec_len};
    ghost use Rattle.indexmap.specs.IndexMap.{keys, spare};
    ghost use Rattle.walter_slow.specs.Tables.{Table, RiseBetween, AreBusy};

    ghost Value = { Table };

    ghost view = { λ s. record {
      last = s.last;
      commits = s.commits.entries;
      busy = s.busy.items;
      places = spare s.commits;
      spots = vec_capacity s.busy - vec_len s.busy;
      seats = vec_capacity s.seats;
    } };

    ghost invariant = { λ s. RiseBetween 0 s.last (keys s.commits) × (s.seats.items ≡ [])
        × RiseBetween 0 s.last s.busy.items × AreBusy s.commits.entries s.busy.items };
}

impl SlowCommits {
    /// No slow commit is kept, and no number is given away.
    pub fn new(alloc: Global) -> SlowCommits
        ensures last { result.last ≡ 0 }
        ensures none { (n : ℕ) → commit_of result n ≡ None }
        ensures busy { result.busy ≡ [] }
    {
        SlowCommits {
            alloc,
            last: 0,
            commits: IndexMap::new(alloc),
            busy: Vec::new(alloc),
            seats: Vec::new(alloc),
        }
    }

    /// The last number that a slow commit began with, 0 where none did.
    pub fn last(&self) -> u64
        ensures { result ≡ self.now.last }
    {
        self.last
    }

    // How many slow commits are kept.
    fn count(&self) -> usize
        ensures count { result ≡ length self.now.commits }
    {
        self.commits.len()
    }

    // The number of the slow commit at a place in the order of the numbers, from 0.
    fn number_at(&self, place: usize) -> Option<u64>
        ensures { result ≡ slice_get (numbers_of self.now) place }
    {
        let (slow, _) = self.commits.get_index(place)?;
        Some(*slow)
    }

    /// The numbers of the slow commits that are being decided, or owe a RELEASE, rising. A walk over them meets no other.
    pub fn busy(&self) -> &[u64]
        ensures numbers { result.now ≡ self.now.busy }
        ensures rising { RiseBetween 0 self.now.last self.now.busy }
        ensures busy { AreBusy self.now.commits self.now.busy }
    {
        &self.busy
    }

    /// Makes room for one more slow commit, that asks so many sites.
    pub fn reserve(&mut self, asked: u64) -> Mem<()>
        ensures enough { OnOk result (CanBegin self.new asked) }
        ensures had { CanBegin self.old asked → IsOk result }
        ensures last { self.new.last ≡ self.old.last }
        ensures commits { self.new.commits ≡ self.old.commits }
        ensures room { (k : ℕ) → CanBegin self.old k → CanBegin self.new k }
    {
        self.commits.reserve(1)?;
        self.busy.reserve(1)?;
        self.seats.reserve(asked as usize)?;
        Ok(())
    }

    /// The slow commit of the next number is to be decided, and no site is heard. It takes no memory.
    pub fn begin(&mut self, slow: u64, tx: Tx, asked: Sites)
        requires next { slow ≡ self.old.last + 1 }
        requires room { CanBegin self.old (length asked) }
        ensures last { self.new.last ≡ slow }
        ensures commits { (n : ℕ) → commit_of self.new n
            ≡ (if nat_eq slow n then Some (record { tx = Some tx; asked = asked; heard = []; no = None })
            else commit_of self.old n) }
    {
        let heard = mem::replace(&mut self.seats, Vec::new(self.alloc));
        self.last = slow;
        self.busy.push_reserved(slow);
        self.commits
            .insert(slow, SlowCommit::new(tx, asked, heard))
            .unwrap();
    }

    /// The transaction of a slow commit that is being decided.
    pub fn transaction(&self, slow: u64) -> Option<&Tx>
        ensures { option_copied result ≡ option_and_then (λ kept. kept.tx) (commit_of self.entry.now slow) }
    {
        self.commits.get(&slow)?.transaction()
    }

    /// The sites that a slow commit asks, or has asked.
    pub fn asked(&self, slow: u64) -> Option<&Sites>
        ensures { option_copied result ≡ option_map (λ kept. kept.asked) (commit_of self.entry.now slow) }
    {
        let standing = self.commits.get(&slow)?;
        Some(standing.asked())
    }

    /// The NO that ended a slow commit. There is none where a boot ended it.
    pub fn refusal(&self, slow: u64) -> Option<Conflict>
        ensures { result ≡ option_and_then (λ kept. kept.no) (commit_of self.now slow) }
    {
        self.commits.get(&slow)?.refusal()
    }

    /// Whether it is being decided, or ended without a commit.
    pub fn is_kept(&self, slow: u64) -> bool
        ensures { result ≡ is_some (commit_of self.now slow) }
    {
        self.commits.contains_key(&slow)
    }

    /// Whether it is being decided. A number that no slow commit has is not.
    pub fn is_undecided(&self, slow: u64) -> bool
        ensures { result ≡ is_being_decided (commit_of self.now slow) }
    {
        match self.commits.get(&slow) {
            Some(standing) => standing.is_undecided(),
            None => false,
        }
    }

    /// Whether a slow commit of the transaction is being decided.
    pub fn has_undecided(&self, tid: Tid) -> bool
        ensures { IsTrue result ↔ ((n : ℕ) × (tx : Transaction) × (kept : Kept)
            × (commit_of self.now n ≡ Some kept) × (kept.tx ≡ Some tx) × (same_tid tid tx.tid ≡ true)) }
    {
        for slow in self.busy() {
            if self.is_of(*slow, tid) {
                return true;
            }
        }
        false
    }

    // Whether the slow commit is being decided, and is that of the transaction.
    fn is_of(&self, slow: u64, tid: Tid) -> bool
        ensures { result ≡ option_map_or (does_decide tid) (commit_of self.now slow) false }
    {
        match self.commits.get(&slow) {
            Some(standing) => standing.is_of(tid),
            None => false,
        }
    }

    /// What a vote would come to. It changes nothing: `hear_yes`, `commit` and `end` do.
    pub fn verdict(&self, from: SiteId, slow: u64, answer: &Answer) -> Verdict
        ensures { result ≡ verdict_of (commit_of self.now slow) from answer.now }
    {
        match self.commits.get(&slow) {
            Some(standing) => standing.verdict(from, answer),
            None => Verdict::Unknown,
        }
    }

    /// The YES of a site is heard behind the others, where the slow commit is being decided and waits for it.
    pub fn hear_yes(&mut self, from: SiteId, slow: u64)
        ensures last { self.new.last ≡ self.old.last }
        ensures commits { (n : ℕ) → commit_of self.new n
            ≡ (if nat_eq slow n then option_map (heard_yes from) (commit_of self.old n) else commit_of self.old n) }
        ensures room { (k : ℕ) → CanBegin self.old k → CanBegin self.new k }
    {
        let Some(standing) = self.commits.get_mut(&slow) else {
            return;
        };
        standing.hear_yes(from);
    }

    /// The slow commit is committed, and kept no more.
    pub fn commit(&mut self, slow: u64)
        requires { IsTrue (is_being_decided (commit_of self.old slow)) }
        ensures last { self.new.last ≡ self.old.last }
        ensures commits { (n : ℕ) → commit_of self.new n ≡ (if nat_eq slow n then None else commit_of self.old n) }
        ensures room { (k : ℕ) → CanBegin self.old k → CanBegin self.new k }
    {
        self.commits.shift_remove(&slow);
        settle(&mut self.busy, slow, false);
    }

    /// The slow commit ends without a commit, by this NO if there is one: each site that it asked is owed a RELEASE.
    pub fn end(&mut self, slow: u64, no: Option<Conflict>)
        requires { IsTrue (is_being_decided (commit_of self.old slow)) }
        ensures last { self.new.last ≡ self.old.last }
        ensures commits { (n : ℕ) → commit_of self.new n
            ≡ (if nat_eq slow n then option_map (ended_by no) (commit_of self.old n) else commit_of self.old n) }
        ensures room { (k : ℕ) → CanBegin self.old k → CanBegin self.new k }
    {
        let Some(standing) = self.commits.get_mut(&slow) else {
            return;
        };
        standing.end(no);
        let is_busy = standing.is_busy();
        settle(&mut self.busy, slow, is_busy);
    }

    /// After a restart: each slow commit that is being decided ends without a commit.
    pub fn boot(&mut self)
        ensures last { self.new.last ≡ self.old.last }
        ensures commits { (n : ℕ) → commit_of self.new n ≡ option_map booted (commit_of self.old n) }
        ensures room { (k : ℕ) → CanBegin self.old k → CanBegin self.new k }
    {
        for place in 0..self.count() {
            self.boot_at(place);
        }
    }

    fn boot_at(&mut self, place: usize)
        ensures last { self.new.last ≡ self.old.last }
        ensures numbers { numbers_of self.new ≡ numbers_of self.old }
        ensures commits { (n : ℕ) → commit_of self.new n
            ≡ (if is_number_at self.old place n then option_map booted (commit_of self.old n)
            else commit_of self.old n) }
        ensures room { (k : ℕ) → CanBegin self.old k → CanBegin self.new k }
    {
        let Some(slow) = self.number_at(place) else {
            return;
        };
        self.boot_one(slow);
    }

    fn boot_one(&mut self, slow: u64)
        ensures last { self.new.last ≡ self.old.last }
        ensures numbers { numbers_of self.new ≡ numbers_of self.old }
        ensures commits { (n : ℕ) → commit_of self.new n
            ≡ (if nat_eq slow n then option_map booted (commit_of self.old n) else commit_of self.old n) }
        ensures room { (k : ℕ) → CanBegin self.old k → CanBegin self.new k }
    {
        let Some(standing) = self.commits.get_mut(&slow) else {
            return;
        };
        standing.boot();
        let is_busy = standing.is_busy();
        settle(&mut self.busy, slow, is_busy);
    }

    /// The NO that ended the slow commit is heard, where it ended without a commit.
    pub fn hear_no(&mut self, slow: u64, conflict: Conflict)
        ensures last { self.new.last ≡ self.old.last }
        ensures commits { (n : ℕ) → commit_of self.new n
            ≡ (if nat_eq slow n then option_map (heard_no conflict) (commit_of self.old n)
            else commit_of self.old n) }
        ensures room { (k : ℕ) → CanBegin self.old k → CanBegin self.new k }
    {
        let Some(standing) = self.commits.get_mut(&slow) else {
            return;
        };
        standing.hear_no(conflict);
    }

    /// The RELEASED of a site is heard behind the others, where the slow commit ended and owes the site a RELEASE.
    pub fn hear_released(&mut self, from: SiteId, slow: u64)
        ensures last { self.new.last ≡ self.old.last }
        ensures commits { (n : ℕ) → commit_of self.new n
            ≡ (if nat_eq slow n then option_map (heard_released from) (commit_of self.old n)
            else commit_of self.old n) }
        ensures room { (k : ℕ) → CanBegin self.old k → CanBegin self.new k }
    {
        let Some(standing) = self.commits.get_mut(&slow) else {
            return;
        };
        standing.hear_released(from);
        let is_busy = standing.is_busy();
        settle(&mut self.busy, slow, is_busy);
    }

    /// Whether the slow commit is being decided, and waits for the YES of the site.
    pub fn waits(&self, slow: u64, site: SiteId) -> bool
        ensures { result ≡ waits_for (commit_of self.now slow) site }
    {
        match self.commits.get(&slow) {
            Some(standing) => standing.is_undecided() && standing.misses(site),
            None => false,
        }
    }

    /// The transaction of a slow commit that is being decided, and waits for the YES of the site.
    pub fn waiting(&self, slow: u64, site: SiteId) -> Option<&Tx>
        ensures { option_copied result ≡ (if waits_for (commit_of self.entry.now slow) site
            then option_and_then (λ kept. kept.tx) (commit_of self.entry.now slow) else None) }
    {
        let standing = self.commits.get(&slow)?;
        if standing.misses(site) {
            standing.transaction()
        } else {
            None
        }
    }

    /// Whether the site is owed the RELEASE of the slow commit.
    pub fn owes(&self, slow: u64, site: SiteId) -> bool
        ensures { result ≡ owes (commit_of self.now slow) site }
    {
        match self.commits.get(&slow) {
            Some(standing) => !standing.is_undecided() && standing.misses(site),
            None => false,
        }
    }
}
