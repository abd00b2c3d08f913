//! One slow commit: whom it asks, who was heard, and how it ended.
ghost use Rattle.std.specs.Prelude.{◌≡◌, ◌≤◌, ◌∷◌, [], Some, None, length, is_some, vec_capacity};
ghost use Rattle.std.specs.Option.{option_copied};
ghost use Rattle.walter_slow.specs.Kept.{is_busy, does_decide, verdict_of, heard_yes, heard_released, heard_no, ended_by, booted};
ghost use Rattle.walter_slow.specs.Sites.{is_missing, with_heard};

use crate::sites::{are_heard, are_heard_with, is_among};
use crate::verdict::Verdict;
use std::marker::Model;
use walter_base::{Answer, Conflict, SiteId, Sites, Tid, Tx};

/// A slow commit. It has a transaction as long as it is being decided. There is room to hear each site that it asks.
#[derive(Debug, Drop)]
pub struct SlowCommit {
    tx: Option<Tx>,
    asked: Sites,
    heard: Vec<SiteId>,
    no: Option<Conflict>,
}

impl Model for SlowCommit {
    ghost use Rattle.std.specs.Prelude.{vec_capacity};
    ghost use Rattle.walter_slow.specs.Sites.{HasRoom};
    ghost use Rattle.walter_slow.specs.Kept.{Kept};

    ghost Value = { Kept };

    ghost view = { λ s. record { tx = s.tx; asked = s.asked; heard = s.heard.items; no = s.no } };

    ghost invariant = { λ s. HasRoom s.asked s.heard.items (vec_capacity s.heard) };
}

impl SlowCommit {
    /// No site is heard.
    pub fn new(tx: Tx, asked: Sites, heard: Vec<SiteId>) -> SlowCommit
        requires empty { heard.items ≡ [] }
        requires room { length asked ≤ vec_capacity heard }
        ensures { result ≡ record { tx = Some tx; asked = asked; heard = []; no = None } }
    {
        SlowCommit {
            tx: Some(tx),
            asked,
            heard,
            no: None,
        }
    }

    /// Whether it is being decided: as long as it is, it has a transaction.
    pub fn is_undecided(&self) -> bool
        ensures { result ≡ is_some self.now.tx }
    {
        self.tx.is_some()
    }

    /// Whether it is being decided, or the RELEASED of a site is missing.
    pub fn is_busy(&self) -> bool
        ensures { result ≡ is_busy (Some self.now) }
    {
        self.is_undecided() || !are_heard(self.asked.as_slice(), &self.heard)
    }

    /// Its transaction, while it is being decided.
    pub fn transaction(&self) -> Option<&Tx>
        ensures { option_copied result ≡ self.entry.now.tx }
    {
        self.tx.as_ref()
    }

    pub fn asked(&self) -> &Sites
        ensures { result.now ≡ self.now.asked }
    {
        &self.asked
    }

    /// The NO that ended it. There is none where a boot ended it.
    pub fn refusal(&self) -> Option<Conflict>
        ensures { result ≡ self.now.no }
    {
        self.no
    }

    /// Whether it is being decided, and is that of the transaction.
    pub fn is_of(&self, tid: Tid) -> bool
        ensures { result ≡ does_decide tid self.now }
    {
        match &self.tx {
            Some(tx) => tid == tx.tid,
            None => false,
        }
    }

    /// Whether the site is asked, and isn't heard.
    pub fn misses(&self, site: SiteId) -> bool
        ensures { result ≡ is_missing site self.now.asked self.now.heard }
    {
        is_among(site, self.asked.as_slice()) && !is_among(site, &self.heard)
    }

    /// What a vote comes to. A LATER, or a NO that says that the slow commit is over, leaves it undecided.
    pub fn verdict(&self, from: SiteId, answer: &Answer) -> Verdict
        ensures { result ≡ verdict_of (Some self.now) from answer.now }
    {
        let asked = self.asked.as_slice();
        if !self.is_undecided() || !is_among(from, asked) {
            return Verdict::Unknown;
        }
        match answer {
            Answer::Yes if are_heard_with(from, asked, &self.heard) => Verdict::Commit,
            Answer::Yes | Answer::No(Conflict::Dead) | Answer::Later => Verdict::Waiting,
            Answer::No(conflict) => Verdict::Abort(*conflict),
        }
    }

    /// The YES of a site that is asked is heard, while the slow commit is being decided.
    pub fn hear_yes(&mut self, from: SiteId)
        ensures { self.new ≡ heard_yes from self.old }
    {
        if self.is_undecided() {
            self.hear(from);
        }
    }

    /// The NO that ended it is heard, once it ended without a commit.
    pub fn hear_no(&mut self, conflict: Conflict)
        ensures { self.new ≡ heard_no conflict self.old }
    {
        if !self.is_undecided() {
            self.no = Some(conflict);
        }
    }

    /// The RELEASED of a site that was asked is heard, once the slow commit ended without a commit.
    pub fn hear_released(&mut self, from: SiteId)
        ensures { self.new ≡ heard_released from self.old }
    {
        if !self.is_undecided() {
            self.hear(from);
        }
    }

    fn hear(&mut self, from: SiteId)
        ensures { self.new ≡ record self.old { heard = with_heard from self.old.asked self.old.heard } }
    {
        if self.misses(from) {
            self.heard.push_reserved(from);
        }
    }

    /// It is decided no more, and no site is heard.
    pub fn end(&mut self, no: Option<Conflict>)
        ensures { self.new ≡ ended_by no self.old }
    {
        self.tx = None;
        self.heard.clear();
        self.no = no;
    }

    /// It ends where it is being decided, by no site's NO.
    pub fn boot(&mut self)
        ensures { self.new ≡ booted self.old }
    {
        if self.is_undecided() {
            self.end(None);
        }
    }
}
