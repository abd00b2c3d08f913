//! What the line of one site tells, from its trail.
ghost use Rattle.std.specs.Prelude.{◌≡◌, ◌≤◌, ◌<◌, ◌+◌, ◌^◌, ◌∷◌, ◌++◌, ℕ, Bool, List, [], Some, false, length, All, IfOk};
ghost use Rattle.walter_base.specs.declared.message.Record.{Record as Stable};
ghost use Rattle.walter_base.specs.declared.names.SiteId.{SiteId as Site};
ghost use Rattle.walter_report.specs.Sites.{record_in, records, is_up, is_got, is_seen, counts, logged};
ghost use Rattle.walter_report.specs.Adding.{one_more};
ghost use Rattle.walter_rules.specs.Knowledge.{site_at};
ghost use Rattle.walter_rules.specs.Learning.{epoch_after};
ghost use Rattle.walter_rules.specs.Standing.{up_after};

use std::alloc::Global;
use walter_base::{MaybeRecord, Mem, Record, Reply};
use walter_rules::{Entry, Event, Outcome};

// What the line of a site tells. For each site of the catalog, `got` has how many of that site's commits this one has,
// and `seen` how many of them are committed here; its own count in both. The log has so many commits.
#[derive(Drop)]
pub(crate) struct Overview {
    pub up: bool,
    pub epoch: u32,
    pub records: usize,
    pub got: Vec<usize>,
    pub seen: Vec<usize>,
    pub commits: usize,
    ghost got_few: { All (λ n. n ≤ records) got.items },
    ghost seen_few: { All (λ n. n ≤ records) seen.items },
    ghost commits_few: { commits ≤ records },
}

impl Overview {
    ghost use Rattle.walter_report.specs.Overviews.{Tells};

    /// What a trail tells, from one look at each entry.
    pub fn from_trail(alloc: Global, sites: u8, site: usize, trail: &[Entry]) -> Mem<Overview>
        ensures { IfOk result (λ overview. Tells overview sites (site_at site) (is_up trail.now) (records trail.now)) }
    {
        let mut overview = Overview::nothing(alloc, sites)?;
        for entry in trail {
            overview.add_entry(site, entry);
        }
        Ok(overview)
    }

    fn nothing(alloc: Global, sites: u8) -> Mem<Overview>
        ensures { IfOk result (λ overview. (i : Site) → Tells overview sites i false []) }
    {
        let sites = usize::from(sites);
        Ok(Overview {
            up: false,
            epoch: 0,
            records: 0,
            got: vec![in alloc; 0; sites]?,
            seen: vec![in alloc; 0; sites]?,
            commits: 0,
        })
    }

    fn add_entry(&mut self, site: usize, entry: &Entry)
        requires { self.old.records + 2 < 2 ^ 64 }
        ensures { (sites : ℕ) (up : Bool) (recs : List Stable) → Tells self.old sites (site_at site) up recs
            → Tells self.new sites (site_at site) (up_after entry.now.event entry.now.came.outcome up)
            (recs ++ (record_in entry.now.came.kept ++ record_in entry.now.came.wrote)) }
    {
        self.up = up_behind(&entry.event, &entry.came.outcome, self.up);
        self.add_stable(site, &entry.came.kept);
        self.add_stable(site, &entry.came.wrote);
    }

    fn add_stable(&mut self, site: usize, stable: &MaybeRecord)
        requires { self.old.records + 1 < 2 ^ 64 }
        ensures tells { (sites : ℕ) (up : Bool) (recs : List Stable) → Tells self.old sites (site_at site) up recs
            → Tells self.new sites (site_at site) up (recs ++ record_in stable.now) }
        ensures counted { self.new.records ≤ self.old.records + 1 }
    {
        if let Some(record) = stable.as_ref() {
            self.add_record(site, record);
        }
    }

    fn add_record(&mut self, site: usize, stable: &Record)
        requires { self.old.records + 1 < 2 ^ 64 }
        ensures tells { (sites : ℕ) (up : Bool) (recs : List Stable) → Tells self.old sites (site_at site) up recs
            → Tells self.new sites (site_at site) up (recs ++ stable.now ∷ []) }
        ensures counted { self.new.records ≤ self.old.records + 1 }
    {
        count_got(&mut self.got, site, stable);
        count_seen(&mut self.seen, site, stable);
        self.records += 1;
        self.commits += commits_in(stable);
        self.epoch = epoch_behind(stable, self.epoch);
    }
}

// Whether the site is up behind the event.
fn up_behind(event: &Event, outcome: &Outcome, up: bool) -> bool
    ensures { result ≡ up_after event.now outcome.now up }
{
    match outcome {
        Outcome::Failed | Outcome::Replied(Reply::Unsure(_)) => false,
        Outcome::Taken => match event {
            Event::Stop => false,
            Event::Restart => true,
            Event::Given(_) => up,
        },
        _ => up,
    }
}

fn epoch_behind(stable: &Record, epoch: u32) -> u32
    ensures { result ≡ epoch_after (Some stable.now) epoch }
{
    match stable {
        Record::Boot(next) => *next,
        _ => epoch,
    }
}

// How many commits the record tells to be committed at the site: one or none.
fn commits_in(stable: &Record) -> usize
    ensures commits { (i : Site) → result ≡ length (logged i stable.now) }
    ensures few { result ≤ 1 }
{
    match stable {
        Record::Own(_, _) | Record::Seen(_, _) => 1,
        _ => 0,
    }
}

// Counts the commit that the record tells the site to have, if there is one.
fn count_got(got: &mut [usize], site: usize, stable: &Record)
    requires { All (λ n. n + 1 < 2 ^ 64) got.old }
    ensures counts { (sites : ℕ) (recs : List Stable) → got.old ≡ counts sites (is_got (site_at site)) recs
        → got.new ≡ counts sites (is_got (site_at site)) (recs ++ stable.now ∷ []) }
    ensures most { (most : ℕ) → All (λ n. n ≤ most) got.old → All (λ n. n ≤ most + 1) got.new }
{
    match stable {
        Record::Own(_, _) => count_one(got, site),
        Record::Got(from, _, _) => count_one(got, usize::from(from.0)),
        _ => {}
    }
}

// Counts the commit that the record tells to be committed at the site, if there is one.
fn count_seen(seen: &mut [usize], site: usize, stable: &Record)
    requires { All (λ n. n + 1 < 2 ^ 64) seen.old }
    ensures counts { (sites : ℕ) (recs : List Stable) → seen.old ≡ counts sites (is_seen (site_at site)) recs
        → seen.new ≡ counts sites (is_seen (site_at site)) (recs ++ stable.now ∷ []) }
    ensures most { (most : ℕ) → All (λ n. n ≤ most) seen.old → All (λ n. n ≤ most + 1) seen.new }
{
    match stable {
        Record::Own(_, _) => count_one(seen, site),
        Record::Seen(from, _) => count_one(seen, usize::from(from.0)),
        _ => {}
    }
}

// A site that isn't among them has no count.
fn count_one(counts: &mut [usize], site: usize)
    requires { All (λ n. n + 1 < 2 ^ 64) counts.old }
    ensures { counts.new ≡ one_more site counts.old }
{
    if site < counts.len() {
        counts[site] += 1;
    }
}
