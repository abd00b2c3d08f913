//! Whether each commit starts where its site once stood.
ghost use Rattle.std.specs.Prelude.{◌≡◌, ◌+◌, ◌<◌, ◌≤◌, ◌^◌, ◌↔◌, ℕ, List, IsTrue, IfSome, IfNone, IfOk, Some, false, length, slice_get, if◌then◌else◌};
ghost use Rattle.std.specs.Option.{option_map_or};
ghost use Rattle.walter_audit.specs.Firsts.{IsFirstPlace, IsSoAt, IsFirst};
ghost use Rattle.walter_audit.specs.Journals.{commits_of, journals_of, AreAmong};
ghost use Rattle.walter_audit.specs.Starts.{AreFronts, AreRising, HasMatch, IsUnmatched, IsUnstartedIn};
ghost use Rattle.walter_audit.specs.Reasons.{IsUnstarted};
ghost use Rattle.walter_audit.specs.declared.finding.Named.{Named as Name};
ghost use Rattle.walter_base.specs.declared.names.SiteId.{SiteId as Site};
ghost use Rattle.walter_base.specs.Names.{same_site};
ghost use Rattle.walter_base.specs.Vectors.{most_sites, entry_at, Covers};

use crate::finding::Named;
use crate::question::{Question, first_in};
use crate::told::Told;
use std::alloc::Global;
use walter_base::{Catalog, Mem, Record, SiteId, Vts};

/// The site of which a record of this one commits one more here.
fn site_counted(site: SiteId, journaled: &Record) -> Option<SiteId>
    ensures { (k : Site) → commits_of site k journaled.now ≡ option_map_or (λ j. same_site j k) result false }
{
    match journaled {
        Record::Own(_, _) => Some(site),
        Record::Seen(from, _) => Some(*from),
        _ => None,
    }
}

/// The counts behind one more record of the site.
fn counts_behind(counts: &Vts, site: SiteId, journaled: &Record) -> Vts
    requires { (k : Site) → entry_at counts.now k + 1 < 2 ^ 64 }
    ensures size { length result ≡ length counts.now }
    ensures each { (k : Site) → k.0 < length counts.now
        → entry_at result k ≡ entry_at counts.now k + (if commits_of site k journaled.now then 1 else 0) }
{
    let mut behind = *counts;
    let Some(counted) = site_counted(site, journaled) else {
        return behind;
    };
    if usize::from(counted.0) < behind.as_slice().len() {
        let next = behind.get(counted) + 1;
        behind.raise(counted, next);
    }
    behind
}

/// The counts of the site's records before each place, and of all.
pub(crate) fn fronts_of(alloc: Global, sites: u8, site: SiteId, records: &[Record]) -> Mem<Vec<Vts>>
    requires { sites ≤ most_sites }
    ensures { IfOk result (λ fronts. AreFronts sites site records.now fronts.items) }
{
    let mut counts = Vts::zero(sites);
    let mut fronts = Vec::new(alloc);
    fronts.push(counts)?;
    for journaled in records {
        counts = counts_behind(&counts, site, journaled);
        fronts.push(counts)?;
    }
    Ok(fronts)
}

/// The place of the first of the counts that covers the start; how many there are where none does.
pub(crate) fn first_covering(fronts: &[Vts], start: &Vts) -> usize
    requires { AreRising fronts.now }
    ensures within { result ≤ length fronts.now }
    ensures before { (k : ℕ) (v : List ℕ) → k < result → slice_get fronts.now k ≡ Some v → ¬ Covers v start.now }
    ensures at { (v : List ℕ) → slice_get fronts.now result ≡ Some v → Covers v start.now }
{
    let mut low = 0;
    let mut high = fronts.len();
    while low < high {
        let middle = low + (high - low) / 2;
        if fronts[middle].covers(start.as_slice()) {
            high = middle;
        } else {
            low = middle + 1;
        }
    }
    low
}

/// Whether the start is the counts at this place, or at one before it.
fn is_started(fronts: &[Vts], place: u64, start: &Vts) -> bool
    requires { AreRising fronts.now }
    ensures { IsTrue result ↔ HasMatch fronts.now place start.now }
{
    let first = first_covering(fronts, start);
    match fronts.get(first) {
        Some(front) => first as u64 <= place && start.covers(front.as_slice()),
        None => false,
    }
}

/// Whether an own commit starts where its site, with these counts, never stood.
#[derive(Drop)]
struct Unstarted<'a> {
    fronts: &'a [Vts],
    ghost rising: { AreRising fronts.now },
}

impl<'a> Question for Unstarted<'a> {
    ghost holds = { λ q at journaled. IsUnmatched q.fronts.now at journaled };

    fn asks(&self, at: Named, journaled: &Record) -> bool {
        match journaled {
            Record::Own(_, tx) => !is_started(self.fronts, at.index, &tx.start.vector()),
            _ => false,
        }
    }
}

/// The place of a site's first own commit that starts where the site never stood before.
fn unstarted_in(
    alloc: Global,
    catalog: &Catalog,
    site: SiteId,
    records: &[Record],
) -> Mem<Option<u64>>
    requires most { catalog.now.sites ≤ most_sites }
    requires among { AreAmong catalog.now.sites records.now }
    ensures first { IfOk result (λ found.
        IfSome found (IsFirstPlace (IsUnstartedIn catalog.now records.now) site records.now)) }
    ensures none { IfOk result (λ found.
        IfNone found ((index : ℕ) → ¬ IsSoAt (IsUnstartedIn catalog.now records.now) site records.now index)) }
{
    let fronts = fronts_of(alloc, catalog.sites, site, records)?;
    Ok(first_in(&Unstarted { fronts: &fronts }, site, records))
}

/// The first own commit whose start is the counts of no front of the records before it.
pub fn first_unstarted(alloc: Global, catalog: &Catalog, journals: &[Told]) -> Mem<Option<Named>>
    requires few { length journals.now ≤ most_sites }
    requires most { catalog.now.sites ≤ most_sites }
    requires among { (k : Site) → AreAmong catalog.now.sites (journals_of journals.now k) }
    ensures first { IfOk result (λ found. IfSome found (IsFirst (IsUnstarted catalog.now (journals_of journals.now)))) }
    ensures none { IfOk result (λ found.
        IfNone found ((a : Name) → ¬ IsUnstarted catalog.now (journals_of journals.now) a)) }
{
    for (number, told) in journals.iter().enumerate() {
        let site = SiteId(number as u8);
        if let Some(index) = unstarted_in(alloc, catalog, site, told.records())? {
            return Ok(Some(Named { site, index }));
        }
    }
    Ok(None)
}
