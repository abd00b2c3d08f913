//! What the disks that a run gives back have of its trails.
use crate::playing::Run;
use anyhow::{Result, bail};
use std::alloc::Global;
use walter_base::{Format, MOST_SITES, MaybeRecord, Mem, Record};
use walter_checkpoint::load;
use walter_disk_memory::MemoryDisk;
use walter_record::decode;
use walter_rules::{Came, Outcome};
use walter_scenario::{Scenario, read};
use walter_trail::Trail;

/// How many records were in flight when runs ended, and how many of these stand in the journals.
#[derive(Clone, Copy, Debug)]
pub(crate) struct Flights {
    pub count: usize,
    pub found: usize,
}

impl Flights {
    pub(crate) fn none() -> Flights {
        Flights { count: 0, found: 0 }
    }

    fn add(&mut self, is_found: bool) {
        self.count = self.count.saturating_add(1);
        if is_found {
            self.found = self.found.saturating_add(1);
        }
    }

    /// Counts the records that are in flight at the end of a run, whose disks have just the records of its trails, with
    /// those in flight or without them.
    pub(crate) fn count(&mut self, alloc: Global, text: &str, run: Run) -> Result<()> {
        let Ok(scenario) = read(alloc, text.as_bytes().to_vec(alloc)?) else {
            bail!("no scenario");
        };
        let Run { trails, disks, .. } = run;
        if trails.len() != disks.len() {
            bail!("not all disks are given back");
        }
        for (trail, disk) in trails.as_slice().iter().zip(disks) {
            self.compare(alloc, trail, &held_by(alloc, disk, &scenario)?)?;
        }
        Ok(())
    }

    fn compare(&mut self, alloc: Global, trail: &Trail, held: &str) -> Result<()> {
        let Told { records, flight } = told_by(alloc, trail)?;
        let Some(behind) = held.strip_prefix(records.as_str()) else {
            bail!("a journal lacks a record of its trail");
        };
        if !behind.is_empty() && behind != flight.as_str() {
            bail!("a journal has more than its trail tells");
        }
        if !flight.is_empty() {
            self.add(!behind.is_empty());
        }
        Ok(())
    }
}

// What a trail tells of its journal, a line for each record: those that are stable or were found, and apart from them
// the one in flight, if there is one.
#[derive(Drop)]
struct Told {
    records: String,
    flight: String,
}

impl Told {
    fn add(&mut self, alloc: Global, rec: &MaybeRecord) -> Mem<()> {
        if let Some(rec) = rec.as_ref() {
            self.records.push_str(&line_of(alloc, rec)?)?;
            self.flight = String::new(alloc);
        }
        Ok(())
    }

    // A record that is stable, or one that finds no place, comes where it is known what became of one in flight.
    fn hear(&mut self, alloc: Global, came: &Came) -> Mem<()> {
        self.add(alloc, &came.kept)?;
        self.add(alloc, &came.wrote)?;
        if let Outcome::Full { .. } = came.outcome {
            self.flight = String::new(alloc);
        }
        if let Some(rec) = came.flight.as_ref() {
            self.flight = line_of(alloc, rec)?;
        }
        Ok(())
    }
}

fn told_by(alloc: Global, trail: &Trail) -> Mem<Told> {
    let mut told = Told {
        records: String::new(alloc),
        flight: String::new(alloc),
    };
    for entry in trail.as_slice() {
        told.hear(alloc, &entry.came)?;
    }
    Ok(told)
}

fn line_of(alloc: Global, rec: &Record) -> Mem<String> {
    Ok(format!(in alloc; "{rec:?}\n")?)
}

// The records of a disk's journal, a line for each. A disk that is broken settles first, as its arm chooses.
fn held_by(alloc: Global, disk: MemoryDisk, scenario: &Scenario) -> Result<String> {
    let sites = scenario.catalog.sites;
    if usize::from(sites) > MOST_SITES {
        bail!("there are more than sixteen sites");
    }
    // How many areas there are, and in which format the first record is, is told by the bytes.
    let Ok((book, bodies)) = load(alloc, disk, scenario.capacity, 1, sites, Format::Second) else {
        bail!("a disk that is given back has no journal");
    };
    let mut format = book.format();
    let mut held = String::new(alloc);
    for body in &bodies.into_vec() {
        let Some(rec) = record_in(alloc, body, sites, format)? else {
            bail!("a body spells no record");
        };
        if let Record::Format = rec {
            format = Format::Second;
        }
        held.push_str(&line_of(alloc, &rec)?)?;
    }
    Ok(held)
}

// The record that a body spells in a format; none where that has no places for so many sites.
fn record_in(alloc: Global, body: &[u8], sites: u8, format: Format) -> Mem<Option<Record>> {
    match format {
        Format::First if sites > 8 => Ok(None),
        Format::First => decode(alloc, body, sites, Format::First),
        Format::Second if usize::from(sites) > MOST_SITES => Ok(None),
        Format::Second => decode(alloc, body, sites, Format::Second),
    }
}
