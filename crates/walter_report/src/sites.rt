//! The lines of the sites.
ghost use Rattle.std.specs.Prelude.{length};
ghost use Rattle.walter_report.specs.Overviews.{Tells, TellEach};
ghost use Rattle.walter_page.specs.Pages.{Puts};
ghost use Rattle.walter_report.specs.Sites.{records, is_up, events_part, commits_part, site_line, site_lines};
ghost use Rattle.walter_rules.specs.Knowledge.{site_at};

use crate::logs::put_log;
use crate::overview::Overview;
use walter_page::{Page, Part, put_counts, put_parts};
use walter_rules::Entry;
use walter_stream::{Failed, Sink};
use walter_trail::Trail;

// Puts the lines of the sites, of each of which this is told.
pub(crate) fn put_site_lines<K: Sink>(
    page: &mut Page,
    sink: &mut K,
    sites: u8,
    trails: &[Trail],
    overviews: &[Overview],
) -> Result<(), Failed>
    requires { TellEach overviews.now sites trails.now }
    ensures { Puts K.holds K.faults sink.old sink.new page.old page.new (site_lines sites 0 trails.now) result }
{
    for (site, trail) in trails.iter().enumerate() {
        put_site_line(page, sink, site, trail.as_slice(), &overviews[site])?;
    }
    Ok(())
}

fn put_site_line<K: Sink>(
    page: &mut Page,
    sink: &mut K,
    site: usize,
    trail: &[Entry],
    overview: &Overview,
) -> Result<(), Failed>
    requires { Tells overview.now (length overview.now.got.items) (site_at site) (is_up trail.now) (records trail.now) }
    ensures { Puts K.holds K.faults sink.old sink.new page.old page.new
        (site_line (length overview.now.got.items) site trail.now) result }
{
    put_events(page, sink, site, trail, overview)?;
    put_commits(page, sink, site, trail, overview)
}

pub(crate) fn put_events<K: Sink>(
    page: &mut Page,
    sink: &mut K,
    site: usize,
    trail: &[Entry],
    overview: &Overview,
) -> Result<(), Failed>
    requires { Tells overview.now (length overview.now.got.items) (site_at site) (is_up trail.now) (records trail.now) }
    ensures { Puts K.holds K.faults sink.old sink.new page.old page.new (events_part site trail.now) result }
{
    put_parts(
        page,
        sink,
        &[
            Part::Word("site "),
            Part::Number(site as u128),
            Part::Word(" "),
            Part::Word(if overview.up { "up" } else { "down" }),
            Part::Word(" epoch "),
            Part::Number(overview.epoch as u128),
            Part::Word(" events "),
            Part::Number(trail.len() as u128),
            Part::Word(" records "),
            Part::Number(overview.records as u128),
        ],
    )
}

fn put_commits<K: Sink>(
    page: &mut Page,
    sink: &mut K,
    site: usize,
    trail: &[Entry],
    overview: &Overview,
) -> Result<(), Failed>
    requires { Tells overview.now (length overview.now.got.items) (site_at site) (is_up trail.now) (records trail.now) }
    ensures { Puts K.holds K.faults sink.old sink.new page.old page.new
        (commits_part (length overview.now.got.items) (site_at site) (records trail.now)) result }
{
    put_counts(page, sink, " got ", overview.got.as_slice())?;
    put_counts(page, sink, " committed ", overview.seen.as_slice())?;
    put_log(page, sink, site, trail, overview.commits)?;
    page.put(sink, b"\n")
}
