//! The summary of a load.
ghost use Rattle.std.specs.Prelude.{◌≡◌, length, OnOk, IfErr};
ghost use Rattle.walter_report.specs.Overviews.{Tells, TellEach};
ghost use Rattle.walter_page.specs.Pages.{Puts};
ghost use Rattle.walter_report.specs.Sites.{is_up, records};
ghost use Rattle.walter_report.specs.Summaries.{all_replies, load_line, columns_part, replies_line, count_line, count_lines, summary_text};
ghost use Rattle.walter_page.specs.Unwritten.{IsUnwritten};
ghost use Rattle.walter_rules.specs.Knowledge.{site_at};
ghost use Rattle.walter_stream.specs.Streams.{Appends};

use crate::columns::{COLUMNS, count_replies};
use crate::overview::Overview;
use crate::sites::put_events;
use crate::told::overviews_of;
use std::alloc::Global;
use walter_page::{Page, Part, WriteFault, put_parts};
use walter_rules::Entry;
use walter_stream::{Failed, Sink};
use walter_trail::Trail;

/// Writes the summary of a load: the number that it was made of, how many calls it has, and by its trails, one for each
/// site, the replies and the sites. All memory is taken before the first byte is written.
pub fn write_summary<K: Sink>(
    alloc: Global,
    number: u64,
    calls: u32,
    trails: &[Trail],
    sink: &mut K,
) -> Result<(), WriteFault>
    ensures ok { OnOk result
        (Appends (K.holds sink.old) (K.holds sink.new) (summary_text number calls trails.now)) }
    ensures faultless { OnOk result (K.faults sink.new ≡ K.faults sink.old) }
    ensures fault { IfErr result (IsUnwritten (summary_text number calls trails.now)
        (K.holds sink.old) (K.holds sink.new) (K.faults sink.old) (K.faults sink.new)) }
{
    // No commits are counted by site: what is told is that of a catalog without sites.
    let overviews = overviews_of(alloc, 0, trails)?;
    let mut page = Page::new(alloc)?;
    put_load_line(&mut page, sink, number, calls)?;
    put_replies_line(&mut page, sink, trails)?;
    put_count_lines(&mut page, sink, trails, &overviews)?;
    page.flush(sink)?;
    Ok(())
}

fn put_load_line<K: Sink>(
    page: &mut Page,
    sink: &mut K,
    number: u64,
    calls: u32,
) -> Result<(), Failed>
    ensures { Puts K.holds K.faults sink.old sink.new page.old page.new (load_line number calls) result }
{
    put_parts(
        page,
        sink,
        &[
            Part::Word("load seed "),
            Part::Number(number as u128),
            Part::Word(" calls "),
            Part::Number(calls as u128),
            Part::Word("\n"),
        ],
    )
}

fn put_replies_line<K: Sink>(page: &mut Page, sink: &mut K, trails: &[Trail]) -> Result<(), Failed>
    ensures { Puts K.holds K.faults sink.old sink.new page.old page.new
        (replies_line (all_replies trails.now)) result }
{
    let counts = count_replies(trails);
    page.put(sink, b"replies")?;
    put_columns(page, sink, &counts)?;
    page.put(sink, b"\n")
}

fn put_columns<K: Sink>(
    page: &mut Page,
    sink: &mut K,
    counts: &[u128; COLUMNS],
) -> Result<(), Failed>
    ensures { Puts K.holds K.faults sink.old sink.new page.old page.new (columns_part counts.now) result }
{
    put_parts(
        page,
        sink,
        &[
            Part::Word(" started "),
            Part::Number(counts[0]),
            Part::Word(" ended "),
            Part::Number(counts[1]),
            Part::Word(" done "),
            Part::Number(counts[2]),
            Part::Word(" read "),
            Part::Number(counts[3]),
            Part::Word(" committed "),
            Part::Number(counts[4]),
            Part::Word(" aborted "),
            Part::Number(counts[5]),
            Part::Word(" deciding "),
            Part::Number(counts[6]),
            Part::Word(" level "),
            Part::Number(counts[7]),
            Part::Word(" unsure "),
            Part::Number(counts[8]),
            Part::Word(" refused "),
            Part::Number(counts[9]),
        ],
    )
}

fn put_count_lines<K: Sink>(
    page: &mut Page,
    sink: &mut K,
    trails: &[Trail],
    overviews: &[Overview],
) -> Result<(), Failed>
    requires { TellEach overviews.now 0 trails.now }
    ensures { Puts K.holds K.faults sink.old sink.new page.old page.new (count_lines 0 trails.now) result }
{
    for (site, trail) in trails.iter().enumerate() {
        put_count_line(page, sink, site, trail.as_slice(), &overviews[site])?;
    }
    Ok(())
}

fn put_count_line<K: Sink>(
    page: &mut Page,
    sink: &mut K,
    site: usize,
    trail: &[Entry],
    overview: &Overview,
) -> Result<(), Failed>
    requires { Tells overview.now (length overview.now.got.items) (site_at site) (is_up trail.now) (records trail.now) }
    ensures { Puts K.holds K.faults sink.old sink.new page.old page.new (count_line site trail.now) result }
{
    put_events(page, sink, site, trail, overview)?;
    put_parts(
        page,
        sink,
        &[
            Part::Word(" log "),
            Part::Number(overview.commits as u128),
            Part::Word("\n"),
        ],
    )
}
