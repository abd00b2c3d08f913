//! The report of a run.
ghost use Rattle.std.specs.Prelude.{◌≡◌, ◌≤◌, true, length, flat_map, All, OnOk, IfOk, IfErr};
ghost use Rattle.walter_base.specs.Sizes.{most_in};
ghost use Rattle.walter_base.specs.Vectors.{most_sites};
ghost use Rattle.walter_report.specs.Answered.{HaveEach};
ghost use Rattle.walter_report.specs.Overviews.{TellEach};
ghost use Rattle.walter_page.specs.Pages.{Puts};
ghost use Rattle.walter_page.specs.Unwritten.{IsUnwritten};
ghost use Rattle.walter_report.specs.Reports.{HaveFrames, first_line, replies_to, report_text};
ghost use Rattle.walter_report.specs.Texts.{shown_of, text_of};
ghost use Rattle.walter_report.specs.Traces.{HaveSpellings};
ghost use Rattle.walter_stream.specs.Streams.{Appends};

use crate::clients::put_client_lines;
use crate::frame::Frame;
use crate::overview::Overview;
use crate::replies::{Replies, replies_of};
use crate::sites::put_site_lines;
use crate::told::overviews_of;
use crate::traces::put_lines;
use std::alloc::Global;
use walter_base::{Format, Mem};
use walter_page::{Page, Part, WriteFault, put_parts};
use walter_scenario::Scenario;
use walter_stream::{Failed, Sink};
use walter_trail::{Trail, merge};

/// Writes the report of a run, by its trails, one for each site, and where it is to be traced the trace behind it, which
/// has a line for each entry. The headers are the formats that the sites' journals began with, one for each site. All
/// memory is taken before the first byte is written, and the text is never held.
pub fn write_report<K: Sink>(
    alloc: Global,
    scenario: &Scenario,
    traced: bool,
    headers: &[Format],
    trails: &[Trail],
    sink: &mut K,
) -> Result<(), WriteFault>
    requires few { length trails.now ≤ most_sites }
    requires headers { traced ≡ true → (length headers.now ≡ length trails.now)
        × All (λ (f : Format). length trails.now ≤ most_in f) headers.now }
    requires frames { HaveFrames trails.now }
    requires records { traced ≡ true → HaveSpellings (length trails.now) trails.now }
    ensures ok { OnOk result
        (Appends (K.holds sink.old) (K.holds sink.new) (text_of traced scenario.now headers.now trails.now)) }
    ensures faultless { OnOk result (K.faults sink.new ≡ K.faults sink.old) }
    ensures fault { IfErr result (IsUnwritten (text_of traced scenario.now headers.now trails.now)
        (K.holds sink.old) (K.holds sink.new) (K.faults sink.old) (K.faults sink.new)) }
{
    let clients = scenario.clients.as_slice().len();
    let answered = replies_of(alloc, clients, trails)?;
    let overviews = overviews_of(alloc, scenario.catalog.sites, trails)?;
    let merged = merge(alloc, shown(traced, trails))?;
    let mut formats = shown_headers(alloc, traced, headers)?;
    let mut frame = Frame::new(alloc)?;
    let mut page = Page::new(alloc)?;
    put_report(
        &mut page, sink, &mut frame, scenario, trails, &answered, &overviews,
    )?;
    put_lines(&mut page, sink, &mut frame, &mut formats, merged.as_slice())?;
    page.flush(sink)?;
    Ok(())
}

// The trails whose entries are to be told one by one: all, or none.
fn shown(traced: bool, trails: &[Trail]) -> &[Trail]
    ensures { result.now ≡ shown_of traced trails.now }
{
    if traced { trails } else { &[] }
}

// A copy of the headers of the sites whose entries are to be told one by one.
fn shown_headers(alloc: Global, traced: bool, headers: &[Format]) -> Mem<Vec<Format>>
    ensures { IfOk result (λ formats. formats.items ≡ shown_of traced headers.now) }
{
    if traced {
        Ok(headers.to_vec(alloc)?)
    } else {
        Ok(Vec::new(alloc))
    }
}

fn put_report<K: Sink>(
    page: &mut Page,
    sink: &mut K,
    frame: &mut Frame,
    scenario: &Scenario,
    trails: &[Trail],
    answered: &[Replies],
    overviews: &[Overview],
) -> Result<(), Failed>
    requires frames { HaveFrames trails.now }
    requires clients { length answered.now ≡ length scenario.now.clients }
    requires replies { HaveEach answered.now (λ c. flat_map (replies_to c) trails.now) }
    requires told { TellEach overviews.now scenario.now.catalog.sites trails.now }
    ensures { Puts K.holds K.faults sink.old sink.new page.old page.new
        (report_text scenario.now trails.now) result }
{
    put_first_line(page, sink, scenario)?;
    put_client_lines(page, sink, frame, scenario.clients.as_slice(), answered)?;
    put_site_lines(page, sink, scenario.catalog.sites, trails, overviews)
}

fn put_first_line<K: Sink>(page: &mut Page, sink: &mut K, scenario: &Scenario) -> Result<(), Failed>
    ensures { Puts K.holds K.faults sink.old sink.new page.old page.new (first_line scenario.now) result }
{
    put_parts(
        page,
        sink,
        &[
            Part::Word("sites "),
            Part::Number(scenario.catalog.sites as u128),
            Part::Word(" f "),
            Part::Number(scenario.catalog.tolerated as u128),
            Part::Word(" clients "),
            Part::Number(scenario.clients.as_slice().len() as u128),
            Part::Word("\n"),
        ],
    )
}
