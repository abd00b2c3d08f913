//! The text of what an audit finds.
ghost use Rattle.std.specs.Prelude.{◌≡◌, OnOk, IfErr};
ghost use Rattle.walter_inspect.specs.Findings.{finding_text, item_line, no_text, order_text, reason_word};
ghost use Rattle.walter_page.specs.Pages.{Puts};
ghost use Rattle.walter_page.specs.Unwritten.{IsUnwritten};
ghost use Rattle.walter_stream.specs.Streams.{Appends};

use std::alloc::Global;
use walter_audit::{Finding, Item, Named, Reason};
use walter_base::SiteId;
use walter_page::{Page, Part, WriteFault, put_parts};
use walter_stream::{Failed, Sink};

/// Writes what an audit of the journals of so many sites finds. All memory is taken before the first byte is written.
pub fn write_finding<K: Sink>(
    alloc: Global,
    sites: u8,
    finding: &Finding,
    sink: &mut K,
) -> Result<(), WriteFault>
    ensures ok { OnOk result (Appends (K.holds sink.old) (K.holds sink.new) (finding_text sites finding.now)) }
    ensures fault { IfErr result (IsUnwritten (finding_text sites finding.now)
        (K.holds sink.old) (K.holds sink.new) (K.faults sink.old) (K.faults sink.new)) }
{
    let mut page = Page::new(alloc)?;
    put_finding(&mut page, sink, sites, finding)?;
    page.flush(sink)?;
    Ok(())
}

fn put_finding<K: Sink>(
    page: &mut Page,
    sink: &mut K,
    sites: u8,
    finding: &Finding,
) -> Result<(), Failed>
    ensures { Puts K.holds K.faults sink.old sink.new page.old page.new (finding_text sites finding.now) result }
{
    match finding {
        Finding::Yes(order) => put_order(page, sink, sites, order),
        Finding::No { reason, a, b } => put_no(page, sink, *reason, *a, *b),
    }
}

fn put_order<K: Sink>(
    page: &mut Page,
    sink: &mut K,
    sites: u8,
    order: &[(SiteId, Item)],
) -> Result<(), Failed>
    ensures { Puts K.holds K.faults sink.old sink.new page.old page.new (order_text sites order.now) result }
{
    put_parts(
        page,
        sink,
        &[
            Part::Word("audit yes sites "),
            Part::Number(sites as u128),
            Part::Word(" lines "),
            Part::Number(order.len() as u128),
            Part::Word("\n"),
        ],
    )?;
    for taken in order {
        put_item(page, sink, taken)?;
    }
    Ok(())
}

fn put_item<K: Sink>(page: &mut Page, sink: &mut K, taken: &(SiteId, Item)) -> Result<(), Failed>
    ensures { Puts K.holds K.faults sink.old sink.new page.old page.new (item_line taken.now) result }
{
    let site = taken.0.0;
    match &taken.1 {
        Item::Starts(_, tx) => put_parts(
            page,
            sink,
            &[
                Part::Word("start "),
                Part::Number(tx.tid.site.0 as u128),
                Part::Word("."),
                Part::Number(tx.tid.epoch as u128),
                Part::Word("."),
                Part::Number(tx.tid.number as u128),
                Part::Word("\n"),
            ],
        ),
        Item::Commits(_, seq, tx) => put_parts(
            page,
            sink,
            &[
                Part::Word("commit "),
                Part::Number(site as u128),
                Part::Word(":"),
                Part::Number(*seq as u128),
                Part::Word(" "),
                Part::Number(tx.tid.site.0 as u128),
                Part::Word("."),
                Part::Number(tx.tid.epoch as u128),
                Part::Word("."),
                Part::Number(tx.tid.number as u128),
                Part::Word("\n"),
            ],
        ),
        Item::Arrives(_, from, seq) => put_parts(
            page,
            sink,
            &[
                Part::Word("arrive "),
                Part::Number(site as u128),
                Part::Word(" "),
                Part::Number(from.0 as u128),
                Part::Word(":"),
                Part::Number(*seq as u128),
                Part::Word("\n"),
            ],
        ),
    }
}

fn put_no<K: Sink>(
    page: &mut Page,
    sink: &mut K,
    reason: Reason,
    a: Named,
    b: Named,
) -> Result<(), Failed>
    ensures { Puts K.holds K.faults sink.old sink.new page.old page.new (no_text reason a b) result }
{
    put_parts(
        page,
        sink,
        &[
            Part::Word("audit no "),
            Part::Word(word_of(reason)),
            Part::Word(" "),
            Part::Number(a.site.0 as u128),
            Part::Word("."),
            Part::Number(a.index as u128),
            Part::Word(" "),
            Part::Number(b.site.0 as u128),
            Part::Word("."),
            Part::Number(b.index as u128),
            Part::Word("\n"),
        ],
    )
}

fn word_of(reason: Reason) -> &'static str
    ensures { result.now ≡ reason_word reason }
{
    match reason {
        Reason::Unreadable => "unreadable",
        Reason::Missing => "missing",
        Reason::Differs => "differs",
        Reason::Twice => "twice",
        Reason::Start => "start",
        Reason::Conflict => "conflict",
        Reason::Cycle => "cycle",
    }
}
