//! The report of trails that came back.
ghost use Rattle.std.specs.Prelude.{◌≡◌, true, All};
ghost use Rattle.walter_reply.specs.Replies.{FitsFrame};
ghost use Rattle.walter_report.specs.Reports.{HaveFrames, reply_in};

use anyhow::{Result, bail};
use std::alloc::Global;
use walter_base::{MOST_SITES, Reply};
use walter_reply::which_fit;
use walter_report::write_report;
use walter_rules::{Entry, Outcome};
use walter_scenario::read;
use walter_stream::MemorySink;
use walter_trail::Trail;

// Whether a reply has a frame.
fn fits(reply: &Reply) -> bool
    ensures { result ≡ true → FitsFrame reply.now }
{
    which_fit();
    match reply {
        Reply::Value(Some(bytes)) => bytes.as_slice().len() <= 65_530,
        Reply::Set(counts) => counts.as_slice().len() <= 4095,
        _ => true,
    }
}

fn has_frame(entry: &Entry) -> bool
    ensures { result ≡ true → All FitsFrame (reply_in entry.now.came.outcome) }
{
    match &entry.came.outcome {
        Outcome::Replied(reply) => fits(reply),
        _ => true,
    }
}

fn have_frames(trails: &[Trail]) -> bool
    ensures { result ≡ true → HaveFrames trails.now }
{
    trails.iter().all(|trail| trail.as_slice().iter().all(|entry| has_frame(entry)))
}

/// What is written is the report of the trails of this scenario.
pub(crate) fn check_report(
    alloc: Global,
    scenario: &str,
    trails: &[Trail],
    written: &[u8],
) -> Result<()> {
    let Ok(scenario) = read(alloc, scenario.as_bytes().to_vec(alloc)?) else {
        bail!("no scenario");
    };
    if !have_frames(trails) {
        bail!("a reply has no frame");
    }
    if trails.len() > MOST_SITES {
        bail!("there are more than sixteen sites");
    }
    let mut sink = MemorySink::with_room(alloc, written.len(), Vec::new(alloc))?;
    write_report(alloc, &scenario, false, &[], trails, &mut sink)?;
    if sink.as_slice() != written {
        bail!("what is written isn't the report of the trails");
    }
    Ok(())
}
