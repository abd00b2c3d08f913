//! The lines of the clients, with the replies to each.
ghost use Rattle.std.specs.Prelude.{◌≤◌, length, flat_map, All};
ghost use Rattle.hex.specs.Hex.{encode_lower};
ghost use Rattle.walter_reply.specs.Replies.{FitsFrame};
ghost use Rattle.walter_report.specs.Answered.{answered_lines};
ghost use Rattle.walter_page.specs.Pages.{Puts};
ghost use Rattle.walter_report.specs.Reports.{reply_frame, client_line};
ghost use Rattle.walter_page.specs.Words.{or_dash};

use crate::frame::Frame;
use crate::replies::Replies;
use walter_base::Reply;
use walter_page::{Page, Part, put_hex, put_parts};
use walter_scenario::Client;
use walter_stream::{Failed, Sink};

// Puts the lines of the clients, each of whom got these replies.
pub(crate) fn put_client_lines<K: Sink>(
    page: &mut Page,
    sink: &mut K,
    frame: &mut Frame,
    clients: &[Client],
    answered: &[Replies],
) -> Result<(), Failed>
    requires clients { length clients.now ≤ length answered.now }
    requires frames { All (λ replies. All FitsFrame replies) answered.now }
    ensures { Puts K.holds K.faults sink.old sink.new page.old page.new
        (answered_lines 0 clients.now answered.now) result }
{
    for (number, client) in clients.iter().enumerate() {
        put_client_line(page, sink, frame, number, client.site.0, &answered[number])?;
    }
    Ok(())
}

fn put_client_line<K: Sink>(
    page: &mut Page,
    sink: &mut K,
    frame: &mut Frame,
    number: usize,
    site: u8,
    replies: &Replies,
) -> Result<(), Failed>
    requires { All FitsFrame replies.now }
    ensures { Puts K.holds K.faults sink.old sink.new page.old page.new
        (client_line number site replies.now) result }
{
    let replies = replies.as_slice();
    put_parts(
        page,
        sink,
        &[
            Part::Word("client "),
            Part::Number(number as u128),
            Part::Word(" site "),
            Part::Number(site as u128),
            Part::Word(" replies "),
            Part::Number(replies.len() as u128),
            Part::Word(" "),
        ],
    )?;
    put_frames(page, sink, frame, replies)?;
    page.put(sink, b"\n")
}

// Puts the frames of the replies in hex, or a dash.
fn put_frames<K: Sink>(
    page: &mut Page,
    sink: &mut K,
    frame: &mut Frame,
    replies: &[&Reply],
) -> Result<(), Failed>
    requires { All (λ place. FitsFrame place.now) replies.now }
    ensures { Puts K.holds K.faults sink.old sink.new page.old page.new
        (or_dash (encode_lower (flat_map (λ place. reply_frame place.now) replies.now))) result }
{
    if replies.is_empty() {
        return page.put(sink, b"-");
    }
    for reply in replies {
        frame.write_reply(reply);
        put_hex(page, sink, frame.as_slice())?;
    }
    Ok(())
}
