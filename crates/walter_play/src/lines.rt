//! The connections of a scenario's clients.
ghost use Rattle.std.specs.Prelude.{◌≡◌, [], length, IfOk};
ghost use Rattle.walter_cell.specs.Lines.{IsLine};
ghost use Rattle.walter_cluster.specs.Builds.{AreUnread};

use std::alloc::Global;
use walter_base::{Mem, NoMemory, SharedBytes};
use walter_conn::Conn;
use walter_scenario::Client;
use walter_stream::{BytesSource, NullSink};

/// The connection of a client of a scenario, whose bytes are those of the scenario. The frames of its replies are kept
/// nowhere, since the trail has the replies.
pub type Line = walter_cell::Line<BytesSource, NullSink>;

/// The connections of the clients, in order.
pub fn open_lines(alloc: Global, clients: &[Client]) -> Mem<Vec<Line>>
    ensures long { IfOk result (λ lines. length lines.items ≡ length clients.now) }
    ensures unread { IfOk result (λ lines. AreUnread clients.now lines.items) }
{
    let mut lines = Vec::new(alloc);
    for client in clients {
        lines.push(open_line(alloc, &client.bytes)?)?;
    }
    Ok(lines)
}

// A connection with a client that sends these bytes.
fn open_line(alloc: Global, bytes: &SharedBytes) -> Mem<Line>
    ensures { IfOk result (λ line. IsLine bytes.now [] line) }
{
    match Conn::new(alloc, BytesSource::from(bytes.share()?), NullSink) {
        Ok(conn) => Ok(Line::new(conn)),
        Err(_) => Err(NoMemory),
    }
}
