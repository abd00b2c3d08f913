//! What is left of a cell beside its disk and its trail.
ghost use Rattle.std.specs.Prelude.{◌≡◌};

use crate::line::Line;
use std::marker::Model;
use walter_lane::Inbound;
use walter_machine::Machine;
use walter_stream::{Sink, Source};

/// What is left of a cell beside its disk and its trail: the connections of its clients, by their numbers, and what its
/// site knew and had received. That is much, and in many pieces: who is about to end the process may forget it.
/// Contracts see the connections.
#[derive(Drop)]
pub struct Remains<S: Source + Drop, K: Sink + Drop> {
    lines: Vec<Option<Line<S, K>>>,
    machine: Machine,
    ins: Vec<Inbound>,
}

impl<S: Source + Drop, K: Sink + Drop> Model for Remains<S, K> {
    ghost use Rattle.std.specs.Prelude.{List, Option};
    ghost use Rattle.walter_cell.specs.Lines.{LineValue};

    ghost Value = { List (Option LineValue) };

    ghost view = { λ r. r.lines.items };
}

impl<S: Source + Drop, K: Sink + Drop> Remains<S, K> {
    pub(crate) fn new(
        lines: Vec<Option<Line<S, K>>>,
        machine: Machine,
        ins: Vec<Inbound>,
    ) -> Remains<S, K>
        ensures { result ≡ lines.items }
    {
        Remains {
            lines,
            machine,
            ins,
        }
    }

    /// The connections. The rest is let go.
    pub fn into_lines(self) -> Vec<Option<Line<S, K>>>
        ensures { result.items ≡ self }
    {
        let Remains { lines, .. } = self;
        lines
    }
}
