//! The parts that a line is made of.
ghost use Rattle.walter_page.specs.Pages.{Puts};
ghost use Rattle.walter_page.specs.Parts.{part_text, parts_text};

use crate::hexing::put_hex;
use crate::page::Page;
use itoa::Buffer;
use walter_stream::{Failed, Sink};

/// A part of a line.
#[derive(Clone, Copy)]
pub enum Part<'a> {
    /// A text, as it stands.
    Word(&'a str),
    /// A number, by its decimal digits.
    Number(u128),
    /// Bytes, by two digits each.
    Hex(&'a [u8]),
}

/// Puts the parts behind what waits, one after another.
pub fn put_parts<K: Sink>(page: &mut Page, sink: &mut K, parts: &[Part]) -> Result<(), Failed>
    ensures { Puts K.holds K.faults sink.old sink.new page.old page.new (parts_text parts.now) result }
{
    for part in parts {
        put_part(page, sink, *part)?;
    }
    Ok(())
}

fn put_part<K: Sink>(page: &mut Page, sink: &mut K, part: Part) -> Result<(), Failed>
    ensures { Puts K.holds K.faults sink.old sink.new page.old page.new (part_text part.entry) result }
{
    match part {
        Part::Word(word) => page.put(sink, word.as_bytes()),
        Part::Number(number) => page.put(sink, Buffer::new().format(number).as_bytes()),
        Part::Hex(bytes) => put_hex(page, sink, bytes),
    }
}
