//! Bytes as hex digits.
ghost use Rattle.std.specs.Prelude.{◌≤◌, length};
ghost use Rattle.hex.specs.Hex.{encode_lower};
ghost use Rattle.walter_page.specs.Pages.{Puts};

use crate::page::Page;
use hex::encode_to_slice;
use walter_stream::{Failed, Sink};

// How many bytes become digits at once.
const PIECE: usize = 512;

/// Puts two digits for each byte behind what waits.
pub fn put_hex<K: Sink>(page: &mut Page, sink: &mut K, bytes: &[u8]) -> Result<(), Failed>
    ensures { Puts K.holds K.faults sink.old sink.new page.old page.new (encode_lower bytes.now) result }
{
    let mut left = bytes;
    while left.len() > PIECE {
        let (front, rest) = left.split_at(PIECE);
        put_short_hex(page, sink, front)?;
        left = rest;
    }
    put_short_hex(page, sink, left)
}

fn put_short_hex<K: Sink>(page: &mut Page, sink: &mut K, bytes: &[u8]) -> Result<(), Failed>
    requires { length bytes.now ≤ 512 }
    ensures { Puts K.holds K.faults sink.old sink.new page.old page.new (encode_lower bytes.now) result }
{
    let mut digits = [0; 2 * PIECE];
    let digits = &mut digits[..2 * bytes.len()];
    encode_to_slice(bytes, digits).unwrap();
    page.put(sink, digits)
}
