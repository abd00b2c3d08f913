//! Bytes on their way to a sink.
ghost use Rattle.std.specs.Prelude.{◌≡◌, ◌≤◌, [], length, IfOk, OnOk};
ghost use Rattle.walter_page.specs.Pages.{Puts};

use std::alloc::Global;
use std::marker::Model;
use walter_base::Mem;
use walter_stream::{Failed, Sink, write_all};

// How many bytes may wait.
const ROOM: usize = 65_536;

/// Bytes on their way to a sink. They wait until the next ones find no place, and are then written at once: so a text is
/// written in few calls, and none but `new` takes memory. Contracts see the bytes that wait.
#[derive(Drop)]
pub struct Page {
    waiting: Vec<u8>,
}

impl Model for Page {
    ghost use Rattle.std.specs.Prelude.{◌≤◌, ℕ, List, vec_len, vec_capacity};

    ghost Value = { List ℕ };

    ghost view = { λ p. p.waiting.items };

    ghost invariant = { λ p. (vec_len p.waiting ≤ 65536) × (65536 ≤ vec_capacity p.waiting) };
}

impl Page {
    /// A page where no bytes wait.
    pub fn new(alloc: Global) -> Mem<Page>
        ensures { IfOk result (λ page. page ≡ []) }
    {
        Ok(Page {
            waiting: Vec::with_capacity(alloc, ROOM)?,
        })
    }

    /// Puts bytes behind those that wait.
    pub fn put<K: Sink>(&mut self, sink: &mut K, bytes: &[u8]) -> Result<(), Failed>
        ensures { Puts K.holds K.faults sink.old sink.new self.old self.new bytes.now result }
    {
        let mut left = bytes;
        while left.len() > ROOM {
            let (front, rest) = left.split_at(ROOM);
            self.put_short(sink, front)?;
            left = rest;
        }
        self.put_short(sink, left)
    }

    fn put_short<K: Sink>(&mut self, sink: &mut K, bytes: &[u8]) -> Result<(), Failed>
        requires { length bytes.now ≤ 65536 }
        ensures { Puts K.holds K.faults sink.old sink.new self.old self.new bytes.now result }
    {
        if bytes.len() > ROOM - self.waiting.len() {
            self.flush(sink)?;
        }
        self.waiting.extend_from_slice(bytes).unwrap();
        Ok(())
    }

    /// Writes the bytes that wait.
    pub fn flush<K: Sink>(&mut self, sink: &mut K) -> Result<(), Failed>
        ensures put { Puts K.holds K.faults sink.old sink.new self.old self.new [] result }
        ensures none { OnOk result (self.new ≡ []) }
    {
        write_all(sink, self.waiting.as_slice())?;
        self.waiting.clear();
        Ok(())
    }
}
