//! The frames that come from a source, one at a time in one buffer.
ghost use Rattle.std.specs.Prelude.{◌≡◌, ◌+◌, ◌-◌, ◌<◌, ◌≤◌, [], ◌++◌, take, replicate, vec_len, vec_capacity};
ghost use Rattle.std.specs.Prelude.{true, false, Ok, OnOk, OnErr};
ghost use Rattle.walter_fields.specs.Spellings.{number_spelled};
ghost use Rattle.walter_stream.specs.Streams.{AtEnd};
ghost use Rattle.walter_conn.specs.Frames.{EndsInFrame, IsTooLong};

use walter_fields::Cursor;
use walter_stream::{Failed, Source};

/// How many bytes the body of a frame may have.
pub(crate) const LONGEST: usize = 65536;

/// What the source gave.
#[derive(Clone, Copy, Debug)]
pub(crate) enum Arrival {
    /// A frame, which is held whole.
    Frame,
    /// A length that no frame has.
    TooLong,
    /// No byte.
    Ended,
    /// The front of a frame.
    Cut,
}

/// A source, and the bytes of the next frame that were taken from it.
#[derive(Drop)]
pub(crate) struct FrameInput<S: Source + Drop> {
    pub source: S,
    // It has room for the longest frame. Its bytes are made as far as the longest frame so far, so that a client of
    // short frames touches little of it: behind those that are held an earlier frame's may stand.
    pub buffer: Vec<u8>,
    // How many bytes of the buffer are held.
    pub held: usize,
}

// Makes the bytes up to this count that aren't there, which takes no memory. What is there stays, so that no byte is
// cleared twice.
fn make_up_to(buffer: &mut Vec<u8>, count: usize)
    requires { count ≤ vec_capacity buffer.old }
    ensures items { buffer.new.items ≡ buffer.old.items ++ replicate (count - vec_len buffer.old) 0 }
    ensures made { count ≤ vec_len buffer.new }
    ensures room { vec_capacity buffer.old ≤ vec_capacity buffer.new }
{
    if buffer.len() < count {
        buffer.resize(count, 0).unwrap();
    }
}

impl<S: Source + Drop> FrameInput<S> {
    ghost use Rattle.walter_conn.specs.Inputs.{held_by, unread_by, body_of, HoldsFrame};

    /// None of the bytes is held.
    #[tactic(auto, using(crate::proofs::InputLemmas::unread_none))]
    pub(crate) fn new(source: S, buffer: Vec<u8>) -> FrameInput<S>
        ensures source { result.source ≡ source }
        ensures buffer { result.buffer ≡ buffer }
        ensures held { result.held ≡ 0 }
        ensures unread { unread_by S.left result ≡ S.left source }
    {
        FrameInput {
            source,
            buffer,
            held: 0,
        }
    }

    // Reads until so many bytes are held, and answers whether they are: the source may end before.
    fn fill(&mut self, wanted: usize) -> Result<bool, Failed>
        requires room { 65540 ≤ vec_capacity self.old.buffer }
        requires made { self.old.held ≤ vec_len self.old.buffer }
        requires wanted { wanted ≤ 65540 }
        requires within { self.old.held ≤ wanted }
        ensures room { 65540 ≤ vec_capacity self.new.buffer }
        ensures made { self.new.held ≤ vec_len self.new.buffer }
        ensures within { self.new.held ≤ wanted }
        ensures grows { self.old.held ≤ self.new.held }
        ensures kept { take self.old.held self.new.buffer.items ≡ held_by self.old }
        ensures unread { unread_by S.left self.new ≡ unread_by S.left self.old }
        ensures full { result ≡ Ok true → self.new.held ≡ wanted }
        ensures short { result ≡ Ok false → self.new.held < wanted }
        ensures end { result ≡ Ok false → AtEnd (S.left self.new.source) }
        ensures faultless { OnOk result (S.faults self.new.source ≡ S.faults self.old.source) }
        ensures cause { OnErr result (S.faults self.old.source < S.faults self.new.source) }
    {
        make_up_to(&mut self.buffer, wanted);
        while self.held < wanted {
            let count = self.source.read(&mut self.buffer[self.held..wanted])?;
            if count == 0 {
                return Ok(false);
            }
            self.held += count;
        }
        Ok(true)
    }

    // The length that the first four bytes spell.
    fn length(&self) -> u32
        requires { 4 ≤ vec_len self.now.buffer }
        ensures { take 4 self.now.buffer.items ≡ number_spelled 4 result }
    {
        Cursor::new(&self.buffer[..4]).u32().unwrap()
    }

    /// Reads the next frame.
    pub(crate) fn arrive(&mut self) -> Result<Arrival, Failed>
        requires room { 65540 ≤ vec_capacity self.old.buffer }
        requires none { self.old.held ≡ 0 }
        ensures room { 65540 ≤ vec_capacity self.new.buffer }
        ensures made { self.new.held ≤ vec_len self.new.buffer }
        ensures unread { unread_by S.left self.new ≡ unread_by S.left self.old }
        ensures frame { result ≡ Ok Arrival.Frame → HoldsFrame self.new }
        ensures too_long { result ≡ Ok Arrival.TooLong → IsTooLong (held_by self.new) }
        ensures ended_held { result ≡ Ok Arrival.Ended → self.new.held ≡ 0 }
        ensures ended { result ≡ Ok Arrival.Ended → AtEnd (unread_by S.left self.old) }
        ensures cut { result ≡ Ok Arrival.Cut → EndsInFrame (unread_by S.left self.old) }
        ensures faultless { OnOk result (S.faults self.new.source ≡ S.faults self.old.source) }
        ensures cause { OnErr result (S.faults self.old.source < S.faults self.new.source) }
    {
        if !self.fill(4)? {
            return Ok(if self.held == 0 {
                Arrival::Ended
            } else {
                Arrival::Cut
            });
        }
        let length = self.length() as usize;
        if length > LONGEST {
            return Ok(Arrival::TooLong);
        }
        if !self.fill(4 + length)? {
            return Ok(Arrival::Cut);
        }
        Ok(Arrival::Frame)
    }

    /// The body of the frame that is held.
    pub(crate) fn body(&self) -> &[u8]
        requires made { self.now.held ≤ vec_len self.now.buffer }
        requires frame { HoldsFrame self.now }
        ensures { result.now ≡ body_of self.now }
    {
        &self.buffer[4..self.held]
    }
}
