//! Bytes that are to become digits.
ghost use Rattle.std.specs.Prelude.{◌≡◌, [], IfOk};
ghost use Rattle.walter_base.specs.Sizes.{CanBeRecorded};
ghost use Rattle.walter_record.specs.Spelling.{record_spelled, FitsFormat};
ghost use Rattle.walter_reply.specs.Replies.{FitsFrame};
ghost use Rattle.walter_report.specs.Reports.{reply_frame};

use std::alloc::Global;
use std::marker::Model;
use walter_base::{Format, Mem, NoMemory, Record, Reply};
use walter_fields::Appender;

// The longest frame of a reply. No record has as many bytes.
const LONGEST: usize = 65_540;

// Bytes that are to become digits, in memory that was taken before. Contracts see the bytes.
#[derive(Drop)]
pub(crate) struct Frame {
    bytes: Appender,
}

impl Model for Frame {
    ghost use Rattle.std.specs.Prelude.{◌≡◌, ◌+◌, ℕ, List, length};

    ghost Value = { List ℕ };

    ghost view = { λ f. f.bytes.bytes };

    ghost invariant = { λ f. length f.bytes.bytes + f.bytes.room ≡ 65540 };
}

impl Frame {
    pub fn new(alloc: Global) -> Mem<Frame>
        ensures { IfOk result (λ frame. frame ≡ []) }
    {
        let Ok(bytes) = Appender::with_room(alloc, LONGEST) else {
            return Err(NoMemory);
        };
        Ok(Frame { bytes })
    }

    pub fn as_slice(&self) -> &[u8]
        ensures { result.now ≡ self.now }
    {
        self.bytes.as_slice()
    }

    /// A reply as its client gets it, in the place of what was written.
    #[tactic(auto, using(walter_reply::proofs::Lengths::lengths))]
    pub fn write_reply(&mut self, reply: &Reply)
        requires { FitsFrame reply.now }
        ensures { self.new ≡ reply_frame reply.now }
    {
        self.bytes.clear();
        self.bytes.u32(walter_reply::size_of(reply) as u32);
        walter_reply::append(&mut self.bytes, reply);
    }

    /// A record as a journal has it in the format, in the place of what was written.
    pub fn write_record(&mut self, stable: &Record, format: Format)
        requires sizes { CanBeRecorded stable.now }
        requires place { FitsFormat format stable.now }
        ensures { self.new ≡ record_spelled format stable.now }
    {
        self.bytes.clear();
        walter_record::append(&mut self.bytes, stable, format);
    }
}
