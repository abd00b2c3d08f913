//! The frame of a reply.
ghost use Rattle.std.specs.Prelude.{◌≡◌, ◌+◌, length};
ghost use Rattle.walter_conn.specs.Frames.{frame};
ghost use Rattle.walter_reply.specs.Replies.{reply_spelled, FitsFrame};

use walter_base::Reply;
use walter_fields::Appender;
use walter_reply::{append, size_of};

/// Writes the frame of the reply in the place of what was written. It takes no memory.
#[tactic(auto, using(walter_reply::proofs::Lengths::lengths))]
pub(crate) fn write_frame(out: &mut Appender, reply: &Reply)
    requires short { FitsFrame reply.now }
    requires room { length out.old.bytes + out.old.room ≡ 65540 }
    ensures bytes { out.new.bytes ≡ frame (reply_spelled reply.now) }
    ensures room { length out.new.bytes + out.new.room ≡ 65540 }
{
    out.clear();
    out.u32(size_of(reply) as u32);
    append(out, reply);
}
