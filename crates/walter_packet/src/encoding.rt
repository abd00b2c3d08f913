//! Writes packets, and counts the bytes that this takes.
ghost use Rattle.std.specs.Prelude.{◌≡◌, ◌+◌, ◌≤◌, ◌++◌, IfOk};
ghost use Rattle.walter_base.specs.Sizes.{size_of_packet, CanBeSent};
ghost use Rattle.walter_packet.specs.Fields.{fields_spelled};
ghost use Rattle.walter_packet.specs.Spelling.{packet_spelled, AreInRange};

use crate::answers::{size_of_answer, write_answer};
use std::alloc::Global;
use walter_base::{Bytes, Format, Mem, NoMemory, Packet};
use walter_fields::Appender;
use walter_names::write_tid;
use walter_txcode::{size_in, write_numbered, write_objects, write_vector};

/// How many bytes spell the packet.
fn size(packet: &Packet) -> usize
    requires { CanBeSent packet.now }
    ensures { result ≡ size_of_packet packet.now }
{
    match packet {
        Packet::Propagate(_, tx) => 9 + size_in(tx, Format::Second) as usize,
        Packet::Prepare(_, _, start, objects) => {
            25 + 8 * start.as_slice().len() + 12 * objects.as_slice().len()
        }
        Packet::Vote(_, answer) => 9 + size_of_answer(*answer),
        Packet::Ack(_)
        | Packet::Dsmark(_)
        | Packet::Visible(_)
        | Packet::Release(_)
        | Packet::Released(_) => 9,
    }
}

/// Writes what stands behind the kind.
fn write_fields(out: &mut Appender, packet: &Packet)
    requires spelled { CanBeSent packet.now }
    requires room { size_of_packet packet.now ≤ 1 + out.old.room }
    ensures bytes { out.new.bytes ≡ out.old.bytes ++ fields_spelled packet.now }
    ensures ranges { AreInRange packet.now }
{
    match packet {
        Packet::Propagate(seq, tx) => write_numbered(out, *seq, tx, Format::Second),
        Packet::Prepare(slow, tid, start, objects) => {
            out.u64(*slow);
            write_tid(out, *tid);
            write_vector(out, start.as_slice(), Format::Second);
            write_objects(out, objects);
        }
        Packet::Vote(slow, answer) => {
            out.u64(*slow);
            write_answer(out, *answer);
        }
        Packet::Ack(number)
        | Packet::Dsmark(number)
        | Packet::Visible(number)
        | Packet::Release(number)
        | Packet::Released(number) => out.u64(*number),
    }
}

/// The one spelling of the packet.
#[tactic(auto, using(crate::proofs::Packets::packet_parts))]
pub fn encode(alloc: Global, packet: &Packet) -> Mem<Bytes>
    requires { CanBeSent packet.now }
    ensures bytes { IfOk result (λ bytes. bytes ≡ packet_spelled packet.now) }
    ensures ranges { IfOk result (λ _. AreInRange packet.now) }
{
    let Ok(mut out) = Appender::with_room(alloc, size(packet)) else {
        return Err(NoMemory);
    };
    out.u8(packet.kind());
    write_fields(&mut out, packet);
    Ok(Bytes::from(out.into_bytes()))
}
