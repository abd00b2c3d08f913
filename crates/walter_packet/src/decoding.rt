//! Reads packets, and takes exactly the spellings among so many sites.
ghost use Rattle.std.specs.Prelude.{◌≡◌, ◌≢◌, ◌≤◌, IfOk, IfErr, IfSome, IfNone};
ghost use Rattle.walter_base.specs.Sending.{kind_of};
ghost use Rattle.walter_base.specs.Vectors.{most_sites};
ghost use Rattle.walter_base.specs.declared.packet.Packet.{Packet};
ghost use Rattle.walter_fields.specs.Cursors.{Takes};
ghost use Rattle.walter_packet.specs.Fields.{fields_spelled, prepare_spelled, IsPrepare};
ghost use Rattle.walter_packet.specs.Spelling.{packet_spelled, HasPacketSpelling};
ghost use Rattle.walter_txcode.specs.Faults.{IfUnspelled, NoneBegins};
ghost use Rattle.walter_txcode.specs.Kinds.{IsSuchOfKind};

use crate::answers::read_vote;
use std::alloc::Global;
use walter_base::{Format, Mem, NoMemory, Objects, Packet, Snapshot, Tid, Vts};
use walter_fields::Cursor;
use walter_names::read_tid;
use walter_txcode::{DecodeFault, read_numbered, read_objects, read_vector};

/// A slow commit: its number, its transaction, its snapshot among so many sites, and its objects.
fn read_prepare(
    alloc: Global,
    cursor: &mut Cursor,
    sites: u8,
) -> Result<(u64, (Tid, (Vts, Objects))), DecodeFault>
    requires { sites ≤ most_sites }
    ensures taken { IfOk result (λ prepare. Takes cursor.old cursor.new (prepare_spelled prepare)) }
    ensures spelled { IfOk result (IsPrepare sites) }
    ensures fault { IfErr result (λ fault. IfUnspelled fault
        (NoneBegins (IsPrepare sites) prepare_spelled cursor.old.left)) }
{
    let slow = cursor.u64()?;
    let tid = read_tid(cursor)?;
    let start = read_vector(cursor, sites, Format::Second)?;
    let objects = read_objects(alloc, cursor)?;
    Ok((slow, (tid, (start, objects))))
}

/// What stands behind the kind of a packet.
fn read_fields(
    alloc: Global,
    cursor: &mut Cursor,
    kind: u8,
    sites: u8,
) -> Result<Packet, DecodeFault>
    requires { sites ≤ most_sites }
    ensures taken { IfOk result (λ packet. Takes cursor.old cursor.new (fields_spelled packet)) }
    ensures spelled { IfOk result (IsSuchOfKind (HasPacketSpelling sites) kind_of kind) }
    ensures fault { IfErr result (λ fault. IfUnspelled fault
        (NoneBegins (IsSuchOfKind (HasPacketSpelling sites) kind_of kind) fields_spelled cursor.old.left)) }
{
    match kind {
        1 => {
            let (seq, tx) = read_numbered(alloc, cursor, sites, Format::Second)?;
            Ok(Packet::Propagate(seq, tx))
        }
        2 => {
            let got = cursor.u64()?;
            Ok(Packet::Ack(got))
        }
        3 => {
            let durable = cursor.u64()?;
            Ok(Packet::Dsmark(durable))
        }
        4 => {
            let committed = cursor.u64()?;
            Ok(Packet::Visible(committed))
        }
        5 => {
            let (slow, (tid, (start, objects))) = read_prepare(alloc, cursor, sites)?;
            let start = Snapshot::new(alloc, start)?;
            Ok(Packet::Prepare(slow, tid, start, objects))
        }
        6 => {
            let (slow, answer) = read_vote(cursor)?;
            Ok(Packet::Vote(slow, answer))
        }
        7 => {
            let slow = cursor.u64()?;
            Ok(Packet::Release(slow))
        }
        8 => {
            let slow = cursor.u64()?;
            Ok(Packet::Released(slow))
        }
        _ => Err(DecodeFault::Unspelled),
    }
}

/// The packet with which the bytes that are left begin.
fn read_packet(alloc: Global, cursor: &mut Cursor, sites: u8) -> Result<Packet, DecodeFault>
    requires { sites ≤ most_sites }
    ensures taken { IfOk result (λ packet. Takes cursor.old cursor.new (packet_spelled packet)) }
    ensures spelled { IfOk result (HasPacketSpelling sites) }
    ensures fault { IfErr result (λ fault. IfUnspelled fault
        (NoneBegins (HasPacketSpelling sites) packet_spelled cursor.old.left)) }
{
    let kind = cursor.u8()?;
    let packet = read_fields(alloc, cursor, kind, sites)?;
    Ok(packet)
}

/// The packet among so many sites that the bytes spell, all of them; none where they spell none.
pub fn decode(alloc: Global, bytes: &[u8], sites: u8) -> Mem<Option<Packet>>
    requires { sites ≤ most_sites }
    ensures some { IfOk result (λ found. IfSome found
        (λ packet. HasPacketSpelling sites packet × (bytes.now ≡ packet_spelled packet))) }
    ensures none { IfOk result (λ found. IfNone found
        ((packet : Packet) → HasPacketSpelling sites packet → bytes.now ≢ packet_spelled packet)) }
{
    let mut cursor = Cursor::new(bytes);
    match read_packet(alloc, &mut cursor, sites) {
        Ok(packet) => {
            if cursor.is_at_end() {
                Ok(Some(packet))
            } else {
                Ok(None)
            }
        }
        Err(DecodeFault::Unspelled) => Ok(None),
        Err(DecodeFault::NoMemory) => Err(NoMemory),
    }
}
