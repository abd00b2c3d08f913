//! Bytes that spell a packet, which is decoded anew for each who asks for it.
ghost use Rattle.std.specs.Prelude.{◌≡◌, ◌≢◌, ◌≤◌, IfOk, IfSome, IfNone};
ghost use Rattle.walter_base.specs.Sizes.{CanBeSent};
ghost use Rattle.walter_base.specs.Vectors.{most_sites};
ghost use Rattle.walter_base.specs.declared.packet.Packet.{Packet};
ghost use Rattle.walter_packet.specs.Framed.{frame_of, IsFramed, SpellsPacket};
ghost use Rattle.walter_packet.specs.Spelling.{packet_spelled, IsAmong, HasPacketSpelling};

use crate::{decode, encode};
use std::alloc::{AllocError, Global};
use std::marker::Model;
use walter_base::{Bytes, Mem, Packet};

/// Bytes that spell a packet among so many sites. Contracts see the bytes and the number of sites.
#[derive(Debug, Drop)]
pub struct Framed {
    sites: u8,
    bytes: Bytes,
}

impl Model for Framed {
    ghost use Rattle.walter_packet.specs.Framed.{FramedBytes, SpellsPacket};

    ghost Value = { FramedBytes };

    ghost view = { λ f. record { sites = f.sites; bytes = f.bytes } };

    ghost invariant = { λ f. SpellsPacket (record { sites = f.sites; bytes = f.bytes }) };
}

impl Framed {
    /// The packet, whose snapshot is one among so many sites.
    pub fn new(alloc: Global, packet: &Packet, sites: u8) -> Mem<Framed>
        requires small { sites ≤ most_sites }
        requires spelled { CanBeSent packet.now }
        requires among { IsAmong sites packet.now }
        ensures frame { IfOk result (λ framed. framed ≡ frame_of sites packet.now) }
        ensures framed { IfOk result (λ framed. IsFramed framed packet.now) }
    {
        let bytes = encode(alloc, packet)?;
        Ok(Framed { sites, bytes })
    }

    /// The packet that the bytes spell, all of them; none where they spell none.
    pub fn read(alloc: Global, bytes: &[u8], sites: u8) -> Mem<Option<Framed>>
        requires { sites ≤ most_sites }
        ensures bytes { IfOk result (λ found. IfSome found
            (λ framed. framed ≡ record { sites = sites; bytes = bytes.now })) }
        ensures some { IfOk result (λ found. IfSome found SpellsPacket) }
        ensures none { IfOk result (λ found. IfNone found
            ((packet : Packet) → HasPacketSpelling sites packet → bytes.now ≢ packet_spelled packet)) }
    {
        match decode(alloc, bytes, sites)? {
            Some(_) => {
                let bytes = Bytes::from_slice(alloc, bytes)?;
                Ok(Some(Framed { sites, bytes }))
            }
            None => Ok(None),
        }
    }

    /// The packet that is framed.
    pub fn packet(&self, alloc: Global) -> Mem<Packet>
        ensures framed { IfOk result (IsFramed self.now) }
        ensures one { IfOk result (λ packet. (other : Packet) → IsFramed self.now other → other ≡ packet) }
    {
        Ok(decode(alloc, self.bytes.as_slice(), self.sites)?.unwrap())
    }

    /// The spelling of the packet.
    pub fn as_slice(&self) -> &[u8]
        ensures bytes { result.now ≡ self.now.bytes }
        ensures spells { SpellsPacket self.now }
    {
        self.bytes.as_slice()
    }

    /// How many sites there are.
    pub fn sites(&self) -> u8
        ensures { result ≡ self.now.sites }
    {
        self.sites
    }
}

impl Clone for Framed {
    ghost is_clone = { λ a b. b ≡ a };

    fn clone(&self) -> Result<Framed, AllocError> {
        Ok(Framed {
            sites: self.sites,
            bytes: self.bytes.clone()?,
        })
    }
}
