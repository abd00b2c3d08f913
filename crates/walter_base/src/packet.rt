//! What sites say to each other: the packets, and what a site puts out at once.
ghost use Rattle.std.specs.Prelude.{◌≡◌};
ghost use Rattle.walter_base.specs.Sending.{kind_of, number_of};

use crate::lists::Objects;
use crate::names::{SiteId, Tid};
use crate::snapshot::Snapshot;
use crate::transaction::{Conflict, Tx};
use std::alloc::AllocError;
use std::marker::Model;

/// What a site answers to a PREPARE.
#[derive(Clone, Copy, Debug, PartialEq, Eq)]
pub enum Answer {
    /// The objects are locked for the slow commit.
    Yes,
    /// This stands in its way.
    No(Conflict),
    /// It is to be asked again: an object is locked by a transaction that the snapshot may see.
    Later,
}

/// What a site says to another. The sender and the receiver are those of the lane.
#[derive(Debug, Drop)]
pub enum Packet {
    /// The sender's own commit of this number.
    Propagate(u64, Tx),
    /// The sender has so many of the receiver's commits, from the first on.
    Ack(u64),
    /// So many of the sender's own commits are durable, from the first on.
    Dsmark(u64),
    /// So many of the receiver's commits are committed at the sender, from the first on.
    Visible(u64),
    /// The sender's slow commit of this number, of this transaction with this snapshot, asks for these objects.
    Prepare(u64, Tid, Snapshot, Objects),
    /// What the sender answers to the receiver's slow commit of this number.
    Vote(u64, Answer),
    /// The sender's slow commit of this number is over, without a commit.
    Release(u64),
    /// The sender has released what it held for the receiver's slow commit of this number.
    Released(u64),
}

impl Packet {
    /// The kind of the packet, from 1 to 8: packets to one site go out by rising kind.
    pub fn kind(&self) -> u8
        ensures { result ≡ kind_of self.now }
    {
        match self {
            Packet::Propagate(_, _) => 1,
            Packet::Ack(_) => 2,
            Packet::Dsmark(_) => 3,
            Packet::Visible(_) => 4,
            Packet::Prepare(_, _, _, _) => 5,
            Packet::Vote(_, _) => 6,
            Packet::Release(_) => 7,
            Packet::Released(_) => 8,
        }
    }

    /// The number that the packet names.
    pub fn number(&self) -> u64
        ensures { result ≡ number_of self.now }
    {
        match self {
            Packet::Propagate(number, _)
            | Packet::Ack(number)
            | Packet::Dsmark(number)
            | Packet::Visible(number)
            | Packet::Prepare(number, _, _, _)
            | Packet::Vote(number, _)
            | Packet::Release(number)
            | Packet::Released(number) => *number,
        }
    }
}

impl Clone for Packet {
    ghost is_clone = { λ a b. b ≡ a };

    fn clone(&self) -> Result<Packet, AllocError> {
        match self {
            Packet::Propagate(seq, tx) => Ok(Packet::Propagate(*seq, tx.clone()?)),
            Packet::Ack(got) => Ok(Packet::Ack(*got)),
            Packet::Dsmark(durable) => Ok(Packet::Dsmark(*durable)),
            Packet::Visible(committed) => Ok(Packet::Visible(*committed)),
            Packet::Prepare(slow, tid, start, objects) => {
                Ok(Packet::Prepare(*slow, *tid, start.clone()?, objects.clone()?))
            }
            Packet::Vote(slow, answer) => Ok(Packet::Vote(*slow, *answer)),
            Packet::Release(slow) => Ok(Packet::Release(*slow)),
            Packet::Released(slow) => Ok(Packet::Released(*slow)),
        }
    }
}

/// What a site puts out at once: packets, each with its receiver. Contracts see the list of them.
#[derive(Debug, Drop)]
pub struct Sends {
    items: Vec<(SiteId, Packet)>,
}

impl Model for Sends {
    ghost use Rattle.std.specs.Prelude.{List};
    ghost use Rattle.walter_base.specs.declared.names.SiteId.{SiteId};
    ghost use Rattle.walter_base.specs.declared.packet.Packet.{Packet};

    ghost Value = { List (SiteId × Packet) };

    ghost view = { λ s. s.items.items };
}

impl Sends {
    pub fn as_slice(&self) -> &[(SiteId, Packet)]
        ensures { result.now ≡ self.now }
    {
        &self.items
    }

    /// The packets, which stay where they are.
    pub fn into_vec(self) -> Vec<(SiteId, Packet)>
        ensures { result.items ≡ self }
    {
        self.items
    }
}

impl Clone for Sends {
    ghost is_clone = { λ a b. b ≡ a };

    fn clone(&self) -> Result<Sends, AllocError> {
        Ok(Sends {
            items: self.items.clone()?,
        })
    }
}

impl From<Vec<(SiteId, Packet)>> for Sends {
    ghost from_gives = { λ v s. s ≡ v.items };

    fn from(items: Vec<(SiteId, Packet)>) -> Sends {
        Sends { items }
    }
}
