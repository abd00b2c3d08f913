//! An appender: it takes its memory at the start, so that no field is refused later.
ghost use Rattle.std.specs.Prelude.{◌≡◌, ◌+◌, ◌≤◌, ◌<◌, ◌^◌, ◌++◌, [], length, IfOk};
ghost use Rattle.walter_fields.specs.Spellings.{number_spelled, signed_spelled, block_spelled};

use crate::memory::Mem;
use std::alloc::Global;
use std::marker::Model;

/// Writes fields one behind the other, into memory that is taken at the start.
#[derive(Debug, Drop)]
pub struct Appender {
    bytes: Vec<u8>,
    room: usize,
}

impl Model for Appender {
    ghost use Rattle.std.specs.Prelude.{◌≤◌, ◌+◌, vec_len, vec_capacity};
    ghost use Rattle.walter_fields.specs.Appenders.{BytesWithRoom};

    ghost Value = { BytesWithRoom };

    ghost view = { λ a. record { bytes = a.bytes.items; room = a.room } };

    ghost invariant = { λ a. vec_len a.bytes + a.room ≤ vec_capacity a.bytes };
}

impl Appender {
    /// Takes the memory for `room` bytes.
    pub fn with_room(alloc: Global, room: usize) -> Mem<Appender>
        ensures { IfOk result (λ a. a ≡ record { bytes = []; room = room }) }
    {
        Ok(Appender {
            bytes: Vec::with_capacity(alloc, room)?,
            room,
        })
    }

    /// The bytes that were written.
    pub fn into_bytes(self) -> Vec<u8>
        ensures { result.items ≡ self.bytes }
    {
        let Appender { bytes, room: _ } = self;
        bytes
    }

    /// The bytes that were written so far.
    pub fn as_slice(&self) -> &[u8]
        ensures { result.now ≡ self.now.bytes }
    {
        &self.bytes
    }

    /// Drops the bytes that were written: their memory is room again.
    pub fn clear(&mut self)
        ensures bytes { self.new.bytes ≡ [] }
        ensures room { self.new.room ≡ self.old.room + length self.old.bytes }
    {
        self.room += self.bytes.len();
        self.bytes.clear();
    }

    /// The bytes as they are.
    // Most are of a number, so how many they are is known where it is called.
    #[inline(always)]
    pub fn bytes(&mut self, bytes: &[u8])
        requires { length bytes.now ≤ self.old.room }
        ensures bytes { self.new.bytes ≡ self.old.bytes ++ bytes.now }
        ensures room { self.new.room + length bytes.now ≡ self.old.room }
    {
        self.bytes.extend_from_slice(bytes).unwrap();
        self.room -= bytes.len();
    }

    /// One byte.
    #[tactic(auto, unfolding(crate::specs::Spellings::number_spelled))]
    pub fn u8(&mut self, n: u8)
        requires { 1 ≤ self.old.room }
        ensures bytes { self.new.bytes ≡ self.old.bytes ++ number_spelled 1 n }
        ensures room { self.new.room + 1 ≡ self.old.room }
    {
        self.bytes(&[n]);
    }

    /// Two bytes, the highest first.
    #[tactic(auto, unfolding(crate::specs::Spellings::number_spelled))]
    pub fn u16(&mut self, n: u16)
        requires { 2 ≤ self.old.room }
        ensures bytes { self.new.bytes ≡ self.old.bytes ++ number_spelled 2 n }
        ensures room { self.new.room + 2 ≡ self.old.room }
    {
        self.bytes(&n.to_be_bytes());
    }

    /// Four bytes, the highest first.
    #[tactic(auto, unfolding(crate::specs::Spellings::number_spelled))]
    pub fn u32(&mut self, n: u32)
        requires { 4 ≤ self.old.room }
        ensures bytes { self.new.bytes ≡ self.old.bytes ++ number_spelled 4 n }
        ensures room { self.new.room + 4 ≡ self.old.room }
    {
        self.bytes(&n.to_be_bytes());
    }

    /// Eight bytes, the highest first.
    #[tactic(auto, unfolding(crate::specs::Spellings::number_spelled))]
    pub fn u64(&mut self, n: u64)
        requires { 8 ≤ self.old.room }
        ensures bytes { self.new.bytes ≡ self.old.bytes ++ number_spelled 8 n }
        ensures room { self.new.room + 8 ≡ self.old.room }
    {
        self.bytes(&n.to_be_bytes());
    }

    /// Eight bytes, the highest first, in two's complement.
    pub fn i64(&mut self, z: i64)
        requires { 8 ≤ self.old.room }
        ensures bytes { self.new.bytes ≡ self.old.bytes ++ signed_spelled z }
        ensures room { self.new.room + 8 ≡ self.old.room }
    {
        self.u64(z.cast_unsigned());
    }

    /// The length of the bytes, and the bytes.
    pub fn block(&mut self, bytes: &[u8])
        requires short { length bytes.now < 2 ^ 32 }
        requires room { 4 + length bytes.now ≤ self.old.room }
        ensures bytes { self.new.bytes ≡ self.old.bytes ++ block_spelled bytes.now }
        ensures room { self.new.room + (4 + length bytes.now) ≡ self.old.room }
    {
        self.u32(bytes.len() as u32);
        self.bytes(bytes);
    }
}
