//! A cursor: it reads fields from the front of bytes, and stays where it is when one is not there whole.
ghost use Rattle.std.specs.Prelude.{◌≡◌, ◌↔◌, ◌+◌, ◌<◌, ◌^◌, ◌++◌, ℕ, List, [], length, IsErr, IsTrue, IfOk, IfErr, Ok};
ghost use Rattle.walter_fields.specs.Cursors.{Takes, IsWanting, LacksBlock, whole_of};
ghost use Rattle.walter_fields.specs.Spellings.{number_read, number_spelled, signed_spelled, block_spelled};

use crate::short::Short;
use byteorder::{BigEndian, ByteOrder};
use std::marker::Model;

/// Reads fields from the front of some bytes. What can't be read changes nothing.
#[derive(Debug, Drop)]
pub struct Cursor<'a> {
    left: &'a [u8],
    end: usize,
}

impl<'a> Model for Cursor<'a> {
    ghost use Rattle.std.specs.Prelude.{◌≤◌, length};
    ghost use Rattle.walter_fields.specs.Cursors.{Remainder};
    ghost use Rattle.walter_fields.specs.Spellings.{IsBytes};

    ghost Value = { Remainder };

    ghost view = { λ c. record { left = c.left.now; end = c.end } };

    ghost invariant = { λ c. (length c.left.now ≤ c.end) × IsBytes c.left.now };
}

impl<'a> Cursor<'a> {
    /// At the first of the bytes.
    pub fn new(bytes: &'a [u8]) -> Cursor<'a>
        ensures { result ≡ whole_of bytes.now }
    {
        Cursor {
            left: bytes,
            end: bytes.len(),
        }
    }

    /// How many bytes were read.
    pub fn place(&self) -> usize
        ensures { result + length self.now.left ≡ self.now.end }
    {
        self.end - self.left.len()
    }

    /// Whether no byte is left.
    pub fn is_at_end(&self) -> bool
        ensures { IsTrue result ↔ (self.now.left ≡ []) }
    {
        self.left.is_empty()
    }

    /// The bytes that are left.
    pub fn rest(&self) -> &'a [u8]
        ensures { result.now ≡ self.now.left }
    {
        self.left
    }

    /// So many bytes.
    fn take(&mut self, count: usize) -> Result<&'a [u8], Short>
        ensures counted { IfOk result (λ front. length front.now ≡ count) }
        ensures number { IfOk result
            (λ front. Takes self.old self.new (number_spelled count (number_read count front.now))) }
        ensures short { IsErr result ↔ (length self.old.left < count) }
        ensures err { IfErr result (IsWanting self.old self.new) }
    {
        let Some((front, rest)) = self.left.split_at_checked(count) else {
            return Err(Short { at: self.end });
        };
        self.left = rest;
        Ok(front)
    }

    /// One byte.
    #[tactic(auto, unfolding(crate::specs::Spellings::number_read))]
    pub fn u8(&mut self) -> Result<u8, Short>
        ensures taken { IfOk result (λ n. Takes self.old self.new (number_spelled 1 n)) }
        ensures short { IsErr result ↔ (length self.old.left < 1) }
        ensures err { IfErr result (IsWanting self.old self.new) }
    {
        Ok(self.take(1)?[0])
    }

    /// A number of two bytes, the highest first.
    #[tactic(auto, unfolding(crate::specs::Spellings::number_read))]
    pub fn u16(&mut self) -> Result<u16, Short>
        ensures taken { IfOk result (λ n. Takes self.old self.new (number_spelled 2 n)) }
        ensures short { IsErr result ↔ (length self.old.left < 2) }
        ensures err { IfErr result (IsWanting self.old self.new) }
    {
        Ok(BigEndian::read_u16(self.take(2)?))
    }

    /// A number of four bytes, the highest first.
    #[tactic(auto, unfolding(crate::specs::Spellings::number_read))]
    pub fn u32(&mut self) -> Result<u32, Short>
        ensures taken { IfOk result (λ n. Takes self.old self.new (number_spelled 4 n)) }
        ensures short { IsErr result ↔ (length self.old.left < 4) }
        ensures err { IfErr result (IsWanting self.old self.new) }
    {
        Ok(BigEndian::read_u32(self.take(4)?))
    }

    /// A number of eight bytes, the highest first.
    #[tactic(auto, unfolding(crate::specs::Spellings::number_read))]
    pub fn u64(&mut self) -> Result<u64, Short>
        ensures taken { IfOk result (λ n. Takes self.old self.new (number_spelled 8 n)) }
        ensures short { IsErr result ↔ (length self.old.left < 8) }
        ensures err { IfErr result (IsWanting self.old self.new) }
    {
        Ok(BigEndian::read_u64(self.take(8)?))
    }

    /// A number of eight bytes, the highest first, in two's complement.
    pub fn i64(&mut self) -> Result<i64, Short>
        ensures taken { IfOk result (λ z. Takes self.old self.new (signed_spelled z)) }
        ensures short { IsErr result ↔ (length self.old.left < 8) }
        ensures err { IfErr result (IsWanting self.old self.new) }
    {
        Ok(self.u64()?.cast_signed())
    }

    /// The bytes behind their length.
    pub fn block(&mut self) -> Result<&'a [u8], Short>
        ensures taken { IfOk result (λ bytes. Takes self.old self.new (block_spelled bytes.now)) }
        ensures counted { IfOk result (λ bytes. length bytes.now < 2 ^ 32) }
        ensures short { IsErr result ↔ LacksBlock self.old.left }
        ensures err { IfErr result (IsWanting self.old self.new) }
    {
        let short = Short { at: self.end };
        let Some((length, rest)) = self.left.split_at_checked(4) else {
            return Err(short);
        };
        let length = BigEndian::read_u32(length) as usize;
        let Some((bytes, rest)) = rest.split_at_checked(length) else {
            return Err(short);
        };
        self.left = rest;
        Ok(bytes)
    }
}
