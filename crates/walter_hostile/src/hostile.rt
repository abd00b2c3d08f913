//! Bytes that a seed makes of valid ones.
ghost use Rattle.std.specs.Prelude.{◌<◌};

use rand_core::Rng;
use rand_pcg::Pcg32;
use std::alloc::{AllocError, Global};

/// How many changes valid bytes see: one as a rule.
const CHANGES: [usize; 6] = [1, 1, 1, 2, 3, 6];

/// How many bytes a change takes away.
const LENGTHS: [usize; 6] = [1, 1, 2, 4, 8, 40];

/// What makes such bytes: the valid ones, and pieces that come into them.
#[derive(Drop)]
pub struct Hostile<'a> {
    random: Pcg32,
    bases: &'a [Vec<u8>],
    pieces: &'a [&'a [u8]],
}

impl<'a> Hostile<'a> {
    /// By this seed, of these.
    pub fn new(seed: u64, bases: &'a [Vec<u8>], pieces: &'a [&'a [u8]]) -> Hostile<'a> {
        Hostile {
            random: Pcg32::new(seed, 1),
            bases,
            pieces,
        }
    }

    /// One of the valid ones, behind some changes.
    pub fn make(&mut self, alloc: Global) -> Result<Vec<u8>, AllocError> {
        let mut bytes = self.base().to_vec(alloc)?;
        for _ in 0..CHANGES[below(&mut self.random, 6)] {
            bytes = self.changed(alloc, &bytes)?;
        }
        Ok(bytes)
    }

    // Behind one change at any place: the bytes are cut, some of them go, a piece comes between them or in the place of
    // some, the end of other ones takes that of these, or a bit turns.
    fn changed(&mut self, alloc: Global, bytes: &[u8]) -> Result<Vec<u8>, AllocError> {
        let (front, rest) = bytes.split_at(below(&mut self.random, bytes.len() + 1));
        let behind = rest
            .get(LENGTHS[below(&mut self.random, 6)]..)
            .unwrap_or(&[]);
        match below(&mut self.random, 6) {
            0 => joined(alloc, front, &[], &[]),
            1 => joined(alloc, front, &[], behind),
            2 => joined(alloc, front, self.piece(), rest),
            3 => joined(alloc, front, self.piece(), behind),
            4 => joined(alloc, front, &[], self.end_of_another()),
            _ => self.turned(alloc, bytes, front.len()),
        }
    }

    // One of the valid ones, or nothing where there is none.
    fn base(&mut self) -> &'a [u8] {
        match one_of(&mut self.random, self.bases) {
            Some(bytes) => bytes,
            None => &[],
        }
    }

    fn piece(&mut self) -> &'a [u8] {
        match one_of(&mut self.random, self.pieces) {
            Some(bytes) => bytes,
            None => &[],
        }
    }

    fn end_of_another(&mut self) -> &'a [u8] {
        let other = self.base();
        &other[below(&mut self.random, other.len() + 1)..]
    }

    // With another bit at this place, if it is within.
    fn turned(&mut self, alloc: Global, bytes: &[u8], place: usize) -> Result<Vec<u8>, AllocError> {
        let mut bytes = bytes.to_vec(alloc)?;
        let bit = below(&mut self.random, 8);
        if let Some(byte) = bytes.get_mut(place) {
            *byte ^= 1 << bit;
        }
        Ok(bytes)
    }
}

// A number below the bound.
fn below(random: &mut Pcg32, bound: usize) -> usize
    requires { 0 < bound }
    ensures { result < bound }
{
    random.next_u32() as usize % bound
}

fn one_of<'a, T>(random: &mut Pcg32, items: &'a [T]) -> Option<&'a T> {
    items.get(below(random, items.len().max(1)))
}

fn joined(alloc: Global, front: &[u8], piece: &[u8], rest: &[u8]) -> Result<Vec<u8>, AllocError> {
    let mut all = front.to_vec(alloc)?;
    all.extend_from_slice(piece)?;
    all.extend_from_slice(rest)?;
    Ok(all)
}
