//! Reads a source to its end.
ghost use Rattle.std.specs.Prelude.{◌≡◌, ◌≤◌, vec_len, IfOk, OnOk, OnErr, IsErrOf};
ghost use Rattle.walter_stream.specs.ReadError.{CountsFaults};
ghost use Rattle.walter_stream.specs.Streams.{AtEnd, TakesFront, TakesSome, TakesMoreThan};

use crate::source::{Failed, Source};
use std::alloc::{AllocError, Global};
use thiserror::Error;

/// How many bytes are asked for at once.
const PIECE: usize = 8192;

/// Why bytes were not read to their end.
#[derive(Clone, Copy, Debug, PartialEq, Eq, Error)]
pub enum ReadError {
    #[error("there are more bytes than may be read")]
    TooLong,
    #[error("a read failed")]
    Failed,
    #[error("there is no memory for the bytes")]
    NoMemory,
}

impl From<Failed> for ReadError {
    ghost use Rattle.walter_stream.specs.declared.reading.ReadError.TheVariants.{Failed};

    ghost from_gives = { λ _ e. e ≡ Failed };

    fn from(_fault: Failed) -> ReadError {
        ReadError::Failed
    }
}

impl From<AllocError> for ReadError {
    ghost use Rattle.walter_stream.specs.declared.reading.ReadError.TheVariants.{NoMemory};

    ghost from_gives = { λ _ e. e ≡ NoMemory };

    fn from(_error: AllocError) -> ReadError {
        ReadError::NoMemory
    }
}

/// Reads all that is left, up to a limit. After an error the source goes on behind the bytes that were taken.
pub fn read_to_end<S: Source>(
    alloc: Global,
    source: &mut S,
    limit: usize,
) -> Result<Vec<u8>, ReadError>
    ensures within { IfOk result (λ bytes. vec_len bytes ≤ limit) }
    ensures all { IfOk result (λ bytes.
        TakesFront (S.left source.old) (S.left source.new) bytes.items) }
    ensures end { OnOk result (AtEnd (S.left source.new)) }
    ensures too_long { IsErrOf result ReadError.TooLong
        → TakesMoreThan limit (S.left source.old) (S.left source.new) }
    ensures gone { OnErr result (TakesSome (S.left source.old) (S.left source.new)) }
    ensures faults { CountsFaults result (S.faults source.old) (S.faults source.new) }
{
    let mut bytes = Vec::new(alloc);
    let mut piece = [0; PIECE];
    'pieces: loop {
        let count = source.read(&mut piece)?;
        if count == 0 {
            return Ok(bytes);
        }
        if limit - bytes.len() < count {
            return Err(ReadError::TooLong);
        }
        bytes.extend_from_slice(&piece[..count])?;
    }
}
