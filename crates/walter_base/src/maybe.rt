//! Records on the heap: one or none, and a place that is taken before its record is known.
ghost use Rattle.std.specs.Prelude.{◌≡◌, Some, None, IfSome, IfNone, IfOk};

use crate::memory::Mem;
use crate::message::Record;
use std::alloc::{AllocError, Global};
use std::marker::Model;

/// A record, or none. The record lies on the heap, so that what mostly has none takes little place. Contracts see an
/// option.
#[derive(Debug, Drop)]
pub struct MaybeRecord {
    place: Option<Box<Record>>,
}

impl Model for MaybeRecord {
    ghost use Rattle.std.specs.Prelude.{Option, option_map};
    ghost use Rattle.walter_base.specs.declared.message.Record.{Record};

    ghost Value = { Option Record };

    ghost view = { λ m. option_map (λ b. b.value) m.place };
}

impl MaybeRecord {
    /// No record, for which nothing lies on the heap.
    pub fn none() -> MaybeRecord
        ensures { result ≡ None }
    {
        MaybeRecord { place: None }
    }

    /// The record, which goes to the heap.
    pub fn some(alloc: Global, rec: Record) -> Mem<MaybeRecord>
        ensures { IfOk result (λ m. m ≡ Some rec) }
    {
        Ok(MaybeRecord {
            place: Some(Box::new(alloc, rec)?),
        })
    }

    /// The option itself, with the record off the heap.
    pub fn into_option(self) -> Option<Record>
        ensures { result ≡ self }
    {
        match self.place {
            Some(place) => Some(Box::into_inner(place)),
            None => None,
        }
    }

    /// The record, where it lies.
    pub fn as_ref(&self) -> Option<&Record>
        ensures some { IfSome result (λ rec. self.now ≡ Some rec.now) }
        ensures none { IfNone result (self.now ≡ None) }
    {
        match &self.place {
            Some(place) => Some(place),
            None => None,
        }
    }
}

impl Clone for MaybeRecord {
    ghost is_clone = { λ a b. b ≡ a };

    fn clone(&self) -> Result<MaybeRecord, AllocError> {
        Ok(MaybeRecord {
            place: self.place.clone()?,
        })
    }
}

/// A place on the heap for one record, which is filled without memory.
#[derive(Debug, Drop)]
pub struct RecordPlace {
    place: Box<Record>,
}

impl RecordPlace {
    pub fn new(alloc: Global) -> Mem<RecordPlace> {
        // Any record keeps the place until it is filled.
        let place = Box::new(alloc, Record::Boot(0))?;
        Ok(RecordPlace { place })
    }

    /// The record, in this place.
    pub fn fill(self, rec: Record) -> MaybeRecord
        ensures { result ≡ Some rec }
    {
        let RecordPlace { mut place } = self;
        *place = rec;
        MaybeRecord { place: Some(place) }
    }
}
