//! What a site's journal tells: its records, and its own commits among them.
ghost use Rattle.std.specs.Prelude.{◌≡◌, ◌≤◌, IfOk, MatchOption, Some, None, flat_map};
ghost use Rattle.walter_audit.specs.Journals.{own_of, made_in};

use std::alloc::{AllocError, Global};
use std::marker::Model;
use walter_base::{Record, Tx};

/// The records of a site, in order. Its own commits stand by themselves too, each at its number less one. Contracts see
/// the records.
#[derive(Debug, Drop)]
pub struct Told {
    records: Vec<Record>,
    owns: Vec<Tx>,
}

impl Model for Told {
    ghost use Rattle.std.specs.Prelude.{◌≡◌, List, flat_map};
    ghost use Rattle.walter_audit.specs.Journals.{own_of};
    ghost use Rattle.walter_base.specs.declared.message.Record.{Record};

    ghost Value = { List Record };

    ghost view = { λ t. t.records.items };

    ghost invariant = { λ t. t.owns.items ≡ flat_map own_of t.records.items };
}

impl Told {
    /// What these records tell. A copy of a transaction takes no memory but its place.
    pub fn of(alloc: Global, records: Vec<Record>) -> Result<Told, AllocError>
        ensures { IfOk result (λ told. told ≡ records.items) }
    {
        let owns = owns_of(alloc, &records)?;
        Ok(Told { records, owns })
    }

    /// The records.
    pub fn records(&self) -> &[Record]
        ensures { result.now ≡ self.now }
    {
        &self.records
    }

    /// The own commit of this number, counted from 1.
    pub fn made(&self, seq: u64) -> Option<&Tx>
        ensures { MatchOption result (made_in self.now seq ≡ None) (λ tx. made_in self.now seq ≡ Some tx.now) }
    {
        let place = seq.checked_sub(1)?;
        self.owns.get(place as usize)
    }
}

/// The transactions of the own commits among these records, in order.
fn owns_of(alloc: Global, records: &[Record]) -> Result<Vec<Tx>, AllocError>
    ensures { IfOk result (λ owns. owns.items ≡ flat_map own_of records.now) }
{
    let mut owns = Vec::new(alloc);
    for journaled in records {
        if let Record::Own(_, tx) = journaled {
            owns.push(tx.clone()?)?;
        }
    }
    Ok(owns)
}
