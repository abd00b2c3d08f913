//! What is asked of each record, and the first of which it is so.
ghost use Rattle.std.specs.Prelude.{◌≡◌, ◌<◌, ◌≤◌, ◌↔◌, ℕ, IsTrue, IfSome, IfNone, length};
ghost use Rattle.walter_audit.specs.Firsts.{IsSoAt, IsFirstPlace, IsSo, IsFirst};
ghost use Rattle.walter_audit.specs.Journals.{journals_of};
ghost use Rattle.walter_audit.specs.declared.finding.Named.{Named as Name};
ghost use Rattle.walter_base.specs.declared.message.Record.{Record as Journaled};
ghost use Rattle.walter_base.specs.Vectors.{most_sites};

use crate::finding::Named;
use crate::told::Told;
use walter_base::{Record, SiteId};

/// A question that is asked of a record by its name.
pub trait Question {
    /// Whether it is so of the record that has this name.
    ghost holds: { Self → Name → Journaled → Type 0 };

    /// The answer.
    fn asks(&self, at: Named, journaled: &Record) -> bool
        ensures { IsTrue result ↔ holds self.now at journaled.now };
}

/// The place of the first of a site's records of which it is so.
pub fn first_in<Q: Question>(question: &Q, site: SiteId, records: &[Record]) -> Option<u64>
    ensures first { IfSome result (IsFirstPlace (Q.holds question.now) site records.now) }
    ensures none { IfNone result ((index : ℕ) → ¬ IsSoAt (Q.holds question.now) site records.now index) }
{
    for (index, journaled) in records.iter().enumerate() {
        let at = Named {
            site,
            index: index as u64,
        };
        if question.asks(at, journaled) {
            return Some(index as u64);
        }
    }
    None
}

/// The first record of all of which it is so, by its site and then by its place.
pub fn first_of<Q: Question>(question: &Q, journals: &[Told]) -> Option<Named>
    requires { length journals.now ≤ most_sites }
    ensures first { IfSome result (IsFirst (IsSo (Q.holds question.now) (journals_of journals.now))) }
    ensures none { IfNone result ((a : Name) → ¬ IsSo (Q.holds question.now) (journals_of journals.now) a) }
{
    for (number, told) in journals.iter().enumerate() {
        let site = SiteId(number as u8);
        if let Some(index) = first_in(question, site, told.records()) {
            return Some(Named { site, index });
        }
    }
    None
}
