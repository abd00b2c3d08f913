//! What is asked of two records, and the first pair of which it is so.
ghost use Rattle.std.specs.Prelude.{◌≡◌, ◌≤◌, ◌↔◌, IsTrue, IfSome, IfNone, Some, None, length};
ghost use Rattle.walter_audit.specs.Firsts.{IsSo, IsSoPair, IsSoBeside, IsFirstPair};
ghost use Rattle.walter_audit.specs.Journals.{journals_of, record_at};
ghost use Rattle.walter_audit.specs.declared.finding.Named.{Named as Name};
ghost use Rattle.walter_base.specs.declared.message.Record.{Record as Journaled};
ghost use Rattle.walter_base.specs.Vectors.{most_sites};

use crate::finding::Named;
use crate::question::{Question, first_of};
use crate::told::Told;
use walter_base::Record;

/// A question that is asked of two records by their names.
pub trait Pairing: Drop {
    /// Whether it is so of the two.
    ghost pairs: { Self → Name → Journaled → Name → Journaled → Type 0 };

    /// The answer.
    fn asks(&self, a: Named, first: &Record, b: Named, second: &Record) -> bool
        ensures { IsTrue result ↔ pairs self.now a first.now b second.now };
}

/// Whether it is so of this record and another one, which is asked of the other.
#[derive(Drop)]
struct Beside<'a, P> {
    pairing: &'a P,
    at: Named,
    first: &'a Record,
}

impl<'a, P: Pairing> Question for Beside<'a, P> {
    ghost holds = { λ q b second. P.pairs q.pairing.now q.at q.first.now b second };

    fn asks(&self, at: Named, journaled: &Record) -> bool {
        self.pairing.asks(self.at, self.first, at, journaled)
    }
}

/// Whether it is so of a record and any other one.
#[derive(Drop)]
struct Paired<'a, P> {
    pairing: &'a P,
    journals: &'a [Told],
    ghost few: { length journals.now ≤ most_sites },
}

impl<'a, P: Pairing> Question for Paired<'a, P> {
    ghost holds = { λ q a first. IsSoBeside (P.pairs q.pairing.now) (journals_of q.journals.now) a first };

    fn asks(&self, at: Named, journaled: &Record) -> bool {
        let beside = Beside {
            pairing: self.pairing,
            at,
            first: journaled,
        };
        first_of(&beside, self.journals).is_some()
    }
}

/// The record of this name.
fn record_of(journals: &[Told], at: Named) -> Option<&Record>
    ensures some { IfSome result (λ found. record_at (journals_of journals.now) at ≡ Some found.now) }
    ensures none { IfNone result (record_at (journals_of journals.now) at ≡ None) }
{
    let told = journals.get(usize::from(at.site.0))?;
    told.records().get(at.index as usize)
}

/// The first pair of records of which it is so.
pub fn first_pair<P: Pairing>(pairing: &P, journals: &[Told]) -> Option<(Named, Named)>
    requires { length journals.now ≤ most_sites }
    ensures first { IfSome result (λ (a, b).
        IsFirstPair (IsSoPair (P.pairs pairing.now) (journals_of journals.now)) a b) }
    ensures none { IfNone result ((a b : Name) → ¬ IsSoPair (P.pairs pairing.now) (journals_of journals.now) a b) }
{
    let a = first_of(&Paired { pairing, journals }, journals)?;
    let first = record_of(journals, a)?;
    let b = first_of(
        &Beside {
            pairing,
            at: a,
            first,
        },
        journals,
    )?;
    Some((a, b))
}
