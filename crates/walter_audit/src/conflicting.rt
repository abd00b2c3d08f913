//! Whether two commits write one object, and neither has seen the other.
ghost use Rattle.std.specs.Prelude.{◌≡◌, ◌≤◌, ◌↔◌, IsTrue, IfSome, IfNone, Contains, length};
ghost use Rattle.walter_audit.specs.Firsts.{IsFirstPair};
ghost use Rattle.walter_audit.specs.Journals.{journals_of};
ghost use Rattle.walter_audit.specs.Questions.{DoConflictUnseen};
ghost use Rattle.walter_audit.specs.Reasons.{AreUnordered};
ghost use Rattle.walter_audit.specs.declared.finding.Named.{Named as Name};
ghost use Rattle.walter_base.specs.Values.{write_set, DoConflict};
ghost use Rattle.walter_base.specs.Vectors.{most_sites};

use crate::finding::Named;
use crate::pairing::{Pairing, first_pair};
use crate::told::Told;
use walter_base::{ObjId, Record, Update};

/// Whether one of the updates writes the object.
fn does_write(updates: &[Update], oid: ObjId) -> bool
    ensures { IsTrue result ↔ Contains (write_set updates.now) oid }
{
    for update in updates {
        if let Update::Write(written, _) = update {
            if *written == oid {
                return true;
            }
        }
    }
    false
}

/// Whether the updates write an object that the others write too.
fn do_conflict(updates: &[Update], others: &[Update]) -> bool
    ensures { IsTrue result ↔ DoConflict updates.now others.now }
{
    for update in updates {
        if let Update::Write(oid, _) = update {
            if does_write(others, *oid) {
                return true;
            }
        }
    }
    false
}

/// Two own commits that conflict, neither of which is seen by the other's start.
#[derive(Drop)]
struct Unseen;

impl Pairing for Unseen {
    ghost pairs = { λ q a first b second. DoConflictUnseen a first b second };

    fn asks(&self, a: Named, first: &Record, b: Named, second: &Record) -> bool {
        let Record::Own(seq, x) = first else {
            return false;
        };
        let Record::Own(other, y) = second else {
            return false;
        };
        a != b
            && y.start.vector().get(a.site) < *seq
            && x.start.vector().get(b.site) < *other
            && do_conflict(x.updates.as_slice(), y.updates.as_slice())
    }
}

/// The first two own commits that conflict, neither of which is seen by the other's start. It compares all pairs.
pub fn first_conflict(journals: &[Told]) -> Option<(Named, Named)>
    requires { length journals.now ≤ most_sites }
    ensures first { IfSome result (λ (a, b). IsFirstPair (AreUnordered (journals_of journals.now)) a b) }
    ensures none { IfNone result ((a b : Name) → ¬ AreUnordered (journals_of journals.now) a b) }
{
    first_pair(&Unseen, journals)
}
