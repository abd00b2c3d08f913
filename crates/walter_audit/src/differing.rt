//! Whether each commit that a site received is as its own site made it.
ghost use Rattle.std.specs.Prelude.{◌≡◌, ◌≢◌, ◌≤◌, ◌↔◌, IsTrue, Some, IfSome, IfNone, length};
ghost use Rattle.walter_audit.specs.Firsts.{IsFirstPair};
ghost use Rattle.walter_audit.specs.Journals.{journals_of, made_in, AreNumbered};
ghost use Rattle.walter_audit.specs.Questions.{IsOther, DoDiffer};
ghost use Rattle.walter_audit.specs.Reasons.{IsDifferent};
ghost use Rattle.walter_audit.specs.declared.finding.Named.{Named as Name};
ghost use Rattle.walter_base.specs.declared.transaction.Tx.{Tx as Transaction};
ghost use Rattle.walter_base.specs.Vectors.{most_sites};

use crate::equal::is_equal;
use crate::finding::Named;
use crate::missing::made;
use crate::pairing::{Pairing, first_pair};
use crate::question::{Question, first_of};
use crate::told::Told;
use walter_base::{Record, SiteId, Tx};

/// Whether the site has an own commit of this number, and it is another one.
fn is_other(journals: &[Told], from: SiteId, seq: u64, tx: &Tx) -> bool
    ensures { IsTrue result ↔ ((own : Transaction)
        × (made_in (journals_of journals.now from) seq ≡ Some own) × (tx.now ≢ own)) }
{
    match made(journals, from, seq) {
        Some(own) => !is_equal(tx, own),
        None => false,
    }
}

/// Whether a record receives a commit otherwise than it was made.
#[derive(Drop)]
struct Differing<'a> {
    journals: &'a [Told],
}

impl<'a> Question for Differing<'a> {
    ghost holds = { λ q at journaled. IsOther (journals_of q.journals.now) journaled };

    fn asks(&self, _at: Named, journaled: &Record) -> bool {
        match journaled {
            Record::Got(from, seq, tx) => is_other(self.journals, *from, *seq, tx),
            _ => false,
        }
    }
}

/// A commit as it was received, and as it was made.
#[derive(Drop)]
struct Different;

impl Pairing for Different {
    ghost pairs = { λ q a first b second. DoDiffer a first b second };

    fn asks(&self, _a: Named, first: &Record, b: Named, second: &Record) -> bool {
        let Record::Got(from, seq, tx) = first else {
            return false;
        };
        let Record::Own(number, own) = second else {
            return false;
        };
        *from == b.site && seq == number && !is_equal(tx, own)
    }
}

/// The first record that receives a commit otherwise than its site made it, with that one.
pub fn first_differing(journals: &[Told]) -> Option<(Named, Named)>
    requires most { length journals.now ≤ most_sites }
    requires numbered { AreNumbered (journals_of journals.now) }
    ensures first { IfSome result (λ (a, b). IsFirstPair (IsDifferent (journals_of journals.now)) a b) }
    ensures none { IfNone result ((a b : Name) → ¬ IsDifferent (journals_of journals.now) a b) }
{
    first_of(&Differing { journals }, journals)?;
    first_pair(&Different, journals)
}
