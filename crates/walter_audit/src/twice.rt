//! Whether a transaction was committed twice.
ghost use Rattle.std.specs.Prelude.{◌≡◌, ◌≤◌, IsTrue, IfSome, IfNone, IfOk, length};
ghost use Rattle.walter_audit.specs.Firsts.{IsFirstPair};
ghost use Rattle.walter_audit.specs.Journals.{journals_of, AreAtHome};
ghost use Rattle.walter_audit.specs.Questions.{AreOneTwice, AreApart};
ghost use Rattle.walter_audit.specs.Reasons.{AreTwice};
ghost use Rattle.walter_audit.specs.declared.finding.Named.{Named as Name};
ghost use Rattle.walter_base.specs.declared.names.SiteId.{SiteId as Site};
ghost use Rattle.walter_base.specs.Vectors.{most_sites};

use crate::finding::Named;
use crate::pairing::{Pairing, first_pair};
use crate::told::Told;
use std::alloc::Global;
use std::collections::HashSet;
use walter_base::{Mem, Record};

/// Two own commits of one transaction.
#[derive(Drop)]
struct OneTwice;

impl Pairing for OneTwice {
    ghost pairs = { λ q a first b second. AreOneTwice a first b second };

    fn asks(&self, a: Named, first: &Record, b: Named, second: &Record) -> bool {
        let Record::Own(_, x) = first else {
            return false;
        };
        let Record::Own(_, y) = second else {
            return false;
        };
        a != b && x.tid == y.tid
    }
}

/// Whether the own commits of a site are of different transactions.
fn are_apart(alloc: Global, records: &[Record]) -> Mem<bool>
    ensures { IfOk result (λ apart. IsTrue apart → AreApart records.now) }
{
    let mut names = HashSet::new(alloc);
    for journaled in records {
        if let Record::Own(_, tx) = journaled {
            if !names.insert(tx.tid)? {
                return Ok(false);
            }
        }
    }
    Ok(true)
}

/// Whether those of each site are.
fn are_all_apart(alloc: Global, journals: &[Told]) -> Mem<bool>
    ensures { IfOk result (λ apart. IsTrue apart → (k : Site) → AreApart (journals_of journals.now k)) }
{
    for told in journals {
        if !are_apart(alloc, told.records())? {
            return Ok(false);
        }
    }
    Ok(true)
}

/// The first two own commits of one transaction.
pub fn first_twice(alloc: Global, journals: &[Told]) -> Mem<Option<(Named, Named)>>
    requires most { length journals.now ≤ most_sites }
    requires home { AreAtHome (journals_of journals.now) }
    ensures first { IfOk result (λ found.
        IfSome found (λ (a, b). IsFirstPair (AreTwice (journals_of journals.now)) a b)) }
    ensures none { IfOk result (λ found. IfNone found ((a b : Name) → ¬ AreTwice (journals_of journals.now) a b)) }
{
    if are_all_apart(alloc, journals)? {
        return Ok(None);
    }
    Ok(first_pair(&OneTwice, journals))
}
