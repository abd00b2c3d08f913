//! Whether each commit that a site received or saw was made.
ghost use Rattle.std.specs.Prelude.{◌≡◌, ◌≤◌, MatchOption, Some, None, IfSome, IfNone, length};
ghost use Rattle.walter_audit.specs.Firsts.{IsFirst};
ghost use Rattle.walter_audit.specs.Journals.{journals_of, made_in, AreNumbered};
ghost use Rattle.walter_audit.specs.Questions.{Lacks};
ghost use Rattle.walter_audit.specs.Reasons.{IsMissing};
ghost use Rattle.walter_audit.specs.declared.finding.Named.{Named as Name};
ghost use Rattle.walter_base.specs.Vectors.{most_sites};

use crate::finding::Named;
use crate::question::{Question, first_of};
use crate::told::Told;
use walter_base::{Record, SiteId, Tx};

/// The own commit of a site of this number.
pub fn made(journals: &[Told], site: SiteId, seq: u64) -> Option<&Tx>
    ensures { MatchOption result (made_in (journals_of journals.now site) seq ≡ None)
        (λ tx. made_in (journals_of journals.now site) seq ≡ Some tx.now) }
{
    let told = journals.get(usize::from(site.0))?;
    told.made(seq)
}

/// Whether a record receives or sees a commit that wasn't made.
#[derive(Drop)]
struct Lacking<'a> {
    journals: &'a [Told],
}

impl<'a> Question for Lacking<'a> {
    ghost holds = { λ q at journaled. Lacks (journals_of q.journals.now) journaled };

    fn asks(&self, _at: Named, journaled: &Record) -> bool {
        match journaled {
            Record::Got(from, seq, _) | Record::Seen(from, seq) => {
                made(self.journals, *from, *seq).is_none()
            }
            _ => false,
        }
    }
}

/// The first record that receives or sees a commit that its site hasn't made.
pub fn first_missing(journals: &[Told]) -> Option<Named>
    requires most { length journals.now ≤ most_sites }
    requires numbered { AreNumbered (journals_of journals.now) }
    ensures first { IfSome result (IsFirst (IsMissing (journals_of journals.now))) }
    ensures none { IfNone result ((a : Name) → ¬ IsMissing (journals_of journals.now) a) }
{
    first_of(&Lacking { journals }, journals)
}
