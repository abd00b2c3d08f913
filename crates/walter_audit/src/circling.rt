//! The circle in which sites wait for each other's commits.
ghost use Rattle.std.specs.Prelude.{◌≡◌, ◌≤◌, ◌↔◌, ℕ, IsTrue, IfSome, IfNone, IfOk, length};
ghost use Rattle.walter_audit.specs.Circles.{IsOwnOf, IsAwaited, AreQueues};
ghost use Rattle.walter_audit.specs.Firsts.{IsFirstPair};
ghost use Rattle.walter_audit.specs.Journals.{journals_of, AreNumbered};
ghost use Rattle.walter_audit.specs.Orders.{IsOrder, IsCycle};
ghost use Rattle.walter_audit.specs.Reasons.{IsMissing};
ghost use Rattle.walter_audit.specs.Walks.{IsWalk};
ghost use Rattle.walter_audit.specs.declared.finding.Named.{Named as Name};
ghost use Rattle.walter_base.specs.Vectors.{most_sites};

use crate::finding::Named;
use crate::item::{Item, Queue};
use crate::question::{Question, first_in};
use crate::told::Told;
use crate::walking::{Walk, first_left};
use walter_base::{Catalog, Mem, Record, SiteId};

/// Whether a record is the own commit of this number.
#[derive(Drop)]
struct Numbered {
    seq: u64,
}

impl Question for Numbered {
    ghost holds = { λ q at journaled. IsOwnOf q.seq journaled };

    fn asks(&self, _at: Named, journaled: &Record) -> bool {
        match journaled {
            Record::Own(seq, _) => *seq == self.seq,
            _ => false,
        }
    }
}

/// The record of an item of the site that is an arrival, and the commit that it waits for.
fn awaited(journals: &[Told], site: SiteId, item: &Item) -> Option<(Named, Named)>
    ensures some { IfSome result (λ (a, b). IsAwaited (journals_of journals.now) site item.now a b) }
    ensures none { IfNone result ((a b : Name) → ¬ IsAwaited (journals_of journals.now) site item.now a b) }
{
    let Item::Arrives(index, from, seq) = item else {
        return None;
    };
    let told = journals.get(usize::from(from.0))?;
    let place = first_in(&Numbered { seq: *seq }, *from, told.records())?;
    Some((
        Named {
            site,
            index: *index,
        },
        Named {
            site: *from,
            index: place,
        },
    ))
}

/// Where something is left of some site's items: the next one of the least such site, and the commit that it waits for.
pub fn find_circle(
    catalog: &Catalog,
    journals: &[Told],
    queues: &[Queue],
    walk: &Walk,
) -> Mem<Option<(Named, Named)>>
    requires few { length queues.now ≤ most_sites }
    requires numbered { AreNumbered (journals_of journals.now) }
    requires made { (a : Name) → ¬ IsMissing (journals_of journals.now) a }
    requires queues { AreQueues catalog.now (journals_of journals.now) queues.now }
    requires walked { IsWalk queues.now walk.now.order.items walk.now.cursors.items }
    ensures first { IfOk result (λ found.
        IfSome found (λ (a, b). IsFirstPair (IsCycle catalog.now (journals_of journals.now)) a b)) }
    ensures none { IfOk result (λ found.
        IfNone found (IsOrder catalog.now (journals_of journals.now) walk.now.order.items)) }
{
    let Some((n, item)) = first_left(queues, &walk.cursors)? else {
        return Ok(None);
    };
    Ok(awaited(journals, SiteId(n as u8), &item))
}
