//! The audit: whether the journals of all sites tell a legal history, in which order, and if not, why not.
ghost use Rattle.std.specs.Prelude.{◌≡◌, ◌≤◌, ℕ, List, IsTrue, IfSome, IfNone, IfOk, IfErr, length};
ghost use Rattle.walter_audit.specs.Circles.{AreQueues};
ghost use Rattle.walter_audit.specs.Contents.{Contents, AreAllRead, AreLeft};
ghost use Rattle.walter_audit.specs.Findings.{IsYes, IsNo, IfYes, IfNo, IsFound, AreSound};
ghost use Rattle.walter_audit.specs.Firsts.{IsFirstPair};
ghost use Rattle.walter_audit.specs.Journals.{journals_of, AreAmong};
ghost use Rattle.walter_audit.specs.Orders.{IsOrder};
ghost use Rattle.walter_audit.specs.Reading.{contents_of};
ghost use Rattle.walter_audit.specs.Reasons.{AreUnordered};
ghost use Rattle.walter_audit.specs.declared.finding.Finding.TheVariants.{Yes, No};
ghost use Rattle.walter_audit.specs.declared.finding.Named.{Named as Name};
ghost use Rattle.walter_audit.specs.declared.finding.Reason.TheVariants.{Differs, Twice, Start, Conflict, Cycle};
ghost use Rattle.walter_base.specs.declared.names.SiteId.{SiteId as Site};
ghost use Rattle.walter_base.specs.Vectors.{most_sites};
ghost use Rattle.walter_linked.specs.Catalogs.{IsWhole};
ghost use Rattle.walter_rules.specs.declared.entry.Entry.{Entry};
ghost use Rattle.walter_rules.specs.Layouts.{Layout};

use crate::circling::find_circle;
use crate::conflicting::first_conflict;
use crate::content::Content;
use crate::differing::first_differing;
use crate::finding::{Finding, Named, Reason};
use crate::item::{Item, Queue};
use crate::looking::see_last;
use crate::missing::first_missing;
use crate::queueing::queue_of;
use crate::reading::read_all;
use crate::starting::first_unstarted;
use crate::told::Told;
use crate::twice::first_twice;
use crate::walking::take_items;
use std::alloc::Global;
use walter_base::{Catalog, Mem, SiteId};

/// The items of each site.
fn queues_of(alloc: Global, catalog: &Catalog, journals: &[Told]) -> Mem<Vec<Queue>>
    requires few { length journals.now ≤ most_sites }
    requires most { catalog.now.sites ≤ most_sites }
    requires among { (k : Site) → AreAmong catalog.now.sites (journals_of journals.now k) }
    ensures many { IfOk result (λ queues. length queues.items ≡ length journals.now) }
    ensures each { IfOk result (λ queues. AreQueues catalog.now (journals_of journals.now) queues.items) }
{
    let mut queues = Vec::new(alloc);
    for (number, told) in journals.iter().enumerate() {
        queues.push(queue_of(alloc, catalog, SiteId(number as u8), told.records())?)?;
    }
    Ok(queues)
}

/// The first two own commits that conflict, neither of which is seen by the other's start. All pairs are compared only
/// where the quick look along a whole order doesn't tell that there are none.
fn find_conflict(
    alloc: Global,
    catalog: &Catalog,
    journals: &[Told],
    order: &[(SiteId, Item)],
    whole: bool,
) -> Mem<Option<(Named, Named)>>
    requires few { length journals.now ≤ most_sites }
    requires sound { (contents : Contents) × AreSound catalog.now (journals_of journals.now) contents Conflict }
    requires order { IsTrue whole → IsOrder catalog.now (journals_of journals.now) order.now }
    ensures first { IfOk result (λ found.
        IfSome found (λ (a, b). IsFirstPair (AreUnordered (journals_of journals.now)) a b)) }
    ensures none { IfOk result (λ found.
        IfNone found ((a b : Name) → ¬ AreUnordered (journals_of journals.now) a b)) }
{
    if whole {
        if see_last(alloc, order)? {
            return Ok(None);
        }
    }
    Ok(first_conflict(journals))
}

/// The finding where no reason before a circle stands: the circle, if there is one, and else the order.
fn conclude(circle: Option<(Named, Named)>, order: Vec<(SiteId, Item)>) -> Finding
    ensures circle { IfSome circle (λ (a, b). result ≡ No Cycle a b) }
    ensures order { IfNone circle (result ≡ Yes order) }
{
    match circle {
        Some((a, b)) => Finding::No {
            reason: Reason::Cycle,
            a,
            b,
        },
        None => Finding::Yes(order),
    }
}

/// The finding where no reason before a conflict stands.
fn find_order(alloc: Global, catalog: &Catalog, journals: &[Told]) -> Mem<Finding>
    requires few { length journals.now ≤ most_sites }
    requires most { catalog.now.sites ≤ most_sites }
    requires sound { (contents : Contents) × AreSound catalog.now (journals_of journals.now) contents Conflict }
    ensures { (contents : Contents) → AreSound catalog.now (journals_of journals.now) contents Conflict
        → IfOk result (IsFound catalog.now contents) }
{
    let queues = queues_of(alloc, catalog, journals)?;
    let walk = take_items(alloc, &queues)?;
    let circle = find_circle(catalog, journals, &queues, &walk)?;
    let whole = circle.is_none();
    if let Some((a, b)) = find_conflict(alloc, catalog, journals, &walk.order, whole)? {
        return Ok(Finding::No {
            reason: Reason::Conflict,
            a,
            b,
        });
    }
    Ok(conclude(circle, walk.order))
}

/// The finding where no reason before a start stands.
fn find_start(alloc: Global, catalog: &Catalog, journals: &[Told]) -> Mem<Finding>
    requires few { length journals.now ≤ most_sites }
    requires most { catalog.now.sites ≤ most_sites }
    requires sound { (contents : Contents) × AreSound catalog.now (journals_of journals.now) contents Start }
    ensures { (contents : Contents) → AreSound catalog.now (journals_of journals.now) contents Start
        → IfOk result (IsFound catalog.now contents) }
{
    if let Some(a) = first_unstarted(alloc, catalog, journals)? {
        return Ok(Finding::No {
            reason: Reason::Start,
            a,
            b: a,
        });
    }
    find_order(alloc, catalog, journals)
}

/// The finding where nothing is missing, and nothing differs.
fn find_twice(alloc: Global, catalog: &Catalog, journals: &[Told]) -> Mem<Finding>
    requires few { length journals.now ≤ most_sites }
    requires most { catalog.now.sites ≤ most_sites }
    requires sound { (contents : Contents) × AreSound catalog.now (journals_of journals.now) contents Twice }
    ensures { (contents : Contents) → AreSound catalog.now (journals_of journals.now) contents Twice
        → IfOk result (IsFound catalog.now contents) }
{
    if let Some((a, b)) = first_twice(alloc, journals)? {
        return Ok(Finding::No {
            reason: Reason::Twice,
            a,
            b,
        });
    }
    find_start(alloc, catalog, journals)
}

/// The finding where nothing is missing.
fn find_differing(alloc: Global, catalog: &Catalog, journals: &[Told]) -> Mem<Finding>
    requires few { length journals.now ≤ most_sites }
    requires most { catalog.now.sites ≤ most_sites }
    requires sound { (contents : Contents) × AreSound catalog.now (journals_of journals.now) contents Differs }
    ensures { (contents : Contents) → AreSound catalog.now (journals_of journals.now) contents Differs
        → IfOk result (IsFound catalog.now contents) }
{
    if let Some((a, b)) = first_differing(journals) {
        return Ok(Finding::No {
            reason: Reason::Differs,
            a,
            b,
        });
    }
    find_twice(alloc, catalog, journals)
}

/// The finding where all bodies can be read.
fn find(alloc: Global, catalog: &Catalog, journals: &[Told]) -> Mem<Finding>
    requires few { length journals.now ≤ most_sites }
    requires most { catalog.now.sites ≤ most_sites }
    requires read { (contents : Contents) × AreAllRead catalog.now contents (journals_of journals.now) }
    ensures { (contents : Contents) → AreAllRead catalog.now contents (journals_of journals.now)
        → IfOk result (IsFound catalog.now contents) }
{
    if let Some(a) = first_missing(journals) {
        return Ok(Finding::No {
            reason: Reason::Missing,
            a,
            b: a,
        });
    }
    find_differing(alloc, catalog, journals)
}

/// Whether the journals of all sites tell a legal history: in which order, or why not.
pub fn audit(alloc: Global, catalog: &Catalog, contents: &[Content]) -> Mem<Finding>
    requires most { catalog.now.sites ≤ most_sites }
    requires each { length contents.now ≡ catalog.now.sites }
    ensures yes { IfOk result (λ finding. IfYes finding (IsYes catalog.now (contents_of contents.now))) }
    ensures no { IfOk result (λ finding. IfNo finding (IsNo catalog.now (contents_of contents.now))) }
    ensures never { (layouts : Site → Layout) (trails : List (List Entry)) → IsWhole catalog.now
        → AreLeft catalog.now layouts trails (contents_of contents.now)
        → IfOk result (λ finding. IfNo finding (λ reason a b. ⊥)) }
{
    let read = read_all(alloc, catalog, contents)?;
    match read {
        Ok(journals) => find(alloc, catalog, &journals),
        Err(a) => Ok(Finding::No {
            reason: Reason::Unreadable,
            a,
            b: a,
        }),
    }
}
