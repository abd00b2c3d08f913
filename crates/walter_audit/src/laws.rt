//! That what a cluster leaves gives no reason, and that an order without one spells a legal history.
ghost use Rattle.std.specs.Prelude.{List};
ghost use Rattle.walter_audit.specs.Contents.{Contents, AreAllRead, AreLeft};
ghost use Rattle.walter_audit.specs.Findings.{NoneStands, IsHistoryOf};
ghost use Rattle.walter_audit.specs.Journals.{Journals};
ghost use Rattle.walter_audit.specs.Orders.{Taken, IsOrder, history};
ghost use Rattle.walter_base.specs.declared.catalog.Catalog.{Catalog};
ghost use Rattle.walter_base.specs.declared.names.SiteId.{SiteId};
ghost use Rattle.walter_linked.specs.Catalogs.{IsWhole};
ghost use Rattle.walter_rules.specs.declared.entry.Entry.{Entry};
ghost use Rattle.walter_rules.specs.Layouts.{Layout};

/// What right and linked trails leave on the disks of their sites, each with the record in flight or without it, gives
/// no reason to say that it tells no history.
pub fn journals_of_runs_are_clear()
    ensures { (catalog : Catalog) (layouts : SiteId → Layout) (trails : List (List Entry)) (contents : Contents)
        → IsWhole catalog → AreLeft catalog layouts trails contents → NoneStands catalog contents }
{}

/// An order of all records of journals, where no reason stands, spells a history that parallel snapshot isolation
/// allows, and it is that of the journals: each site's log has what its records commit, in their order.
pub fn orders_tell_histories()
    ensures { (catalog : Catalog) (contents : Contents) (journals : Journals) → AreAllRead catalog contents journals
        → NoneStands catalog contents → (order : List Taken) → IsOrder catalog journals order
        → IsHistoryOf journals (history journals order) }
{}
