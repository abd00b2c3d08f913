//! Right and linked trails, merged by their stamps, are a run.
ghost use Rattle.std.specs.Prelude.{List, reverse};
ghost use Rattle.walter_base.specs.declared.catalog.Catalog.{Catalog};
ghost use Rattle.walter_base.specs.declared.names.SiteId.{SiteId};
ghost use Rattle.walter_rules.specs.declared.entry.Entry.{Entry};
ghost use Rattle.walter_rules.specs.Layouts.{Layout};
ghost use Rattle.walter_rules.specs.Merges.{merge};
ghost use Rattle.walter_runs.specs.Runs.{IsRun, AreRightTrails};

/// The merge of right and linked trails, newest first, is a run.
pub fn merges_are_runs()
    ensures { (catalog : Catalog) (layouts : SiteId → Layout) (trails : List (List Entry))
        → AreRightTrails catalog layouts trails → IsRun catalog layouts (reverse (merge trails)) }
{}
