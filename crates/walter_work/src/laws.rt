//! Laws of these definitions.
ghost use Rattle.std.specs.Prelude.{◌∷◌, List, []};
ghost use Rattle.walter_base.specs.declared.names.SiteId.{SiteId};
ghost use Rattle.walter_link.specs.Pumps.{PumpValue, new_pump};
ghost use Rattle.walter_rules.specs.declared.entry.Entry.{Entry};
ghost use Rattle.walter_rules.specs.Trails.{opening};
ghost use Rattle.walter_scenario.specs.declared.scenario.Scenario.{Scenario};
ghost use Rattle.walter_work.specs.Worked.{IsWorked};
ghost use Rattle.walter_work.specs.Working.{IsWorking};

/// A site that has begun works, where nothing has come to its pump; and the trail of a site that works is worked.
/// `Told` is whatever it means that the site is told.
pub fn new_sites_work<Told>()
    ensures new { (t : Scenario) (i : SiteId)
        → IsWorking Told t i (opening ∷ []) (new_pump t.link i t.catalog.sites t.ticks) }
    ensures worked { (t : Scenario) (i : SiteId) (trail : List Entry) (pump : PumpValue)
        → IsWorking Told t i trail pump → IsWorked Told t i trail }
{}
