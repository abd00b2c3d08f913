//! The pumps of a scenario's sites.
ghost use Rattle.std.specs.Prelude.{◌≡◌, IfOk};
ghost use Rattle.walter_cluster.specs.Pumps.{new_pumps};

use std::alloc::Global;
use walter_base::{Mem, SiteId};
use walter_link::Pump;
use walter_scenario::Scenario;

/// A pump for each site of a scenario, to which nothing has come.
pub fn make_pumps(alloc: Global, scenario: &Scenario) -> Mem<Vec<Pump>>
    ensures { IfOk result (λ pumps. pumps.items ≡ new_pumps scenario.now) }
{
    let sites = scenario.catalog.sites;
    let mut pumps = Vec::with_capacity(alloc, usize::from(sites))?;
    for site in 0..sites {
        pumps.push_reserved(Pump::new(alloc, scenario.link, SiteId(site), sites, scenario.ticks)?);
    }
    Ok(pumps)
}
