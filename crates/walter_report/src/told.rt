//! What the lines of all sites tell.
ghost use Rattle.std.specs.Prelude.{IfOk};
ghost use Rattle.walter_report.specs.Overviews.{TellEach};

use crate::overview::Overview;
use std::alloc::Global;
use walter_base::Mem;
use walter_trail::Trail;

// What the line of each site tells, where the catalog has so many.
pub(crate) fn overviews_of(alloc: Global, sites: u8, trails: &[Trail]) -> Mem<Vec<Overview>>
    ensures { IfOk result (λ overviews. TellEach overviews.items sites trails.now) }
{
    let mut overviews = Vec::new(alloc);
    for (site, trail) in trails.iter().enumerate() {
        overviews.push(Overview::from_trail(alloc, sites, site, trail.as_slice())?)?;
    }
    Ok(overviews)
}
