//! The trails of all sites, merged.
ghost use Rattle.std.specs.Prelude.{◌≡◌, ◌++◌, ◌<◌, ◌≤◌, length, map, IfOk, OnOk};
ghost use Rattle.walter_rules.specs.Merges.{merge as merge_of};
ghost use Rattle.walter_base.specs.Vectors.{most_sites};

use crate::copying::copy_entry;
use crate::trail::Trail;
use std::alloc::Global;
use std::marker::Model;
use walter_base::{Mem, SiteId};
use walter_rules::Entry;

/// The entries of several sites, each with its site. Contracts see the list of them.
#[derive(Debug, Drop)]
pub struct Merged {
    entries: Vec<(SiteId, Entry)>,
}

impl Model for Merged {
    ghost use Rattle.std.specs.Prelude.{List};
    ghost use Rattle.walter_rules.specs.Merges.{Named};

    ghost Value = { List Named };

    ghost view = { λ m. m.entries.items };
}

impl Merged {
    ghost use Rattle.std.specs.Prelude.{◌≡◌};

    pub fn as_slice(&self) -> &[(SiteId, Entry)]
        ensures { result.now ≡ self.now }
    {
        &self.entries
    }
}

/// Copies the entries of a site to the end.
fn add_trail(entries: &mut Vec<(SiteId, Entry)>, site: SiteId, trail: &Trail) -> Mem<()>
    ensures { OnOk result (entries.new.items ≡ entries.old.items ++ map (λ e. (site, e)) trail.now) }
{
    for entry in trail.as_slice() {
        entries.push((site, copy_entry(entry)?))?;
    }
    Ok(())
}

/// The merge of the trails of the sites 0, 1 and so on.
pub fn merge(alloc: Global, trails: &[Trail]) -> Mem<Merged>
    requires { length trails.now ≤ most_sites }
    ensures { IfOk result (λ merged. merged ≡ merge_of trails.now) }
{
    let mut entries = Vec::new(alloc);
    for (site, trail) in trails.iter().enumerate() {
        add_trail(&mut entries, SiteId(site as u8), trail)?;
    }
    entries.sort_by_key(|(site, entry)| (entry.stamp, site.0))?;
    Ok(Merged { entries })
}
