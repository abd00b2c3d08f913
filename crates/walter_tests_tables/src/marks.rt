//! A test of the durable mark.
ghost use Rattle.std.specs.Prelude.{◌≡◌, ◌<◌, ◌≤◌};
ghost use Rattle.walter_base.specs.Vectors.{most_sites};

use std::alloc::Global;
use std::test::Fail;
use walter_base::{Mem, SiteId};
use walter_durable::{Durable, PreferredSites};

/// How many sites there are, how many may be lost, where two own commits of site 0 are preferred, and what peers have
/// acknowledged; and how many of the two are durable.
static ROWS: [(u8, u8, [u8; 2], &[(u8, u64)], u64); 13] = [
    (3, 0, [0, 0], &[], 2),
    (3, 0, [0, 1], &[(2, 2)], 1),
    (3, 0, [1, 0], &[(2, 2)], 0),
    (3, 1, [0, 0], &[], 0),
    (3, 1, [0, 0], &[(1, 1)], 1),
    (3, 1, [0, 0], &[(1, 1), (2, 2)], 2),
    (3, 1, [0, 0], &[(1, 2), (1, 1)], 2),
    (3, 1, [0, 0], &[(1, 3)], 0),
    (5, 2, [0, 0], &[(3, 2)], 0),
    (5, 2, [0, 0], &[(3, 2), (4, 1)], 1),
    (5, 2, [4, 1], &[(3, 2), (4, 2)], 1),
    (16, 1, [15, 0], &[(15, 1)], 1),
    (16, 2, [15, 15], &[(13, 2), (14, 2)], 0),
];

/// Commits one more own commit, of objects that are preferred at the site.
fn commit(table: &mut Durable, preferred: u8) -> Mem<()>
    ensures { table.new.holdings.sites ≡ table.old.holdings.sites }
{
    let mut sites = PreferredSites::none();
    sites.push(SiteId(preferred));
    table.reserve()?;
    table.commit_own(sites);
    Ok(())
}

/// The durable mark of site 0 with two own commits, preferred at these sites, and these acknowledgements.
fn mark(alloc: Global, sites: u8, tolerated: u8, preferred: [u8; 2], acks: &[(u8, u64)]) -> Mem<u64>
    requires few { sites ≤ most_sites }
    requires fewer { tolerated < sites }
{
    let mut table = Durable::new(alloc, SiteId(0), sites, tolerated);
    commit(&mut table, preferred[0])?;
    commit(&mut table, preferred[1])?;
    for (peer, got) in acks {
        if *peer < sites {
            table.hear_acknowledged(SiteId(*peer), *got);
        }
    }
    Ok(table.durable_mark())
}

#[test]
fn commits_are_durable_where_enough_hold_them(rt: HostRuntime) -> Result<(), Fail> {
    for &(sites, tolerated, preferred, acks, wanted) in &ROWS {
        assert!(rt; tolerated < sites && sites <= 16);
        let found = mark(rt.alloc(), sites, tolerated, preferred, acks)?;
        assert!(rt; found == wanted);
    }
    Ok(())
}
