//! Each site gets the connections of its clients.
ghost use Rattle.std.specs.Prelude.{◌≡◌, ◌<◌, length, replicate, None, IfOk, All};
ghost use Rattle.walter_scenario.specs.declared.scenario.Client.{Client};
ghost use Rattle.walter_cluster.specs.Seats.{lists_in, HavePlaces, AreSeated, AreEmpty, AreAtHome};

use std::alloc::Global;
use walter_base::Mem;
use walter_scenario::Client;

/// The connections of the clients of each site, by the clients' numbers.
pub fn seat_all<C: Drop>(
    alloc: Global,
    clients: &[Client],
    conns: Vec<C>,
    sites: usize,
) -> Mem<Vec<Vec<Option<C>>>>
    requires within { All (λ (client : Client). client.site.0 < sites) clients.now }
    requires conns { length conns.items ≡ length clients.now }
    ensures places { IfOk result (λ lists. HavePlaces sites (length clients.now) (lists_in lists.items)) }
    ensures seated { IfOk result (λ lists.
        AreSeated (length clients.now) clients.now conns.items (lists_in lists.items)) }
    ensures alone { IfOk result (λ lists. AreAtHome clients.now (lists_in lists.items)) }
{
    let mut lists = make_lists(alloc, sites, clients.len())?;
    let mut number = 0;
    for conn in conns {
        let home = usize::from(clients[number].site.0);
        lists[home][number] = Some(conn);
        number += 1;
    }
    Ok(lists)
}

// A list for each site, with a place for each client.
fn make_lists<C: Drop>(alloc: Global, sites: usize, clients: usize) -> Mem<Vec<Vec<Option<C>>>>
    ensures places { IfOk result (λ lists. HavePlaces sites clients (lists_in lists.items)) }
    ensures empty { IfOk result (λ lists. AreEmpty (lists_in lists.items)) }
{
    let mut lists = Vec::new(alloc);
    for _ in 0..sites {
        lists.push(make_list(alloc, clients)?)?;
    }
    Ok(lists)
}

fn make_list<C: Drop>(alloc: Global, clients: usize) -> Mem<Vec<Option<C>>>
    ensures { IfOk result (λ list. list.items ≡ replicate clients None) }
{
    let mut list = Vec::new(alloc);
    for _ in 0..clients {
        list.push(None)?;
    }
    Ok(list)
}
