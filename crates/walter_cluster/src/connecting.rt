//! Lanes from each site to each.
ghost use Rattle.std.specs.Prelude.{◌≡◌, ℕ, [], vec_len, IfOk};
ghost use Rattle.walter_cluster.specs.Lanes.{AddsRow, AreJoined, column_of, rows_in, columns_in};

use std::alloc::Global;
use walter_base::Mem;
use walter_lane::{Inbound, Outbound, pair};

/// A lane from each of so many sites to each: their ends at the senders, by sender and receiver, and those at the
/// receivers, by receiver and sender.
pub fn connect(alloc: Global, sites: usize) -> Mem<(Vec<Vec<Outbound>>, Vec<Vec<Inbound>>)>
    ensures { IfOk result (λ ends. AreJoined sites sites (rows_in ends.0.items) (columns_in ends.1.items)) }
{
    let mut rows = Vec::new(alloc);
    let mut columns = make_columns(alloc, sites)?;
    for _ in 0..sites {
        rows.push(add_row(alloc, &mut columns)?)?;
    }
    Ok((rows, columns))
}

// So many columns without ends.
fn make_columns(alloc: Global, sites: usize) -> Mem<Vec<Vec<Inbound>>>
    ensures sites { IfOk result (λ columns. vec_len columns ≡ sites) }
    ensures empty { IfOk result (λ columns. (to : ℕ) → column_of (columns_in columns.items) to ≡ []) }
{
    let mut columns = Vec::new(alloc);
    for _ in 0..sites {
        columns.push(Vec::new(alloc))?;
    }
    Ok(columns)
}

// The lanes from one more site to each.
fn add_row(alloc: Global, columns: &mut Vec<Vec<Inbound>>) -> Mem<Vec<Outbound>>
    ensures { IfOk result (λ row.
        AddsRow (columns_in columns.old.items) (columns_in columns.new.items) row.items (vec_len columns.old)) }
{
    let mut row = Vec::new(alloc);
    let sites = columns.len();
    for to in 0..sites {
        let (outbound, inbound) = pair(alloc)?;
        row.push(outbound)?;
        columns[to].push(inbound)?;
    }
    Ok(row)
}
