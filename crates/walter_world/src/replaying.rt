//! What a trail tells of the site whose records it has.
ghost use Rattle.std.specs.Prelude.{◌<◌, ◌≤◌, ◌++◌, ◌∷◌, [], List, IfOk, OnOk};
ghost use Rattle.walter_base.specs.Vectors.{most_sites};
ghost use Rattle.walter_base.specs.declared.catalog.Catalog.{Catalog};
ghost use Rattle.walter_base.specs.declared.message.Record.{Record as Written};
ghost use Rattle.walter_base.specs.declared.names.SiteId.{SiteId};
ghost use Rattle.walter_world.specs.Records.{CanBeReplayed, IsTold, one_of, records_of};

use std::alloc::Global;
use walter_base::{Catalog, MaybeRecord, Mem, NoMemory, Record, SiteId};
use walter_rules::Entry;
use walter_tables::{ReplayFault, Tables};

/// The tables that records tell, and how many records these are. Contracts say by `IsTold` which records.
#[derive(Drop)]
pub(crate) struct Recovery {
    pub tables: Tables,
    pub count: u64,
}

/// What the records of a trail tell.
pub(crate) fn told_by(
    alloc: Global,
    catalog: &Catalog,
    id: SiteId,
    entries: &[Entry],
) -> Mem<Recovery>
    requires here { id.0 < catalog.now.sites }
    requires most { catalog.now.sites ≤ most_sites }
    requires fewer { catalog.now.tolerated < catalog.now.sites }
    requires can { CanBeReplayed catalog.now id (records_of entries.now) }
    ensures { IfOk result (IsTold catalog.now id (records_of entries.now)) }
{
    let mut told = Recovery {
        tables: Tables::new(alloc, catalog.clone()?, id)?,
        count: 0,
    };
    for entry in entries {
        replay_any(&mut told, &entry.came.kept)?;
        replay_any(&mut told, &entry.came.wrote)?;
    }
    Ok(told)
}

// Replays a record, where there is one.
fn replay_any(told: &mut Recovery, rec: &MaybeRecord) -> Mem<()>
    requires { (catalog : Catalog) × (i : SiteId) × (records : List Written) × IsTold catalog i records told.old
        × CanBeReplayed catalog i (records ++ one_of rec.now) }
    ensures { (catalog : Catalog) (i : SiteId) (records : List Written) → IsTold catalog i records told.old
        → OnOk result (IsTold catalog i (records ++ one_of rec.now) told.new) }
{
    match rec.as_ref() {
        Some(rec) => replay(told, rec),
        None => Ok(()),
    }
}

/// Replays a record.
pub(crate) fn replay(told: &mut Recovery, rec: &Record) -> Mem<()>
    requires { (catalog : Catalog) × (i : SiteId) × (records : List Written) × IsTold catalog i records told.old
        × CanBeReplayed catalog i (records ++ rec.now ∷ []) }
    ensures { (catalog : Catalog) (i : SiteId) (records : List Written) → IsTold catalog i records told.old
        → OnOk result (IsTold catalog i (records ++ rec.now ∷ []) told.new) }
{
    // No memory holds so many records.
    if told.count >= u64::MAX - 1 {
        return Err(NoMemory);
    }
    match told.tables.replay(rec.clone()?) {
        Ok(()) => {
            told.count += 1;
            Ok(())
        }
        Err(ReplayFault::NoMemory) => Err(NoMemory),
        Err(ReplayFault::Unfit) => unreachable!(),
    }
}
