//! The site that the bodies of a journal tell.
ghost use Rattle.std.specs.Prelude.{◌≡◌, ◌≤◌, ◌<◌, map, IfOk, IfErr, IfSome, OnOk};
ghost use Rattle.walter_tables.specs.Sites.{site_of, catalog_of};
ghost use Rattle.walter_engine.specs.Effects.{IsRefusedOver};
ghost use Rattle.walter_engine.specs.Replays.{Takes, IsUnfit, Tells, IsReadyOver};
ghost use Rattle.walter_engine.specs.Contents.{says_again};
ghost use Rattle.walter_rules.specs.Layouts.{in_force};
ghost use Rattle.walter_base.specs.Sizes.{most_in};

use crate::answers::RefusedRestart;
use std::alloc::Global;
use walter_base::{Catalog, Format, NoMemory, Record, SiteId};
use walter_machine::{BootFault, Ready};
use walter_tables::{ReplayFault, Tables};

/// A restart that is ready behind these bodies, whose journal has a header that names this format, and the format of its
/// record. There is none where it is refused for what they are, or memory ran out.
pub(crate) fn ready_over(
    alloc: Global,
    catalog: &Catalog,
    id: SiteId,
    bodies: &[Vec<u8>],
    header: Format,
) -> Result<(Ready, Format), Option<RefusedRestart>>
    requires here { id.0 < catalog.now.sites }
    requires most { catalog.now.sites ≤ most_in header }
    requires fewer { catalog.now.tolerated < catalog.now.sites }
    ensures ready { IfOk result (λ ready.
        IsReadyOver header catalog.now id (map (λ body. body.items) bodies.now) ready.0 ready.1) }
    ensures refused { IfErr result (λ why.
        IfSome why (IsRefusedOver header catalog.now id (map (λ body. body.items) bodies.now))) }
{
    let tables = match replay_all(alloc, catalog, id, bodies, header) {
        Ok(tables) => tables,
        Err(why) => return Err(why),
    };
    let format = later_of(header, tables.format());
    match Ready::boot(alloc, tables) {
        Ok(ready) => Ok((ready, format)),
        Err(BootFault::LastEpoch) => Err(Some(RefusedRestart::LastEpoch)),
        Err(BootFault::NoMemory) => Err(None),
    }
}

// The tables of the site that these bodies tell.
fn replay_all(
    alloc: Global,
    catalog: &Catalog,
    id: SiteId,
    bodies: &[Vec<u8>],
    header: Format,
) -> Result<Tables, Option<RefusedRestart>>
    requires here { id.0 < catalog.now.sites }
    requires most { catalog.now.sites ≤ most_in header }
    requires fewer { catalog.now.tolerated < catalog.now.sites }
    ensures site { IfOk result (λ tables. site_of tables ≡ id) }
    ensures catalog { IfOk result (λ tables. catalog_of tables ≡ catalog.now) }
    ensures told { IfOk result (Tells header catalog.now id (map (λ body. body.items) bodies.now)) }
    ensures refused { IfErr result (λ why.
        IfSome why (IsRefusedOver header catalog.now id (map (λ body. body.items) bodies.now))) }
{
    let Ok(copy) = catalog.clone() else {
        return Err(None);
    };
    let Ok(mut tables) = Tables::new(alloc, copy, id) else {
        return Err(None);
    };
    for (index, body) in bodies.iter().enumerate() {
        match replay_body(alloc, &mut tables, body, catalog.sites, header) {
            Ok(()) => {}
            Err(ReplayFault::Unfit) => {
                return Err(Some(RefusedRestart::Unreadable {
                    index: index as u64,
                }));
            }
            Err(ReplayFault::NoMemory) => return Err(None),
        }
    }
    Ok(tables)
}

// Takes the record that the body spells in the format in force behind the header and those before it. In the second
// format none says that this begins.
fn replay_body(
    alloc: Global,
    tables: &mut Tables,
    body: &[u8],
    sites: u8,
    header: Format,
) -> Result<(), ReplayFault>
    requires sites { (catalog_of tables.old).sites ≡ sites }
    requires most { sites ≤ most_in header }
    ensures taken { OnOk result (Takes header tables.old body.now tables.new) }
    ensures unfit { IfErr result (IsUnfit header tables.old body.now) }
    ensures site { site_of tables.new ≡ site_of tables.old }
    ensures catalog { catalog_of tables.new ≡ catalog_of tables.old }
{
    let format = later_of(header, tables.format());
    let rec = match walter_record::decode(alloc, body, sites, format) {
        Ok(Some(rec)) => rec,
        Ok(None) => return Err(ReplayFault::Unfit),
        Err(NoMemory) => return Err(ReplayFault::NoMemory),
    };
    if is_told_again(&rec, format) {
        return Err(ReplayFault::Unfit);
    }
    tables.replay(rec)
}

/// The format in force behind a header and records: the later one of those that they tell.
pub(crate) fn later_of(header: Format, told: Format) -> Format
    ensures { result ≡ in_force header told }
{
    match header {
        Format::First => told,
        Format::Second => Format::Second,
    }
}

// Where the second format is in force, the record says that this begins.
fn is_told_again(rec: &Record, format: Format) -> bool
    ensures { result ≡ says_again rec.now format }
{
    match rec {
        Record::Format => format == Format::Second,
        _ => false,
    }
}
