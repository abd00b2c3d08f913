//! Objects as bytes: how many, from 1 to 256, and then each behind the one that it is greater than.
ghost use Rattle.std.specs.Prelude.{◌≡◌, ◌↔◌, ◌+◌, ◌*◌, ◌≤◌, ◌++◌, length, flat_map, All, IsTrue, IfOk, IfErr};
ghost use Rattle.walter_base.specs.Names.{IsBefore, AreRising};
ghost use Rattle.walter_base.specs.Sizes.{CanBeListed};
ghost use Rattle.walter_fields.specs.Cursors.{Takes};
ghost use Rattle.walter_names.specs.Names.{object_spelled, IsObject};
ghost use Rattle.walter_txcode.specs.Faults.{IfUnspelled, NoneBegins};
ghost use Rattle.walter_txcode.specs.Spelling.{objects_spelled, AreSpelledObjects, AreSoMany};

use crate::fault::DecodeFault;
use std::alloc::Global;
use walter_base::{ObjId, Objects};
use walter_fields::{Appender, Cursor};
use walter_names::{read_object, write_object};

/// The fewest and the most objects that are spelled together.
const FEWEST_OBJECTS: u16 = 1;

const MOST_OBJECTS: u16 = 256;

/// Whether the one stands before the other: by container, and in one container by number.
fn is_before(one: ObjId, other: ObjId) -> bool
    ensures { IsTrue result ↔ IsBefore one other }
{
    one.container < other.container || (one.container == other.container && one.local < other.local)
}

/// Whether the object stands behind these, that rise.
fn is_behind(oid: ObjId, objects: &[ObjId]) -> bool
    requires { AreRising objects.now }
    ensures { IsTrue result ↔ All (λ other. IsBefore other oid) objects.now }
{
    match objects.last() {
        Some(last) => is_before(*last, oid),
        None => true,
    }
}

/// So many objects, that rise.
fn read_rising(alloc: Global, cursor: &mut Cursor, count: u16) -> Result<Vec<ObjId>, DecodeFault>
    ensures taken { IfOk result
        (λ objects. Takes cursor.old cursor.new (flat_map object_spelled objects.items)) }
    ensures spelled { IfOk result (λ objects. AreSoMany count objects.items) }
    ensures fault { IfErr result (λ fault. IfUnspelled fault
        (NoneBegins (AreSoMany count) (flat_map object_spelled) cursor.old.left)) }
{
    let mut objects = Vec::new(alloc);
    for _ in 0..count {
        let oid = read_object(cursor)?;
        if !is_behind(oid, &objects) {
            return Err(DecodeFault::Unspelled);
        }
        objects.push(oid)?;
    }
    Ok(objects)
}

/// The objects with which the bytes that are left begin: from 1 to 256, that rise. Where there are none, some bytes may
/// have been read.
pub fn read_objects(alloc: Global, cursor: &mut Cursor) -> Result<Objects, DecodeFault>
    ensures taken { IfOk result (λ objects. Takes cursor.old cursor.new (objects_spelled objects)) }
    ensures spelled { IfOk result AreSpelledObjects }
    ensures fault { IfErr result (λ fault. IfUnspelled fault
        (NoneBegins AreSpelledObjects objects_spelled cursor.old.left)) }
{
    let count = cursor.u16()?;
    if count < FEWEST_OBJECTS || count > MOST_OBJECTS {
        return Err(DecodeFault::Unspelled);
    }
    Ok(Objects::from(read_rising(alloc, cursor, count)?))
}

fn write_each(out: &mut Appender, objects: &[ObjId])
    requires { 12 * length objects.now ≤ out.old.room }
    ensures bytes { out.new.bytes ≡ out.old.bytes ++ flat_map object_spelled objects.now }
    ensures room { out.new.room + 12 * length objects.now ≡ out.old.room }
    ensures ranges { All IsObject objects.now }
{
    for oid in objects {
        write_object(out, *oid);
    }
}

/// Writes the spelling of the objects behind what was written.
pub fn write_objects(out: &mut Appender, objects: &Objects)
    requires listed { CanBeListed objects.now }
    requires room { 2 + 12 * length objects.now ≤ out.old.room }
    ensures bytes { out.new.bytes ≡ out.old.bytes ++ objects_spelled objects.now }
    ensures room { out.new.room + (2 + 12 * length objects.now) ≡ out.old.room }
    ensures ranges { All IsObject objects.now }
{
    out.u16(objects.as_slice().len() as u16);
    write_each(out, objects.as_slice());
}
