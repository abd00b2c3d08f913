//! A test of names as bytes.
use std::alloc::Global;
use std::test::Fail;
use walter_base::{ObjId, SiteId, Tid, Version};
use walter_fields::{Appender, Cursor, NoMemory, Short};
use walter_names::{
    read_member, read_object, read_tid, read_version, write_member, write_object, write_tid,
    write_version,
};

const OBJECT: ObjId = ObjId {
    container: 1,
    local: 2,
};

const TID: Tid = Tid {
    site: SiteId(3),
    epoch: 4,
    number: 5,
};

const VERSION: Version = Version {
    site: SiteId(6),
    seq: 7,
};

/// The object, the name, the version, and the member 8 of the object.
const BYTES: [u8; 54] = [
    0, 0, 0, 1, 0, 0, 0, 0, 0, 0, 0, 2, 3, 0, 0, 0, 4, 0, 0, 0, 0, 0, 0, 0, 5, 6, 0, 0, 0, 0, 0, 0,
    0, 7, 0, 0, 0, 1, 0, 0, 0, 0, 0, 0, 0, 2, 0, 0, 0, 0, 0, 0, 0, 8,
];

fn written(alloc: Global) -> Result<Vec<u8>, NoMemory> {
    let mut out = Appender::with_room(alloc, 54)?;
    write_object(&mut out, OBJECT);
    write_tid(&mut out, TID);
    write_version(&mut out, VERSION);
    write_member(&mut out, OBJECT, 8);
    Ok(out.into_bytes())
}

fn are_read(bytes: &[u8]) -> Result<bool, Short> {
    let mut cursor = Cursor::new(bytes);
    let object = read_object(&mut cursor)?;
    let tid = read_tid(&mut cursor)?;
    let version = read_version(&mut cursor)?;
    let member = read_member(&mut cursor)?;
    Ok(
        (object, tid, version) == (OBJECT, TID, VERSION)
            && member == (OBJECT, 8)
            && cursor.is_at_end(),
    )
}

#[test]
fn what_is_written_is_read(rt: HostRuntime) -> Result<(), Fail> {
    assert!(rt; written(rt.alloc())?.as_slice() == BYTES.as_slice());
    assert!(rt; are_read(&BYTES)?);
    Ok(())
}
