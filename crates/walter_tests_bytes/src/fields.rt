//! Tests of numbers and blocks as bytes.
use std::alloc::Global;
use std::test::Fail;
use walter_fields::{Appender, Cursor, NoMemory, Short};

/// The numbers 1, 0x0203, 0x04050607, 0x08090a0b0c0d0e0f and -2, and the block `abc`.
const BYTES: [u8; 30] = [
    1, 2, 3, 4, 5, 6, 7, 8, 9, 10, 11, 12, 13, 14, 15, 255, 255, 255, 255, 255, 255, 255, 254, 0,
    0, 0, 3, 97, 98, 99,
];

fn written(alloc: Global) -> Result<Vec<u8>, NoMemory> {
    let mut out = Appender::with_room(alloc, 30)?;
    out.u8(1);
    out.u16(0x0203);
    out.u32(0x0405_0607);
    out.u64(0x0809_0a0b_0c0d_0e0f);
    out.i64(-2);
    out.block(b"abc");
    Ok(out.into_bytes())
}

fn are_read(bytes: &[u8]) -> Result<bool, Short> {
    let mut cursor = Cursor::new(bytes);
    let numbers = (cursor.u8()?, cursor.u16()?, cursor.u32()?, cursor.u64()?);
    let less = cursor.i64()?;
    let block = cursor.block()?;
    Ok(
        numbers == (1, 0x0203, 0x0405_0607, 0x0809_0a0b_0c0d_0e0f)
            && less == -2
            && block == b"abc".as_slice()
            && cursor.is_at_end(),
    )
}

#[test]
fn what_is_written_is_read(rt: HostRuntime) -> Result<(), Fail> {
    assert!(rt; written(rt.alloc())?.as_slice() == BYTES.as_slice());
    assert!(rt; are_read(&BYTES)?);
    Ok(())
}

#[test]
fn errors_have_texts(rt: HostRuntime) -> Result<(), Fail> {
    let texts = format!(in rt.alloc(); "{NoMemory}; {}", Short { at: 7 })?;
    assert!(rt; texts.as_str() == "out of memory; a byte is wanting at 7");
    Ok(())
}
