//! Tests of disks over files of the system, and of the rack that has them.
use std::fs::{self, OpenOptions};
use std::path::PathBuf;
use std::test::Fail;
use std::{env, process};
use walter_disk::{Disk, Rack, write_and_sync};
use walter_disk_file::{FileDisk, HostDisk, HostRack};

// An empty folder among the temporary files.
fn new_folder(rt: &HostRuntime, name: &str) -> Result<PathBuf, Fail> {
    let mut folder = env::temp_dir(rt)?;
    folder.push(format!(in rt.alloc(); "{name}_{}", process::id(rt.process()))?)?;
    fs::create_dir(rt, folder.as_path())?;
    Ok(folder)
}

fn file_in(folder: &PathBuf, name: &str) -> Result<PathBuf, Fail> {
    let mut path = folder.clone()?;
    path.push(name)?;
    Ok(path)
}

// Whether bytes are written at a place, with room for it, and are safe.
fn keeps<D: Disk>(disk: &mut D, at: u8, bytes: &[u8; 3]) -> bool {
    let at = u64::from(at);
    disk.reserve(at + 3, 2).is_ok() && at <= disk.size() && write_and_sync(disk, at, bytes).is_ok()
}

// Whether these bytes read from a place on.
fn reads<D: Disk>(disk: &mut D, at: u8, wanted: &[u8; 3]) -> bool {
    let at = u64::from(at);
    let mut bytes = [0; 3];
    at + 3 <= disk.size() && disk.read(at, &mut bytes).is_ok() && bytes == *wanted
}

fn settles<D: Disk>(disk: &mut D) -> bool {
    disk.reserve(0, 1).is_ok() && disk.settle().is_ok()
}

// Whether an empty disk takes bytes and gives them back.
fn works<D: Disk + Send>(disk: &mut D) -> bool {
    disk.size() == 0
        && keeps(disk, 0, b"abc")
        && keeps(disk, 2, b"xyz")
        && reads(disk, 1, b"bxy")
        && settles(disk)
        && disk.size() == 5
}

// Whether a disk of those bytes, whose file was cut to three, fails each call until it has settled.
fn finds_the_cut<D: Disk>(disk: &mut D) -> bool {
    !reads(disk, 2, b"xyz")
        && !reads(disk, 0, b"abx")
        && !keeps(disk, 3, b"def")
        && settles(disk)
        && disk.size() == 3
        && reads(disk, 0, b"abx")
        && keeps(disk, 3, b"def")
}

// Whether no arm comes.
fn ignores_an_arm<D: Disk>(disk: &mut D) -> bool {
    disk.arm(1, 0).is_ok() && reads(disk, 0, b"abx")
}

#[test]
fn a_file_keeps_what_is_written(rt: HostRuntime) -> Result<(), Fail> {
    let folder = new_folder(&rt, "walter_disk_file_disk")?;
    let path = file_in(&folder, "a.journal")?;
    let mut disk = FileDisk::open(&rt, path.as_path())?;
    assert!(rt; works(&mut disk));
    // One over the same file finds what is there.
    let mut other = FileDisk::open(&rt, path.as_path())?;
    assert!(rt; other.size() == 5 && reads(&mut other, 2, b"xyz"));
    let cut = OpenOptions::new().write(true).open(&rt, path.as_path())?;
    cut.set_len(3)?;
    assert!(rt; finds_the_cut(&mut disk) && ignores_an_arm(&mut disk));
    // No folder is made.
    let missing = file_in(&folder, "b/a.journal")?;
    assert!(rt; FileDisk::open(&rt, missing.as_path()).is_err());
    fs::remove_dir_all(&rt, folder)?;
    Ok(())
}

// Whether a disk is taken from the rack, works and is given back.
fn serves<K: Rack>(rack: &mut K, dir: Option<&str>) -> bool {
    match rack.take(3, dir) {
        Ok(mut disk) => works(&mut disk) && rack.give(3, disk).is_ok(),
        Err(_) => false,
    }
}

#[test]
fn a_rack_takes_disks_from_memory_or_a_folder(rt: HostRuntime) -> Result<(), Fail> {
    let alloc = rt.alloc();
    let mut memory = HostRack::<&HostRuntime>::with_room(alloc, 1)?;
    assert!(rt; serves(&mut memory, Some("/dev/null")));
    memory.given_unarmed_never_failed();
    assert!(rt; matches!(memory.given(), [(_, HostDisk::Memory(_))]));

    let folder = new_folder(&rt, "walter_disk_file_rack")?;
    let mut files = HostRack::over(alloc, &rt, folder.clone()?.into_string());
    assert!(rt; serves(&mut files, None));
    assert!(rt; matches!(files.given(), [(_, HostDisk::File(_))]));
    assert!(rt; fs::exists(&rt, file_in(&folder, "site-3.journal")?)?);
    // Another rack finds the site's file in the folder that is named.
    let mut others = HostRack::over(alloc, &rt, String::from_str(alloc, "/dev/null")?);
    assert!(rt; others.take(3, None).is_err());
    let mut disk = others.take(3, Some(folder.as_path().to_string_lossy()))?;
    assert!(rt; reads(&mut disk, 2, b"xyz"));
    fs::remove_dir_all(&rt, folder)?;
    Ok(())
}
