//! A disk over a file of the system.
ghost use Rattle.std.specs.Prelude.{◌≡◌, false, IsOk, IfOk, OnOk, OnErr};
ghost use Rattle.walter_disk_file.specs.FileDisks.{fresh_disk, after_call, after_fault};

use std::fs::{File, Files, OpenOptions};
use std::io;
use std::marker::Model;
use std::os::fd::AsRawFd;
use std::os::unix::fs::FileExt;
use std::path::Path;
use walter_disk::{Disk, Failed, Mem};
use walter_faults::GhostCount;

/// A disk over a file of the system. It tells no bytes, since no one can know what a file holds, and it can't be armed.
#[derive(Drop)]
pub struct FileDisk {
    file: File,
    size: u64,
    broken: bool,
    faults: GhostCount,
    device_calls: GhostCount,
}

impl Model for FileDisk {
    ghost use Rattle.walter_disk_file.specs.FileDisks.{FileState};

    ghost Value = { FileState };

    ghost view = { λ s. record {
      size = s.size;
      broken = s.broken;
      faults = s.faults.count;
      device_calls = s.device_calls.count;
    } };
}

impl FileDisk {
    /// The disk over the file at a path. One that isn't there is made, with nothing in it. The file and its name in the
    /// folder are safe from a crash of the machine once this answers Ok. Nothing keeps another program from opening the
    /// same file.
    pub fn open<X: Files<File = File>>(files: &X, path: Path<'_>) -> Result<FileDisk, Failed>
        ensures { IfOk result (λ disk. disk ≡ fresh_disk disk.size) }
    {
        match open_file(files, path) {
            Ok((file, size)) => Ok(FileDisk {
                file,
                size,
                broken: false,
                faults: GhostCount::zero(),
                device_calls: GhostCount::zero(),
            }),
            Err(_) => Err(Failed),
        }
    }

    // Counts a read, a write or a sync, which fails where an earlier call has.
    fn begin_call(&mut self) -> Result<(), Failed>
        ensures whole { OnOk result (self.old.broken ≡ false) }
        ensures ok { OnOk result (self.new ≡ after_call self.old) }
        ensures err { OnErr result (self.new ≡ after_fault (after_call self.old)) }
    {
        self.device_calls = self.device_calls.next();
        if self.broken {
            return Err(self.fault());
        }
        Ok(())
    }

    // What an answer of the system comes to.
    fn judge(&mut self, answer: io::Result<()>) -> Result<(), Failed>
        ensures ok { OnOk result (self.new ≡ self.old) }
        ensures err { OnErr result (self.new ≡ after_fault self.old) }
    {
        match answer {
            Ok(()) => Ok(()),
            Err(_) => Err(self.fault()),
        }
    }

    fn fault(&mut self) -> Failed
        ensures { self.new ≡ after_fault self.old }
    {
        self.broken = true;
        self.faults = self.faults.next();
        Failed
    }
}

impl Disk for FileDisk {
    ghost use Rattle.walter_disk.specs.Disks.{MakesRoom};
    ghost use Rattle.walter_disk_file.specs.FileDisks.{known_of, room, may_leave_of, moment_of, left_since_of};

    ghost known = { known_of };

    ghost room_end = { λ _. room };

    ghost room_calls = { λ _. room };

    ghost may_leave = { may_leave_of };

    ghost moment = { moment_of };

    ghost device_calls = { λ d. d.device_calls };

    ghost left_since = { left_since_of };

    ghost size_is = { λ d. tt };

    ghost leaves_what_reads = { λ d whole. tt };

    ghost counts_now = { λ d t image le now. tt };

    ghost only_now = { λ d image left. tt };

    fn size(&self) -> u64 {
        self.size
    }

    /// Takes nothing: no call wants memory.
    fn reserve(&mut self, _end: u64, _calls: u64) -> Mem<()>
        ensures room { MakesRoom _end _calls room room room room }
        ensures never_fails { IsOk result }
        ensures same { self.new ≡ self.old }
    {
        Ok(())
    }

    fn read(&mut self, at: u64, into: &mut [u8]) -> Result<(), Failed> {
        self.begin_call()?;
        let answer = self.file.read_exact_at(into, at);
        self.judge(answer)
    }

    fn write_at(&mut self, at: u64, from: &[u8]) -> Result<(), Failed> {
        self.begin_call()?;
        let answer = self.file.write_all_at(from, at);
        self.judge(answer)?;
        self.size = self.size.max(at + from.len() as u64);
        Ok(())
    }

    fn sync(&mut self) -> Result<(), Failed> {
        self.begin_call()?;
        let answer = self.file.sync_data();
        self.judge(answer)
    }

    /// Syncs what pends, so that no write is lost that reached the file, and asks for the size anew.
    fn settle(&mut self) -> Result<(), Failed> {
        match settle_file(&self.file) {
            Ok(size) => {
                self.size = size;
                self.broken = false;
                Ok(())
            }
            Err(_) => Err(self.fault()),
        }
    }

    /// Changes nothing: no call of a real file fails for being told to.
    fn arm(&mut self, _nth: u64, _choice: u64) -> Mem<()>
        ensures never_fails { IsOk result }
        ensures same { self.new ≡ self.old }
    {
        Ok(())
    }
}

// The file at a path, made where it isn't there, and its size. It and its name are safe from a crash.
fn open_file<X: Files<File = File>>(files: &X, path: Path<'_>) -> io::Result<(File, u64)> {
    let file = OpenOptions::new()
        .read(true)
        .write(true)
        .create(true)
        .open(files, path)?;
    let file = away_from_streams(file)?;
    let size = settle_file(&file)?;
    sync_folder(files, path)?;
    Ok((file, size))
}

// The file under a number of none of the standard streams: what is said on one that was closed must not land in it.
fn away_from_streams(file: File) -> io::Result<File> {
    if file.as_raw_fd() <= 2 {
        file.try_clone()
    } else {
        Ok(file)
    }
}

// Leaves nothing pending, and answers the size. After a sync that failed the system may read bytes that the device
// doesn't have, until it lets go of its copies.
fn settle_file(file: &File) -> io::Result<u64> {
    file.sync_all()?;
    Ok(file.metadata()?.len())
}

// Makes the names in a path's folder safe from a crash. A path of one word stands in the folder of the process.
fn sync_folder<X: Files<File = File>>(files: &X, path: Path<'_>) -> io::Result<()> {
    let folder = match path.parent() {
        Some(folder) if folder != Path::new("") => folder,
        _ => Path::new("."),
    };
    File::open(files, folder)?.sync_all()
}
