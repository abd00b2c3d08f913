//! How a fault is told where the disks are files.
use crate::ended::{Fault, JournalCause};
use std::fs::{self, File, Files};
use std::path::Path;
use thiserror::Error;
use walter_disk_file::JournalName;

/// A fault of a call whose disks are the files of a folder, as it is told: with the file, and with what to do.
#[derive(Debug, Drop, Error)]
pub enum FileFault<'a> {
    #[error("{folder} is no folder: make it, or name another behind --disks")]
    NoFolder {
        folder: &'a str,
    },
    #[error("{folder}/{name} could not be opened, read or written: see that this may be done, and that there is room")]
    Failed {
        folder: &'a str,
        name: JournalName,
    },
    #[error("{folder}/{name}: {cause} (at place {place}); move it away, or name another folder behind --disks")]
    Unfit {
        folder: &'a str,
        name: JournalName,
        cause: JournalCause,
        place: u64,
    },
    #[error("{0}")]
    Other(&'a Fault),
}

impl<'a> FileFault<'a> {
    /// How the fault is told. Whether the folder is there is asked of the system now.
    pub fn of<X: Files<File = File>>(
        files: &X,
        folder: &'a str,
        fault: &'a Fault,
    ) -> FileFault<'a> {
        match fault {
            Fault::Rack { .. } if !is_folder(files, folder) => FileFault::NoFolder { folder },
            Fault::Rack { site } => FileFault::Failed {
                folder,
                name: JournalName { site: *site },
            },
            Fault::Journal { site, cause, place } => FileFault::Unfit {
                folder,
                name: JournalName { site: *site },
                cause: *cause,
                place: *place,
            },
            _ => FileFault::Other(fault),
        }
    }
}

fn is_folder<X: Files<File = File>>(files: &X, path: &str) -> bool {
    match fs::metadata(files, Path::new(path)) {
        Ok(metadata) => metadata.is_dir(),
        Err(_) => false,
    }
}
