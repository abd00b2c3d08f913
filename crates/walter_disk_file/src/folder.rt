//! A folder with a file for the journal of each site.
use crate::file_disk::FileDisk;
use std::alloc::{AllocError, Global};
use std::fmt;
use std::fs::{File, Files};
use std::path::PathBuf;
use walter_disk::Failed;

/// The name of the file that has the journal of a site.
#[derive(Clone, Copy, Debug)]
pub struct JournalName {
    pub site: u8,
}

impl fmt::Display for JournalName {
    fn fmt<W: fmt::Write>(&self, f: &mut fmt::Formatter<W>) -> fmt::Result {
        write!(f, "site-{}.journal", self.site)
    }
}

/// A folder that has the file of each site, and the system that it lies in.
#[derive(Drop)]
pub(crate) struct Folder<X: Files<File = File> + Drop> {
    pub files: X,
    pub path: String,
}

impl<X: Files<File = File> + Drop> Folder<X> {
    ghost use Rattle.std.specs.Prelude.{◌≡◌, IfOk};
    ghost use Rattle.walter_disk_file.specs.FileDisks.{fresh_disk};

    /// The disk over a site's file, in this folder or in another that is named. Want of memory is a fault too.
    pub(crate) fn open(
        &self,
        alloc: Global,
        site: u8,
        dir: Option<&str>,
    ) -> Result<FileDisk, Failed>
        ensures { IfOk result (λ disk. disk ≡ fresh_disk disk.size) }
    {
        let dir = dir.unwrap_or(self.path.as_str());
        match path_of(alloc, dir, site) {
            Ok(path) => FileDisk::open(&self.files, path.as_path()),
            Err(_) => Err(Failed),
        }
    }
}

// The file of a site in a folder.
fn path_of(alloc: Global, dir: &str, site: u8) -> Result<PathBuf, AllocError> {
    let mut path = PathBuf::from_str(alloc, dir)?;
    path.push(format!(in alloc; "{}", JournalName { site })?)?;
    Ok(path)
}
