//! The path of a folder.
ghost use Rattle.std.specs.Prelude.{◌≡◌, IfOk};

use std::alloc::{AllocError, Global};
use std::marker::Model;

/// The path of a folder, as it was given. Contracts see its bytes.
#[derive(Debug, Drop)]
pub struct FolderPath {
    path: String,
}

impl Model for FolderPath {
    ghost use Rattle.std.specs.Prelude.{ℕ, List, string_bytes};

    ghost Value = { List ℕ };

    ghost view = { λ s. string_bytes s.path };
}

impl FolderPath {
    ghost use Rattle.std.specs.Prelude.{string_bytes};

    pub(crate) fn new(alloc: Global, path: &str) -> Result<FolderPath, AllocError>
        ensures { IfOk result (λ folder. folder ≡ path.now) }
    {
        Ok(FolderPath {
            path: String::from_str(alloc, path)?,
        })
    }

    /// The text of the path, with no copy made.
    pub fn into_string(self) -> String
        ensures { string_bytes result ≡ self }
    {
        self.path
    }
}
