//! What the words behind the program's name ask for.
#![tactic(auto)]

mod asked;
mod folder_path;
mod lines;

pub use asked::{Command, WordsFault, command_of, folder_of};
pub use folder_path::FolderPath;
