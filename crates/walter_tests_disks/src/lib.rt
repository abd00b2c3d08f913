//! Tests of disks in memory and over files, of journals and books over them, and of streams over std. The crate has
//! nothing else.
#![tactic(auto)]

#[cfg(test)]
mod any_bytes;
#[cfg(test)]
mod books;
#[cfg(test)]
mod disks;
#[cfg(test)]
mod files;
#[cfg(test)]
mod formats;
#[cfg(test)]
mod journals;
#[cfg(test)]
mod streams;
