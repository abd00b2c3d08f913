//! The values of the store: names of sites, objects and transactions, versions, updates, vectors, the catalog, what is
//! asked, answered, journaled and sent; and the trait of a site's objects.
#![tactic(auto)]

mod bytes;
mod catalog;
mod containers;
mod counts;
mod format;
mod laws;
mod lists;
mod maybe;
mod memory;
mod message;
mod names;
mod packet;
mod rows;
mod shared_bytes;
mod snapshot;
mod transaction;
mod update;
mod vts;

pub use bytes::Bytes;
pub use catalog::{Catalog, CatalogFault};
pub use containers::{Container, Containers};
pub use counts::Counts;
pub use format::Format;
pub use laws::counts_are_one_list;
pub use lists::{Objects, Sites};
pub use maybe::{MaybeRecord, RecordPlace};
pub use memory::{Mem, NoMemory};
pub use message::{BadFrame, Call, Level, Record, Refusal, Reply, Request};
pub use names::{Kind, ObjId, SiteId, Tid, Version};
pub use packet::{Answer, Packet, Sends};
pub use rows::Rows;
pub use shared_bytes::SharedBytes;
pub use snapshot::Snapshot;
pub use transaction::{Cause, Conflict, Tx};
pub use update::{Row, Update, Updates, size_of_updates};
pub use vts::{MOST_SITES, Vts};
