//! Tests of what is spelled as bytes, and of the words of a command, one module for each crate. The crate has nothing
//! else.
#![tactic(auto)]

#[cfg(test)]
mod any_bytes;
#[cfg(test)]
mod fields;
#[cfg(test)]
mod made;
#[cfg(test)]
mod names;
#[cfg(test)]
mod packets;
#[cfg(test)]
mod parts;
#[cfg(test)]
mod records;
#[cfg(test)]
mod replies;
#[cfg(test)]
mod requests;
#[cfg(test)]
mod scenarios;
#[cfg(test)]
mod transactions;
#[cfg(test)]
mod values;
#[cfg(test)]
mod words;
