//! ISDUs: the octets that carry an order and its reply, written and read.
#![tactic(auto)]

mod last;
pub mod opened;
pub mod order;
pub mod pieces;
pub mod reply;
pub mod request;
pub mod response;
pub mod service;
pub mod total;
mod written;

/// The most octets that an ISDU has.
pub const MOST: usize = 238;

/// The most octets that an order writes, or a reply has read.
pub const MOST_DATA: usize = 232;
