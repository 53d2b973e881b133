//! A short row of elements in a fixed memory, with a list's interface.
#![tactic(auto)]

mod append;
mod fill;
mod row;

pub use fill::Fill;
pub use row::{Full, Row};

/// At most N octets.
pub type Octets<const N: usize> = Row<u8, N>;
