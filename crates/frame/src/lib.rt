//! Messages of both directions: the check, the lengths of a line, and what is written and read.
#![tactic(auto)]

pub mod check;
pub mod codec;
pub mod lengths;
pub mod message;
