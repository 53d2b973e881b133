//! The words of a script as values: digits, numbers, flags, octets and characters, read and shown.
#![tactic(auto)]

pub mod chars;
mod digit;
pub mod flaw;
pub mod hex;
pub mod number;
