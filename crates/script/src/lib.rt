//! The commands of a script: the words of a line, and what they say together.
#![tactic(auto)]

pub mod command;
pub mod mistake;
mod reader;
pub mod word;
