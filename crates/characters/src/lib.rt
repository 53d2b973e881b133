//! A record of characters, as the line carries them.
#![tactic(auto)]

use octets::Row;
use std::marker::Model;

mod coding;
pub mod fault;
mod load;
pub mod refusal;

/// The most characters that a message has.
pub const MOST: usize = 66;

/// At most 66 characters, none above 511. Clauses see them as a list.
#[derive(Clone, Copy, PartialEq, Eq, Debug)]
pub struct Characters {
    row: Row<u16, MOST>,
}

impl Model for Characters {
    ghost use Rattle.std.specs.Prelude.{◌<◌, ℕ, List, All};

    ghost Value = { List ℕ };

    ghost view = { λ characters. characters.row };

    ghost invariant = { λ characters. All (λ c. c < 512) characters.row };

    ghost inverse = { λ cs. record { row = cs } };
}
