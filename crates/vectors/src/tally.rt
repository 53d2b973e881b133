//! How many vectors there are, and how many differ.
use std::fmt;

#[derive(Clone, Copy, Default, PartialEq, Eq, Debug)]
pub struct Tally {
    vectors: u64,
    differing: u64,
}

impl Tally {
    pub fn count(&mut self, same: bool) {
        self.vectors = self.vectors.saturating_add(1);
        if !same {
            self.differing = self.differing.saturating_add(1);
        }
    }
}

impl fmt::Display for Tally {
    fn fmt<W: fmt::Write>(&self, f: &mut fmt::Formatter<W>) -> fmt::Result {
        let vectors = self.vectors;
        let differing = self.differing;
        write!(f, "{vectors} vectors, {differing} differ")
    }
}
