//! What comes of a row of the table.
use std::fmt;

#[derive(Clone, Copy, PartialEq, Eq, Debug)]
pub struct Verdict<'a> {
    pub name: &'a str,
    pub expected: &'a str,
    pub got: &'a str,
}

impl Verdict<'_> {
    pub fn same(&self) -> bool {
        self.got == self.expected
    }
}

impl fmt::Display for Verdict<'_> {
    fn fmt<W: fmt::Write>(&self, f: &mut fmt::Formatter<W>) -> fmt::Result {
        let name = self.name;
        if self.same() {
            return write!(f, "same {name}");
        }
        let expected = self.expected;
        let got = self.got;
        write!(f, "DIFFERS {name} expected {expected} got {got}")
    }
}
