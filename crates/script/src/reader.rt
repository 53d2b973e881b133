//! The words of a line, read one after another as what they should be.
ghost use Rattle.std.specs.Prelude.{◌≡◌, ◌≢◌, ◌≤◌, [], IfOk, Ok, Some, OnOk, MatchOption};
ghost use Rattle.std.specs.Fn.{FnOnceReturnsAt};
ghost use Rattle.text.specs.Number.{read_flag, read_number};
ghost use Rattle.text.specs.Text.{read_chars, read_hex};
ghost use Rattle.script.specs.Lines.{octet_of};
ghost use Rattle.script.specs.Words.{after_word, first_word, service_word};

use crate::mistake::{Mistake, Part};
use crate::word::split_word;
use control::Control;
use isdu::service::Service;
use std::alloc::{AllocError, Global};
use std::marker::Model;
use text::chars::parse_chars;
use text::flaw::Flaw;
use text::hex::parse_hex;
use text::number::{parse_flag, parse_number};

/// The words of a line that are still to be read.
#[derive(Drop)]
pub(crate) struct Words<'a> {
    heap: Global,
    rest: &'a [u8],
}

impl<'a> Model for Words<'a> {
    ghost use Rattle.std.specs.Prelude.{List, ℕ};

    ghost Value = { List ℕ };

    ghost view = { λ words. words.rest.now };
}

// Each reading says what it leaves of the text: a name for that would read no plainer than the one
// word it is.
impl<'a> Words<'a> {
    pub(crate) fn new(heap: Global, text: &'a [u8]) -> Self
        ensures { result ≡ text.now }
    {
        Words { heap, rest: text }
    }

    /// The next word, if there is one.
    pub(crate) fn next_word(&mut self) -> Option<&'a [u8]>
        ensures word { MatchOption result (first_word self.old ≡ []) (λ w. (w.now ≡ first_word self.old) × (w.now ≢ [])) }
        ensures rest { self.new ≡ after_word self.old }
    {
        let (word, rest) = split_word(self.rest);
        self.rest = rest;
        if word.is_empty() {
            return None;
        }
        Some(word)
    }

    /// The next word, which should be there.
    pub(crate) fn word(&mut self, part: Part) -> Result<&'a [u8], Mistake>
        ensures word { IfOk result (λ w. w.now ≡ first_word self.old) }
        ensures rest { self.new ≡ after_word self.old }
    {
        self.next_word().ok_or(Mistake::Missing(part))
    }

    /// A word as the text that a mistake quotes.
    pub(crate) fn quoted(&self, word: &[u8]) -> Result<String, AllocError> {
        String::from_utf8_lossy(self.heap, word)
    }

    // The next word as what `parse` reads in it.
    fn parsed<T: Drop, F: FnOnce(&[u8]) -> Result<T, Flaw>>(
        &mut self,
        part: Part,
        parse: F,
    ) -> Result<T, Mistake>
        requires { F.IsAlwaysCallable parse }
        ensures value { IfOk result (λ v. FnOnceReturnsAt F.FnOnce parse (first_word self.old) (Ok v)) }
        ensures rest { self.new ≡ after_word self.old }
    {
        let word = self.word(part)?;
        match parse(word) {
            Ok(value) => Ok(value),
            Err(flaw) => Err(Mistake::Wrong {
                part,
                word: self.quoted(word)?,
                flaw,
            }),
        }
    }

    // A number of at most `most`. The bound goes to the parser, since a conversion of what it
    // gives would find another flaw in a word such as `999x`.
    fn number(&mut self, part: Part, most: u32) -> Result<u32, Mistake>
        ensures number { IfOk result (λ n. read_number (first_word self.old) ≡ Some n) }
        ensures bound { IfOk result (λ n. n ≤ most) }
        ensures rest { self.new ≡ after_word self.old }
    {
        self.parsed(part, |word| parse_number(word, most))
    }

    pub(crate) fn count(&mut self, part: Part) -> Result<usize, Mistake>
        ensures number { IfOk result (λ n. read_number (first_word self.old) ≡ Some n) }
        ensures rest { self.new ≡ after_word self.old }
    {
        let number = self.number(part, u32::MAX)?;
        Ok(number as usize)
    }

    pub(crate) fn control(&mut self) -> Result<Control, Mistake>
        ensures octet { IfOk result (λ c. read_number (first_word self.old) ≡ Some (octet_of c)) }
        ensures rest { self.new ≡ after_word self.old }
    {
        let octet = self.number(Part::Control, 255)?;
        Ok(Control::from(octet as u8))
    }

    /// An index and a subindex.
    pub(crate) fn address(&mut self) -> Result<(u16, u8), Mistake>
        ensures index { IfOk result (λ a. read_number (first_word self.old) ≡ Some a.0) }
        ensures subindex { IfOk result (λ a. read_number (first_word (after_word self.old)) ≡ Some a.1) }
        ensures rest { OnOk result (self.new ≡ after_word (after_word self.old)) }
    {
        let index = self.number(Part::Index, 65535)?;
        let subindex = self.number(Part::Subindex, 255)?;
        Ok((index as u16, subindex as u8))
    }

    /// The kind of an order.
    pub(crate) fn service(&mut self) -> Result<Service, Mistake>
        ensures service { IfOk result (λ s. first_word self.old ≡ service_word s) }
        ensures rest { self.new ≡ after_word self.old }
    {
        match self.word(Part::Service)? {
            b"write" => Ok(Service::Write),
            b"read" => Ok(Service::Read),
            other => Err(Mistake::NoService(self.quoted(other)?)),
        }
    }

    pub(crate) fn octets(&mut self, part: Part) -> Result<Vec<u8>, Mistake>
        ensures octets { IfOk result (λ v. read_hex (first_word self.old) ≡ Some v.items) }
        ensures rest { self.new ≡ after_word self.old }
    {
        let heap = self.heap;
        self.parsed(part, |word| parse_hex(heap, word))
    }

    pub(crate) fn record(&mut self) -> Result<Vec<u16>, Mistake>
        ensures characters { IfOk result (λ v. read_chars (first_word self.old) ≡ Some v.items) }
        ensures rest { self.new ≡ after_word self.old }
    {
        let heap = self.heap;
        self.parsed(Part::Record, |word| parse_chars(heap, word))
    }

    pub(crate) fn flag(&mut self, part: Part) -> Result<bool, Mistake>
        ensures flag { IfOk result (λ b. read_flag (first_word self.old) ≡ Some b) }
        ensures rest { self.new ≡ after_word self.old }
    {
        self.parsed(part, parse_flag)
    }

    /// No word should be left.
    pub(crate) fn end(&mut self) -> Result<(), Mistake>
        ensures { OnOk result (first_word self.old ≡ []) }
    {
        match self.next_word() {
            None => Ok(()),
            Some(word) => Err(Mistake::TooMany(self.quoted(word)?)),
        }
    }
}
