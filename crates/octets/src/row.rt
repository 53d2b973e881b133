ghost use Rattle.std.specs.Prelude.{⊤, ◌≡◌, ◌+◌, ◌<◌, ◌≤◌, ◌↔◌, [], ◌∷◌, ◌++◌, length, slice_get, slice_set, IsOk, OnOk, OnErr, MatchResult};
ghost use Rattle.std.specs.List.{AllZip};

use crate::Fill;
use std::alloc::AllocError;
use std::convert::AsSlice;
use std::marker::Model;
use thiserror::Error;

/// At most N elements. Clauses see them as a list.
// In its own memory: nothing here allocates, and a vector of the kit's `arrayvec` is no `Copy`, as
// rows and the messages that hold them are.
#[derive(Copy, PartialEq, Eq, Debug)]
pub struct Row<T: Fill, const N: usize> {
    items: [T; N],
    len: usize,
}

impl<T: Fill, const N: usize> Model for Row<T, N> {
    ghost use Rattle.std.specs.Prelude.{◌-◌, ◌++◌, List, length, take, replicate};
    ghost use Rattle.std.proofs.Common.{arith, length-take-le};
    ghost use Rattle.octets.specs.Row.{IsRow, filled-take};

    ghost Value = { List T };

    ghost view = { λ row. take row.len row.items };

    ghost invariant = { λ row. IsRow T.fill N row.len row.items };

    ghost inverse = { λ items. record { items = items ++ replicate (N - length items) T.fill; len = length items } };

    ghost inverse_ok = { λ row is i. record {
      items = filled-take T.fill N row.len row.items is i;
      len = length-take-le row.len row.items (omega (arith, is.full, is.room)) i;
    } };
}

// Derived, `clone` leaves the invariant of its result open: it is not known to copy an element.
impl<T: Fill, const N: usize> Clone for Row<T, N> {
    ghost is_clone = { λ row copy. copy ≡ row };

    ghost is_infallible = { λ _. ⊤ };

    fn clone(&self) -> Result<Self, AllocError> {
        Ok(*self)
    }
}

/// There is no room left in a row.
#[derive(Clone, Copy, PartialEq, Eq, Debug, Error)]
#[error("no room left in the row")]
pub struct Full;

// Each writer states its own room, and that a refusal leaves the row: one definition for them would
// hide both and be no shorter. `len` follows from `after`; it spares callers that proof.
impl<T: Fill, const N: usize> Row<T, N> {
    /// No elements.
    pub fn new() -> Self
        ensures { result ≡ [] }
    {
        Row {
            items: [T::fill(); N],
            len: 0,
        }
    }

    /// One element more at the end. A full row stays as it is.
    pub fn push(&mut self, item: T) -> Result<(), Full>
        ensures room { IsOk result ↔ (length self.old < N) }
        ensures after { OnOk result (self.new ≡ self.old ++ item ∷ []) }
        ensures len { OnOk result (length self.new ≡ length self.old + 1) }
        ensures full { OnErr result (self.new ≡ self.old) }
    {
        if self.len == N {
            return Err(Full);
        }
        self.items[self.len] = item;
        self.len += 1;
        Ok(())
    }

    /// The elements of a slice at the end. Where there is no room for them the row stays as it is.
    #[tactic(auto, using(crate::proofs::Rows::extended))]
    pub fn extend_from_slice(&mut self, items: &[T]) -> Result<(), Full>
        ensures room { IsOk result ↔ (length self.old + length items.now ≤ N) }
        ensures after { OnOk result (self.new ≡ self.old ++ items.now) }
        ensures len { OnOk result (length self.new ≡ length self.old + length items.now) }
        ensures full { OnErr result (self.new ≡ self.old) }
    {
        if items.len() > N - self.len {
            return Err(Full);
        }
        let end = self.len + items.len();
        let all = &mut self.items[..];
        all[self.len..end].copy_from_slice(items);
        self.len = end;
        Ok(())
    }

    /// Another element at a place, for the one that was there. Where the row has no such place it
    /// stays as it is, and the answer is none.
    #[tactic(auto, using(crate::proofs::Rows::held_set))]
    pub fn put(&mut self, place: usize, item: T) -> Option<T>
        ensures before { result ≡ slice_get self.old place }
        ensures after { self.new ≡ slice_set self.old place item }
    {
        if place >= self.len {
            return None;
        }
        let before = self.items[place];
        self.items[place] = item;
        Some(before)
    }

    /// What `f` makes of each element.
    pub fn map<U: Fill, F: Fn(T) -> U>(&self, f: F) -> Row<U, N>
        requires { F.IsAlwaysCallable f }
        ensures { AllZip (F.post f) self.now result }
    {
        let mut row = Row::new();
        for item in self.as_slice() {
            row.push(f(*item)).unwrap();
        }
        row
    }

    pub fn as_slice(&self) -> &[T]
        ensures value { result.now ≡ self.now }
        ensures bound { length result.now ≤ N }
    {
        &self.items[..self.len]
    }

    pub fn len(&self) -> usize
        ensures value { result ≡ length self.now }
        ensures bound { result ≤ N }
    {
        self.as_slice().len()
    }
}

impl<T: Fill, const N: usize> AsSlice<T> for Row<T, N> {
    ghost items = { λ row. row };

    fn as_slice(&self) -> &[T] {
        self.as_slice()
    }
}

impl<T: Fill, const N: usize> TryFrom<&[T]> for Row<T, N> {
    type Error = Full;

    ghost try_from_gives = { λ from r. MatchResult r (λ row. (row ≡ from.now) × (length from.now ≤ N)) (λ _. N < length from.now) };

    fn try_from(from: &[T]) -> Result<Self, Full> {
        let mut row = Row::new();
        row.extend_from_slice(from)?;
        Ok(row)
    }
}
