//! What a request asks for.
ghost use Rattle.std.specs.Prelude.{◌≡◌};
ghost use Rattle.isdu.specs.Order.{IfCanAsk, held_order, order_view, order_with};

use crate::MOST_DATA;
use characters::refusal::Refusal;
use octets::Octets;
use std::convert::AsSlice;

/// An order: the octets at an address, a pair of index and subindex, are to be read or written.
#[derive(Clone, Copy, PartialEq, Eq, Debug, Drop)]
pub enum Order<D> {
    Read { address: (u16, u8) },
    Write { address: (u16, u8), data: D },
}

// One `match` each way: by a `map` of the octets there would be three, since one way can refuse.
impl Order<&[u8]> {
    /// The order with octets of its own. A write of no octets, or of more than 232, is refused.
    pub fn held(&self) -> Result<Order<Octets<MOST_DATA>>, Refusal>
        ensures { IfCanAsk result (order_view self.now) (λ h. held_order h ≡ order_view self.now) }
    {
        match self {
            Order::Read { address } => Ok(Order::Read { address: *address }),
            Order::Write { data: [], .. } => Err(Refusal::WrongDataCount),
            Order::Write { address, data } => Ok(Order::Write {
                address: *address,
                data: Octets::try_from(*data).map_err(|_| Refusal::WrongDataCount)?,
            }),
        }
    }
}

impl<D: AsSlice<u8>> Order<D> {
    /// The order with the octets lent.
    pub fn as_order(&self) -> Order<&[u8]>
        ensures { order_view result ≡ order_with D.items self.now }
    {
        match self {
            Order::Read { address } => Order::Read { address: *address },
            Order::Write { address, data } => Order::Write {
                address: *address,
                data: data.as_slice(),
            },
        }
    }
}
