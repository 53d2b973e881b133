//! What an order is answered.
ghost use Rattle.std.specs.Prelude.{◌≡◌};
ghost use Rattle.isdu.specs.Reply.{IfCanAnswer, held_reply, reply_view, reply_with};
ghost use Rattle.isdu.specs.Response.{no_reply};

use crate::MOST_DATA;
use crate::opened::NoIsdu;
use octets::Octets;
use std::convert::AsSlice;
use thiserror::Error;

/// The reply to an order. An error type says why the application refused it.
#[derive(Clone, Copy, PartialEq, Eq, Debug, Drop)]
pub enum Reply<D> {
    WriteRefused(u16),
    WriteDone,
    ReadRefused(u16),
    ReadDone(D),
}

// One `match` each way, as for an order.
impl Reply<&[u8]> {
    /// The reply with octets of its own. Where a read has more than 232 there is none.
    pub fn held(&self) -> Option<Reply<Octets<MOST_DATA>>>
        ensures { IfCanAnswer result (reply_view self.now) (λ h. held_reply h ≡ reply_view self.now) }
    {
        match self {
            Reply::WriteRefused(error) => Some(Reply::WriteRefused(*error)),
            Reply::WriteDone => Some(Reply::WriteDone),
            Reply::ReadRefused(error) => Some(Reply::ReadRefused(*error)),
            Reply::ReadDone(data) => Some(Reply::ReadDone(Octets::try_from(*data).ok()?)),
        }
    }
}

impl<D: AsSlice<u8>> Reply<D> {
    /// The reply with the octets lent.
    pub fn as_reply(&self) -> Reply<&[u8]>
        ensures { reply_view result ≡ reply_with D.items self.now }
    {
        match self {
            Reply::WriteRefused(error) => Reply::WriteRefused(*error),
            Reply::WriteDone => Reply::WriteDone,
            Reply::ReadRefused(error) => Reply::ReadRefused(*error),
            Reply::ReadDone(data) => Reply::ReadDone(data.as_slice()),
        }
    }
}

/// Why octets are no reply that can be read.
#[derive(Clone, Copy, PartialEq, Eq, Debug, Error)]
pub enum NoReply {
    /// Octets are still to come.
    #[error("incomplete")]
    Incomplete,
    /// No reply of the order's kind can come of them.
    #[error("broken")]
    Broken,
}

impl From<NoIsdu> for NoReply {
    ghost from_gives = { λ why e. e ≡ no_reply why };

    fn from(why: NoIsdu) -> NoReply {
        match why {
            NoIsdu::Incomplete => NoReply::Incomplete,
            NoIsdu::BadTotal | NoIsdu::NotWellFormed => NoReply::Broken,
        }
    }
}
