//! What a control octet speaks of: the access, the channel and what it addresses there.
#[derive(Clone, Copy, PartialEq, Eq, Debug)]
pub enum Access {
    Read,
    Write,
}

/// The flow control of an ISDU's messages.
#[derive(Clone, Copy, PartialEq, Eq, Debug)]
pub enum FlowCtrl {
    /// The number of a message after the first, modulo 16.
    Count(u8),
    /// The first message of a request or of a reply.
    Start,
    /// No request or reply is under way.
    Idle,
    /// The request or reply is given up.
    Abort,
    /// A value that the standard reserves.
    Reserved(u8),
}

/// A channel with the address there, or on the ISDU channel with the flow control.
#[derive(Clone, Copy, PartialEq, Eq, Debug)]
pub enum Channel {
    Process(u8),
    Page(u8),
    Diagnosis(u8),
    Isdu(FlowCtrl),
}
