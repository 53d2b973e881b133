//! What the messages of both directions say.
ghost use Rattle.std.specs.Prelude.{◌≡◌, ◌<◌};
ghost use Rattle.frame.specs.View.{kind_bits};

use control::Control;

/// The M-sequence type in bits 7 and 6 of a Master message's second octet. The line uses type 2.
#[derive(Clone, Copy, PartialEq, Eq, Debug)]
pub enum SequenceType {
    Type0 = 0,
    Type1 = 1,
    Type2 = 2,
}

// Its two bits.
impl From<SequenceType> for u8 {
    ghost from_gives = { λ kind bits. (bits ≡ kind_bits kind) × (bits < 3) };

    fn from(kind: SequenceType) -> u8 {
        kind as u8
    }
}

/// From the Master to the Device, with the octets as D. A read carries no on-request octets.
#[derive(Clone, Copy, PartialEq, Eq, Debug, Drop)]
pub struct MasterMessage<D> {
    pub control: Control,
    pub outputs: D,
    pub on_request: D,
}

/// From the Device to the Master, with the octets as D. The answer to a write carries no
/// on-request octets.
#[derive(Clone, Copy, PartialEq, Eq, Debug, Drop)]
pub struct Answer<D> {
    pub on_request: D,
    pub inputs: D,
    /// The event flag: a set of events is shown.
    pub event: bool,
    /// The inputs are not valid.
    pub invalid: bool,
}
