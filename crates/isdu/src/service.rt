//! The I-Service: what kind of request or reply an ISDU is.
ghost use Rattle.std.specs.Prelude.{◌≡◌, ◌+◌, ◌*◌, ◌/◌, ◌%◌, ◌≤◌, true, IfSome, Some};
ghost use Rattle.isdu.specs.Service.{can_name, first_form, form_bits, service_bits, service_of};

/// The kind of an order, and so of its reply.
// Not `Access` of `control`: an ISDU knows nothing of the messages that carry it.
#[derive(Clone, Copy, PartialEq, Eq, Debug)]
pub enum Service {
    Read,
    Write,
}

/// How a request names the address. The I-Service has its number.
#[derive(Clone, Copy, PartialEq, Eq, Debug)]
pub enum Form {
    /// An index of eight bits; the subindex is 0.
    Index8 = 1,
    /// An index of eight bits and a subindex.
    Index8Subindex = 2,
    /// An index of sixteen bits, the high octet first, and a subindex.
    Index16Subindex = 3,
}

impl Form {
    /// The first form that can name an address.
    pub fn first_for(address: (u16, u8)) -> Form
        ensures value { result ≡ first_form address }
        ensures names { can_name result address ≡ true }
        ensures first { (f : Form) → can_name f address ≡ true → form_bits result ≤ form_bits f }
    {
        match address {
            (0..=255, 0) => Form::Index8,
            (0..=255, _) => Form::Index8Subindex,
            _ => Form::Index16Subindex,
        }
    }
}

/// What an ISDU is, by bits 4 to 7 of its first octet: a request, or a reply.
#[derive(Clone, Copy, PartialEq, Eq, Debug)]
pub enum IService {
    Write(Form),
    Read(Form),
    WriteRefused,
    WriteDone,
    ReadRefused,
    ReadDone,
}

// Neither `From` nor `TryFrom`: an octet has the Length beside the I-Service.
impl IService {
    /// The I-Service of an ISDU's first octet, if its bits 4 to 7 stand for one.
    pub fn from_octet(first: u8) -> Option<IService>
        ensures value { result ≡ service_of first }
        ensures back { IfSome result (λ v. service_bits v ≡ first / 16) }
    {
        match first / 16 {
            0x1 => Some(IService::Write(Form::Index8)),
            0x2 => Some(IService::Write(Form::Index8Subindex)),
            0x3 => Some(IService::Write(Form::Index16Subindex)),
            0x4 => Some(IService::WriteRefused),
            0x5 => Some(IService::WriteDone),
            0x9 => Some(IService::Read(Form::Index8)),
            0xA => Some(IService::Read(Form::Index8Subindex)),
            0xB => Some(IService::Read(Form::Index16Subindex)),
            0xC => Some(IService::ReadRefused),
            0xD => Some(IService::ReadDone),
            _ => None,
        }
    }

    /// The first octet of an ISDU with a Length, of which bits 0 to 3 are taken.
    pub fn to_octet(self, length: u8) -> u8
        ensures value { result ≡ service_bits self * 16 + length % 16 }
        ensures back { service_of result ≡ Some self }
    {
        let bits = match self {
            IService::Write(form) => form as u8,
            IService::Read(form) => 8 + form as u8,
            IService::WriteRefused => 0x4,
            IService::WriteDone => 0x5,
            IService::ReadRefused => 0xC,
            IService::ReadDone => 0xD,
        };
        bits * 16 + length % 16
    }
}
