//! The control octet as a value with names: each octet is exactly one value.
#![tactic(auto)]

ghost use Rattle.std.specs.Prelude.{◌≡◌, ◌<◌, true, false, MatchOption};
ghost use Rattle.control.specs.Control.{IsControlOctet, flow_of, is_channel};

use crate::channel::{Access, Channel, FlowCtrl};

pub mod channel;

/// The first octet of a Master message.
#[derive(Clone, Copy, PartialEq, Eq, Debug)]
pub struct Control {
    access: Access,
    channel: Channel,
    ghost exists: { is_channel channel ≡ true },
}

impl Control {
    /// The control of an access to a channel, unless no octet says that: an address above 31, a
    /// COUNT above 15, a reserved value that is none.
    pub fn new(access: Access, channel: Channel) -> Option<Control>
        ensures { MatchOption result (is_channel channel ≡ false) (λ c. (is_channel channel ≡ true) × (c.access ≡ access) × (c.channel ≡ channel)) }
    {
        let exists = match channel {
            Channel::Process(address) | Channel::Page(address) | Channel::Diagnosis(address) =>
                address < 32,
            Channel::Isdu(FlowCtrl::Count(count)) => count < 16,
            Channel::Isdu(FlowCtrl::Reserved(value)) => value > 17 && value < 31,
            Channel::Isdu(_) => true,
        };
        if exists {
            Some(Control { access, channel })
        } else {
            None
        }
    }

    pub fn access(&self) -> Access
        ensures { result ≡ self.now.access }
    {
        self.access
    }

    pub fn channel(&self) -> Channel
        ensures { result ≡ self.now.channel }
    {
        self.channel
    }
}

impl From<u8> for Control {
    ghost from_gives = { λ octet control. IsControlOctet octet control.access control.channel };

    fn from(octet: u8) -> Control {
        let access = if octet >= 0x80 {
            Access::Read
        } else {
            Access::Write
        };
        let low = octet % 32;
        let channel = match octet / 32 % 4 {
            0 => Channel::Process(low),
            1 => Channel::Page(low),
            2 => Channel::Diagnosis(low),
            _ => Channel::Isdu(flow_control(low)),
        };
        Control { access, channel }
    }
}

impl From<Control> for u8 {
    ghost from_gives = { λ control octet. IsControlOctet octet control.access control.channel };

    fn from(control: Control) -> u8 {
        let access = match control.access {
            Access::Read => 0x80,
            Access::Write => 0,
        };
        let channel = match control.channel {
            Channel::Process(address) => address,
            Channel::Page(address) => 0x20 + address,
            Channel::Diagnosis(address) => 0x40 + address,
            Channel::Isdu(FlowCtrl::Count(count)) => 0x60 + count,
            Channel::Isdu(FlowCtrl::Start) => 0x70,
            Channel::Isdu(FlowCtrl::Idle) => 0x71,
            Channel::Isdu(FlowCtrl::Abort) => 0x7F,
            Channel::Isdu(FlowCtrl::Reserved(value)) => 0x60 + value,
        };
        access + channel
    }
}

// The flow control of the five low bits.
fn flow_control(low: u8) -> FlowCtrl
    requires { low < 32 }
    ensures { result ≡ flow_of low }
{
    match low {
        0..=15 => FlowCtrl::Count(low),
        16 => FlowCtrl::Start,
        17 => FlowCtrl::Idle,
        31 => FlowCtrl::Abort,
        _ => FlowCtrl::Reserved(low),
    }
}
