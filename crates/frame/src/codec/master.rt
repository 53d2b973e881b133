ghost use Rattle.std.specs.Prelude.{◌≡◌, ◌≤◌, IfOk, Some, None, Ok, OnOk, MatchResult};
ghost use Rattle.frame.specs.Disturbed.{Sturdy};
ghost use Rattle.frame.specs.Message.{master_parts, sent_od};
ghost use Rattle.frame.specs.View.{carried_by, heard, master_view, master_with, received_by, sent_by, sent_fault, sent_octets, sent_test};

use super::Codec;
use super::seal::sealed_characters;
use crate::check::checksum;
use crate::message::MasterMessage;
use characters::fault::Fault;
use characters::{Characters, MOST};
use control::Control;
use control::channel::Access;
use octets::Octets;
use std::convert::AsSlice;

impl Codec {
    /// How many on-request octets a Master message carries.
    // `answered` is its reverse: in one function a call would have to say which of them it means.
    pub fn sent(&self, access: Access) -> usize
        ensures value { result ≡ sent_od access self.now.lengths.od }
        ensures bound { result ≤ 32 }
    {
        match access {
            Access::Write => self.lengths.od(),
            Access::Read => 0,
        }
    }

    /// The characters of a Master message. Outputs and on-request octets are cut or filled up
    /// with 00 to what the line carries.
    pub fn write_message<D: AsSlice<u8>>(&self, message: &MasterMessage<D>) -> Characters
        ensures value { result ≡ sent_by self.now (master_with D.items message.now) }
        ensures back { received_by self.now result ≡ Ok (carried_by self.now (master_with D.items message.now)) }
    {
        sealed_characters(self.message_row(message), 1)
    }

    // The octets of a Master message, the check's six bits 0.
    fn message_row<D: AsSlice<u8>>(&self, message: &MasterMessage<D>) -> Octets<MOST>
        ensures { result ≡ sent_octets self.now (master_with D.items message.now) }
    {
        let mut row = Octets::new();
        row.push(u8::from(message.control)).unwrap();
        row.push(u8::from(self.kind) * 64).unwrap();
        row.append(message.outputs.as_slice(), self.lengths.pd_out())
            .unwrap();
        row.append(
            message.on_request.as_slice(),
            self.sent(message.control.access()),
        )
        .unwrap();
        row
    }

    /// The message of characters, or the first fault.
    pub fn read_message(&self, record: &Characters) -> Result<MasterMessage<Octets<32>>, Fault>
        ensures value { heard master_view result ≡ received_by self.now «record».now }
        ensures written { IfOk result (λ m. «record».now ≡ sent_by self.now (master_view m)) }
        ensures sturdy { OnOk result (Sturdy (sent_fault self.now) «record».now) }
    {
        let row = record.octets()?;
        let octets = row.as_slice();
        self.test_message(octets)?;
        Ok(self.message_parts(octets))
    }

    // The first fault of the octets: length, type, check.
    fn test_message(&self, octets: &[u8]) -> Result<(), Fault>
        ensures { MatchResult result (λ _. sent_test self.now octets.now ≡ None) (λ f. sent_test self.now octets.now ≡ Some f) }
    {
        let [first, second, data @ ..] = octets else {
            return Err(Fault::Length(octets.len()));
        };
        let access = Control::from(*first).access();
        if data.len() != self.lengths.pd_out() + self.sent(access) {
            Err(Fault::Length(octets.len()))
        } else if second / 64 != u8::from(self.kind) {
            Err(Fault::WrongType)
        } else if second % 64 != checksum(octets, 1) {
            Err(Fault::Check)
        } else {
            Ok(())
        }
    }

    // What octets with no fault say.
    fn message_parts(&self, octets: &[u8]) -> MasterMessage<Octets<32>>
        requires { sent_test self.now octets.now ≡ None }
        ensures { master_view result ≡ master_parts self.now.lengths.pd_out octets.now }
    {
        let control = Control::from(octets[0]);
        let (outputs, on_request) = octets[2..].split_at(self.lengths.pd_out());
        MasterMessage {
            control,
            outputs: Octets::try_from(outputs).unwrap(),
            on_request: Octets::try_from(on_request).unwrap(),
        }
    }
}
