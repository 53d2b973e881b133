ghost use Rattle.std.specs.Prelude.{◌≡◌, ◌+◌, ◌≤◌, IfOk, Some, None, Ok, OnOk, MatchResult};
ghost use Rattle.frame.specs.Disturbed.{Sturdy};
ghost use Rattle.frame.specs.Message.{answer_parts, answered_od, status_bits};
ghost use Rattle.frame.specs.View.{answer_view, answer_with, answered_by, answered_fault, answered_octets, answered_test, heard, returned_by, taken_by};

use super::Codec;
use super::seal::sealed_characters;
use crate::check::checksum;
use crate::message::Answer;
use characters::fault::Fault;
use characters::{Characters, MOST};
use control::channel::Access;
use octets::Octets;
use std::convert::AsSlice;

// The event flag in bit 7, the mark of invalid inputs in bit 6.
fn status_bits(event: bool, invalid: bool) -> u8
    ensures { result ≡ status_bits event invalid }
{
    u8::from(event) * 0x80 + u8::from(invalid) * 0x40
}

impl Codec {
    /// How many on-request octets an answer carries.
    pub fn answered(&self, access: Access) -> usize
        ensures value { result ≡ answered_od access self.now.lengths.od }
        ensures bound { result ≤ 32 }
    {
        match access {
            Access::Write => 0,
            Access::Read => self.lengths.od(),
        }
    }

    /// The characters of the answer to an access. On-request octets and inputs are cut or filled
    /// up with 00 to what the line carries.
    pub fn write_answer<D: AsSlice<u8>>(&self, access: Access, answer: &Answer<D>) -> Characters
        ensures value { result ≡ answered_by self.now access (answer_with D.items answer.now) }
        ensures back { taken_by self.now access result ≡ Ok (returned_by self.now access (answer_with D.items answer.now)) }
    {
        sealed_characters(self.answer_row(access, answer), self.status_place(access))
    }

    // The place of the octet with event flag, mark and check: the last.
    fn status_place(&self, access: Access) -> usize
        ensures value { result ≡ answered_od access self.now.lengths.od + self.now.lengths.pd_in }
        ensures bound { result ≤ 64 }
    {
        self.answered(access) + self.lengths.pd_in()
    }

    // The octets of an answer, the check's six bits 0.
    fn answer_row<D: AsSlice<u8>>(&self, access: Access, answer: &Answer<D>) -> Octets<MOST>
        ensures { result ≡ answered_octets self.now access (answer_with D.items answer.now) }
    {
        let mut row = Octets::new();
        row.append(answer.on_request.as_slice(), self.answered(access))
            .unwrap();
        row.append(answer.inputs.as_slice(), self.lengths.pd_in())
            .unwrap();
        row.push(status_bits(answer.event, answer.invalid)).unwrap();
        row
    }

    /// The answer to an access, or the first fault.
    pub fn read_answer(
        &self,
        access: Access,
        record: &Characters,
    ) -> Result<Answer<Octets<32>>, Fault>
        ensures value { heard answer_view result ≡ taken_by self.now access «record».now }
        ensures written { IfOk result (λ m. «record».now ≡ answered_by self.now access (answer_view m)) }
        ensures sturdy { OnOk result (Sturdy (answered_fault self.now access) «record».now) }
    {
        let row = record.octets()?;
        let octets = row.as_slice();
        self.test_answer(access, octets)?;
        Ok(self.answer_parts(access, octets))
    }

    // The first fault of the octets: length, check.
    fn test_answer(&self, access: Access, octets: &[u8]) -> Result<(), Fault>
        ensures { MatchResult result (λ _. answered_test self.now access octets.now ≡ None) (λ f. answered_test self.now access octets.now ≡ Some f) }
    {
        let place = self.status_place(access);
        if octets.len() != place + 1 {
            Err(Fault::Length(octets.len()))
        } else if octets[place] % 64 != checksum(octets, place) {
            Err(Fault::Check)
        } else {
            Ok(())
        }
    }

    // What octets with no fault say.
    fn answer_parts(&self, access: Access, octets: &[u8]) -> Answer<Octets<32>>
        requires { answered_test self.now access octets.now ≡ None }
        ensures { answer_view result ≡ answer_parts self.now.lengths.od self.now.lengths.pd_in access octets.now }
    {
        let answered = self.answered(access);
        let place = self.status_place(access);
        let status = octets[place];
        Answer {
            on_request: Octets::try_from(&octets[0..answered]).unwrap(),
            inputs: Octets::try_from(&octets[answered..place]).unwrap(),
            event: status / 128 % 2 == 1,
            invalid: status / 64 % 2 == 1,
        }
    }
}
