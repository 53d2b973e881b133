//! What can be said of a fault beside its cause.
ghost use Rattle.std.specs.Prelude.{◌≡◌};

use characters::Characters;
use characters::fault::Fault;
use control::Control;
use control::channel::Access;
use frame::check::checksum;
use frame::codec::Codec;

#[derive(Clone, Copy, PartialEq, Eq, Debug)]
pub struct Diagnosis {
    pub fault: Fault,
    /// How many characters were demanded.
    pub demanded: usize,
    /// The octet that carries the check, beside a message's type; 0 where there is none.
    pub carrier: u8,
    /// The check of the octets; 0 where there are none.
    pub check: u8,
}

// The fault is all that each promises, and a name for that would read no plainer.
impl Diagnosis {
    /// What is wrong with the characters of a Master message.
    pub fn of_message(line: &Codec, record: &Characters, fault: Fault) -> Diagnosis
        ensures { result.fault ≡ fault }
    {
        let control = Control::from(octet_at(record, 0));
        let demanded = 2 + line.lengths().pd_out() + line.sent(control.access());
        Diagnosis::of(record, fault, demanded, 1)
    }

    /// What is wrong with the characters of an answer.
    pub fn of_answer(line: &Codec, access: Access, record: &Characters, fault: Fault) -> Diagnosis
        ensures { result.fault ≡ fault }
    {
        let place = line.answered(access) + line.lengths().pd_in();
        Diagnosis::of(record, fault, place + 1, place)
    }

    // Of characters that should be `demanded`, with the check at `place`.
    fn of(record: &Characters, fault: Fault, demanded: usize, place: usize) -> Diagnosis
        ensures { result.fault ≡ fault }
    {
        Diagnosis {
            fault,
            demanded,
            carrier: octet_at(record, place),
            check: record
                .octets()
                .map_or(0, |row| checksum(row.as_slice(), place)),
        }
    }
}

// The octet of the character at a place, or 0 where there is none.
fn octet_at(record: &Characters, place: usize) -> u8 {
    record
        .as_slice()
        .get(place)
        .map_or(0, |character| (*character % 256) as u8)
}
