//! What comes of a command, as the transcript prints it.
use crate::diagnosis::Diagnosis;
use characters::Characters;
use characters::refusal::Refusal;
use frame::lengths::Lengths;
use frame::message::{Answer, MasterMessage};
use isdu::opened::NoIsdu;
use isdu::order::Order;
use isdu::reply::{NoReply, Reply};
use isdu::{MOST, MOST_DATA};
use octets::Octets;
use script::mistake::{Mistake, Part};
use std::fmt;
use text::chars::Chars;
use text::hex::Hex;
use thiserror::Error;

/// What a command of right form gives.
#[derive(Clone, Copy, PartialEq, Eq, Debug)]
pub enum Outcome {
    Opened(Lengths),
    Refused(Refusal),
    Message(MasterMessage<Octets<32>>),
    Answer(Answer<Octets<32>>),
    Faulty(Diagnosis),
    Written(Characters),
    Request(Result<Order<Octets<MOST_DATA>>, NoIsdu>),
    Response(Result<Reply<Octets<MOST_DATA>>, NoReply>),
    Encoded(Octets<MOST>),
}

/// Why a line is no command that can be run.
#[derive(PartialEq, Eq, Debug, Drop, Error)]
pub enum Problem {
    #[error("{0}")]
    Mistake(Mistake),
    #[error("no line is open")]
    NoLine,
    /// Another count of octets than the open line carries.
    #[error("{part}: {expected} expected, {found} found")]
    WrongCount {
        part: Part,
        expected: usize,
        found: usize,
    },
}

impl From<Mistake> for Problem {
    fn from(mistake: Mistake) -> Problem {
        Problem::Mistake(mistake)
    }
}

impl fmt::Display for Outcome {
    fn fmt<W: fmt::Write>(&self, f: &mut fmt::Formatter<W>) -> fmt::Result {
        match self {
            Outcome::Opened(_) => f.write_str("ok"),
            Outcome::Refused(refusal) => {
                let number = refusal.number();
                write!(f, "refused {number}")
            }
            Outcome::Message(message) => write_message(f, message),
            Outcome::Answer(answer) => write_answer(f, answer),
            Outcome::Faulty(diagnosis) => write!(f, "fault {}", diagnosis.fault),
            Outcome::Written(record) => write!(f, "{}", Chars(record.as_slice())),
            Outcome::Request(Ok(order)) => write_order(f, &order.as_order()),
            Outcome::Request(Err(why)) => write!(f, "{why}"),
            Outcome::Response(Ok(reply)) => write_report(f, &reply.as_reply()),
            Outcome::Response(Err(why)) => write_no_reply(f, *why),
            Outcome::Encoded(octets) => write!(f, "{}", Hex(octets.as_slice())),
        }
    }
}

// Functions: the types belong to crates that know nothing of the transcript, nor of HEX, and a type
// of our own around each would read no plainer.
fn write_message<W: fmt::Write>(
    f: &mut fmt::Formatter<W>,
    message: &MasterMessage<Octets<32>>,
) -> fmt::Result {
    let control = [u8::from(message.control)];
    let outputs = Hex(message.outputs.as_slice());
    let on_request = Hex(message.on_request.as_slice());
    write!(f, "good {} {outputs} {on_request}", Hex(&control))
}

fn write_answer<W: fmt::Write>(
    f: &mut fmt::Formatter<W>,
    answer: &Answer<Octets<32>>,
) -> fmt::Result {
    let on_request = Hex(answer.on_request.as_slice());
    let inputs = Hex(answer.inputs.as_slice());
    let event = u8::from(answer.event);
    let invalid = u8::from(answer.invalid);
    write!(f, "good {on_request} {inputs} {event} {invalid}")
}

fn write_order<W: fmt::Write>(f: &mut fmt::Formatter<W>, order: &Order<&[u8]>) -> fmt::Result {
    match order {
        Order::Read {
            address: (index, subindex),
        } => write!(f, "read {index} {subindex}"),
        Order::Write {
            address: (index, subindex),
            data,
        } => write!(f, "write {index} {subindex} {}", Hex(data)),
    }
}

fn write_no_reply<W: fmt::Write>(f: &mut fmt::Formatter<W>, why: NoReply) -> fmt::Result {
    f.write_str(match why {
        NoReply::Incomplete => "go on",
        NoReply::Broken => "report broken",
    })
}

fn write_report<W: fmt::Write>(f: &mut fmt::Formatter<W>, reply: &Reply<&[u8]>) -> fmt::Result {
    match reply {
        Reply::WriteRefused(error) | Reply::ReadRefused(error) => {
            write!(f, "report refused {error:04X}")
        }
        Reply::WriteDone => f.write_str("report written"),
        Reply::ReadDone(data) => write!(f, "report read {}", Hex(data)),
    }
}
