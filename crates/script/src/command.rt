//! The commands of a script.
ghost use Rattle.std.specs.Prelude.{◌≡◌, [], IfOk, None, Ok, codes, MatchOption};
ghost use Rattle.script.specs.Lines.{IsCommand, ReadsCommand};
ghost use Rattle.script.specs.Words.{first_word, said};

use crate::mistake::{Mistake, Part};
use crate::reader::Words;
use crate::word::without_comment;
use control::Control;
use frame::message::{Answer, MasterMessage};
use isdu::order::Order;
use isdu::service::Service;
use std::alloc::Global;

#[derive(PartialEq, Eq, Debug, Drop)]
pub enum Command {
    /// Opens a line for single messages.
    OpenFrame {
        od: usize,
        pd_in: usize,
        pd_out: usize,
    },
    /// Reads a Master message.
    Message {
        record: Vec<u16>,
    },
    /// Reads the answer to a message.
    Answer {
        control: Control,
        record: Vec<u16>,
    },
    /// Writes a Master message.
    Put(MasterMessage<Vec<u8>>),
    /// Writes the answer to a message with this control octet.
    Reply {
        control: Control,
        answer: Answer<Vec<u8>>,
    },
    /// Reads a request.
    Request {
        octets: Vec<u8>,
    },
    /// Reads what has come of the reply to an order of this kind.
    Response {
        service: Service,
        octets: Vec<u8>,
    },
    /// Writes the request of an order.
    Encode(Order<Vec<u8>>),
}

/// The command of a line, if it has one.
pub fn parse_line(heap: Global, line: &[u8]) -> Result<Option<Command>, Mistake>
    ensures command { IfOk result (λ o. MatchOption o (first_word (said line.now) ≡ []) (IsCommand (said line.now))) }
    ensures empty { first_word (said line.now) ≡ [] → result ≡ Ok None }
{
    let mut words = Words::new(heap, without_comment(line));
    let Some(name) = words.next_word() else {
        return Ok(None);
    };
    let command = arguments(name, &mut words)?;
    words.end()?;
    Ok(Some(command))
}

// The command of a name with the words that follow it.
fn arguments(name: &[u8], words: &mut Words<'_>) -> Result<Command, Mistake>
    ensures { IfOk result (ReadsCommand name.now words.old words.new) }
{
    match name {
        b"open" => open(words),
        b"message" => message(words),
        b"answer" => answer(words),
        b"put" => put(words),
        b"reply" => reply(words),
        b"request" => request(words),
        b"response" => response(words),
        b"encode" => encode(words),
        other => Err(Mistake::NoCommand(words.quoted(other)?)),
    }
}

fn open(words: &mut Words<'_>) -> Result<Command, Mistake>
    ensures { IfOk result (ReadsCommand (codes "open") words.old words.new) }
{
    match words.word(Part::Kind)? {
        b"frame" => Ok(Command::OpenFrame {
            od: words.count(Part::OnRequestCount)?,
            pd_in: words.count(Part::InputCount)?,
            pd_out: words.count(Part::OutputCount)?,
        }),
        other => Err(Mistake::NoKind(words.quoted(other)?)),
    }
}

fn message(words: &mut Words<'_>) -> Result<Command, Mistake>
    ensures { IfOk result (ReadsCommand (codes "message") words.old words.new) }
{
    Ok(Command::Message {
        record: words.record()?,
    })
}

fn answer(words: &mut Words<'_>) -> Result<Command, Mistake>
    ensures { IfOk result (ReadsCommand (codes "answer") words.old words.new) }
{
    Ok(Command::Answer {
        control: words.control()?,
        record: words.record()?,
    })
}

fn put(words: &mut Words<'_>) -> Result<Command, Mistake>
    ensures { IfOk result (ReadsCommand (codes "put") words.old words.new) }
{
    Ok(Command::Put(MasterMessage {
        control: words.control()?,
        outputs: words.octets(Part::Outputs)?,
        on_request: words.octets(Part::OnRequest)?,
    }))
}

fn reply(words: &mut Words<'_>) -> Result<Command, Mistake>
    ensures { IfOk result (ReadsCommand (codes "reply") words.old words.new) }
{
    Ok(Command::Reply {
        control: words.control()?,
        answer: Answer {
            on_request: words.octets(Part::OnRequest)?,
            inputs: words.octets(Part::Inputs)?,
            event: words.flag(Part::EventFlag)?,
            invalid: words.flag(Part::InvalidMark)?,
        },
    })
}

fn request(words: &mut Words<'_>) -> Result<Command, Mistake>
    ensures { IfOk result (ReadsCommand (codes "request") words.old words.new) }
{
    Ok(Command::Request {
        octets: words.octets(Part::Octets)?,
    })
}

fn response(words: &mut Words<'_>) -> Result<Command, Mistake>
    ensures { IfOk result (ReadsCommand (codes "response") words.old words.new) }
{
    Ok(Command::Response {
        service: words.service()?,
        octets: words.octets(Part::Octets)?,
    })
}

fn encode(words: &mut Words<'_>) -> Result<Command, Mistake>
    ensures { IfOk result (ReadsCommand (codes "encode") words.old words.new) }
{
    let service = words.service()?;
    let address = words.address()?;
    Ok(Command::Encode(match service {
        Service::Read => Order::Read { address },
        Service::Write => Order::Write {
            address,
            data: words.octets(Part::Octets)?,
        },
    }))
}
