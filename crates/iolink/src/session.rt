//! What is open while a script runs, and what its commands do there.
ghost use Rattle.std.specs.Prelude.{◌≡◌, ◌↔◌, IfOk, IsOk, Some, None, MatchResult, OnErr, vec_items};
ghost use Rattle.iolink.specs.Commands.{Asks, Encodes, Judges, Obeys, Opens, Plays, PutCounts, Puts, Receives, Replies, ReplyCounts, Takes};
ghost use Rattle.frame.specs.View.{answer_with, master_with};
ghost use Rattle.isdu.specs.Order.{order_view};

use crate::diagnosis::Diagnosis;
use crate::outcome::{Outcome, Problem};
use characters::Characters;
use control::channel::Access;
use frame::codec::Codec;
use frame::lengths::Lengths;
use frame::message::{Answer, MasterMessage, SequenceType};
use isdu::order::Order;
use isdu::request::{read_request, write_request};
use isdu::response::read_reply;
use isdu::service::Service;
use script::command::{Command, parse_line};
use script::mistake::Part;
use std::alloc::Global;

/// The line that is open for single messages, if one is.
#[derive(Clone, Copy, PartialEq, Eq, Debug)]
pub struct Session {
    line: Option<Codec>,
}

impl Session {
    /// Nothing is open.
    pub fn new() -> Session
        ensures { result.line ≡ None }
    {
        Session { line: None }
    }

    /// Runs the command of a line, if it has one.
    pub fn run_line(&mut self, heap: Global, line: &[u8]) -> Result<Option<Outcome>, Problem>
        ensures played { IfOk result (λ o. Plays self.old.line self.new.line line.now o) }
        ensures unmoved { OnErr result (self.new.line ≡ self.old.line) }
    {
        match parse_line(heap, line)? {
            None => Ok(None),
            Some(command) => Ok(Some(self.run(&command)?)),
        }
    }

    fn run(&mut self, command: &Command) -> Result<Outcome, Problem>
        ensures obeyed { IfOk result (λ o. Obeys self.old.line self.new.line command.now o) }
        ensures unmoved { OnErr result (self.new.line ≡ self.old.line) }
    {
        match command {
            Command::OpenFrame { od, pd_in, pd_out } => Ok(self.open(*od, *pd_in, *pd_out)),
            Command::Message { record } => Ok(message(&self.line()?, record.as_slice())),
            Command::Answer { control, record } => {
                Ok(answer(&self.line()?, control.access(), record.as_slice()))
            }
            Command::Put(message) => put(&self.line()?, message),
            Command::Reply { control, answer } => reply(&self.line()?, control.access(), answer),
            Command::Request { octets } => Ok(request(octets.as_slice())),
            Command::Response { service, octets } => Ok(response(*service, octets.as_slice())),
            Command::Encode(order) => Ok(encode(&order.as_order())),
        }
    }

    fn line(&self) -> Result<Codec, Problem>
        ensures { MatchResult result (λ d. self.now.line ≡ Some d) (λ _. self.now.line ≡ None) }
    {
        self.line.ok_or(Problem::NoLine)
    }

    // Opens a line in place of what is open; where that is refused, what is open stays.
    fn open(&mut self, od: usize, pd_in: usize, pd_out: usize) -> Outcome
        ensures { Opens od pd_in pd_out self.old.line self.new.line result }
    {
        match Lengths::new(od, pd_in, pd_out) {
            Ok(lengths) => {
                self.line = Some(Codec::new(lengths, SequenceType::Type2));
                Outcome::Opened(lengths)
            }
            Err(refusal) => Outcome::Refused(refusal),
        }
    }
}

// `answer`, and `reply` beside `put`, differ in more than types: an answer needs the access of the
// message that it answers.
fn message(line: &Codec, numbers: &[u16]) -> Outcome
    ensures { Receives line.now numbers.now result }
{
    match Characters::try_from(numbers) {
        Err(refusal) => Outcome::Refused(refusal),
        Ok(record) => match line.read_message(&record) {
            Ok(message) => Outcome::Message(message),
            Err(fault) => Outcome::Faulty(Diagnosis::of_message(line, &record, fault)),
        },
    }
}

fn answer(line: &Codec, access: Access, numbers: &[u16]) -> Outcome
    ensures { Takes line.now access numbers.now result }
{
    match Characters::try_from(numbers) {
        Err(refusal) => Outcome::Refused(refusal),
        Ok(record) => match line.read_answer(access, &record) {
            Ok(answer) => Outcome::Answer(answer),
            Err(fault) => Outcome::Faulty(Diagnosis::of_answer(line, access, &record, fault)),
        },
    }
}

fn put(line: &Codec, message: &MasterMessage<Vec<u8>>) -> Result<Outcome, Problem>
    ensures { MatchResult result (λ o. Puts (master_with vec_items message.now) o line.now) (λ _. ¬ (PutCounts line.now (master_with vec_items message.now))) }
{
    let sent = line.sent(message.control.access());
    counted(
        Part::Outputs,
        message.outputs.len(),
        line.lengths().pd_out(),
    )?;
    counted(Part::OnRequest, message.on_request.len(), sent)?;
    Ok(Outcome::Written(line.write_message(message)))
}

fn reply(line: &Codec, access: Access, answer: &Answer<Vec<u8>>) -> Result<Outcome, Problem>
    ensures { MatchResult result (λ o. Replies access (answer_with vec_items answer.now) o line.now) (λ _. ¬ (ReplyCounts line.now access (answer_with vec_items answer.now))) }
{
    counted(
        Part::OnRequest,
        answer.on_request.len(),
        line.answered(access),
    )?;
    counted(Part::Inputs, answer.inputs.len(), line.lengths().pd_in())?;
    Ok(Outcome::Written(line.write_answer(access, answer)))
}

fn request(octets: &[u8]) -> Outcome
    ensures { Asks octets.now result }
{
    match read_request(octets) {
        Ok(order) => match order.held() {
            Ok(order) => Outcome::Request(Ok(order)),
            Err(refusal) => Outcome::Refused(refusal),
        },
        Err(why) => Outcome::Request(Err(why)),
    }
}

fn response(service: Service, octets: &[u8]) -> Outcome
    ensures { Judges service octets.now result }
{
    match read_reply(service, octets) {
        Ok(reply) => match reply.held() {
            Some(reply) => Outcome::Response(Ok(reply)),
            None => unreachable!(),
        },
        Err(why) => Outcome::Response(Err(why)),
    }
}

fn encode(order: &Order<&[u8]>) -> Outcome
    ensures { Encodes (order_view order.now) result }
{
    match write_request(order) {
        Ok(row) => Outcome::Encoded(row),
        Err(refusal) => Outcome::Refused(refusal),
    }
}

// Whether there are as many octets as expected.
fn counted(part: Part, found: usize, expected: usize) -> Result<(), Problem>
    ensures { IsOk result ↔ (found ≡ expected) }
{
    if found != expected {
        return Err(Problem::WrongCount {
            part,
            expected,
            found,
        });
    }
    Ok(())
}
