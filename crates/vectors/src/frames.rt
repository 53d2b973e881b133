//! Messages and answers, written and read.
use crate::trouble::Trouble;
use characters::{Characters, MOST};
use control::channel::Access;
use frame::codec::Codec;
use frame::lengths::Lengths;
use frame::message::{Answer, MasterMessage, SequenceType};
use octets::Octets;
use script::command::{Command, parse_line};
use script::word::split_word;
use std::alloc::Global;
use text::hex::hex_text;
use text::number::parse_number;

/// The line of a task.
#[derive(Clone, Copy, PartialEq, Eq, Debug)]
pub struct Line(Codec);

impl Line {
    /// The line with the lengths that a text begins with, and what follows them.
    pub fn parse(text: &[u8]) -> Result<(Line, &[u8]), Trouble> {
        let (od, rest) = split_word(text);
        let (pd_in, rest) = split_word(rest);
        let (pd_out, rest) = split_word(rest);
        let lengths = Lengths::new(length(od)?, length(pd_in)?, length(pd_out)?).map_err(
            |_| Trouble::NoLengths,
        )?;
        Ok((Line(Codec::new(lengths, SequenceType::Type2)), rest))
    }

    /// The octets that a command writes, if those of the row are read as what it says.
    pub fn written(
        &self,
        heap: Global,
        command: &[u8],
        row: &Octets<MOST>,
    ) -> Result<String, Trouble> {
        let Ok(Some(command)) = parse_line(heap, command) else {
            return Err(Trouble::NoCommand);
        };
        octets_text(heap, &self.obeyed(&command, &Characters::from(row))?)
    }

    fn obeyed(&self, command: &Command, heard: &Characters) -> Result<Characters, Trouble> {
        match command {
            Command::Put(message) => self.message(heard, &held_message(message)?),
            Command::Reply { control, answer } => {
                self.answer(heard, control.access(), &held_answer(answer)?)
            }
            _ => Err(Trouble::OtherCommand),
        }
    }

    fn message(
        &self,
        heard: &Characters,
        message: &MasterMessage<Octets<32>>,
    ) -> Result<Characters, Trouble> {
        if self.0.read_message(heard) == Ok(*message) {
            Ok(self.0.write_message(message))
        } else {
            Err(Trouble::OtherMessage)
        }
    }

    fn answer(
        &self,
        heard: &Characters,
        access: Access,
        answer: &Answer<Octets<32>>,
    ) -> Result<Characters, Trouble> {
        if self.0.read_answer(access, heard) == Ok(*answer) {
            Ok(self.0.write_answer(access, answer))
        } else {
            Err(Trouble::OtherAnswer)
        }
    }
}

// A message and an answer differ in their fields, and so these two, and the two above.
fn held_message(message: &MasterMessage<Vec<u8>>) -> Result<MasterMessage<Octets<32>>, Trouble> {
    Ok(MasterMessage {
        control: message.control,
        outputs: few(message.outputs.as_slice())?,
        on_request: few(message.on_request.as_slice())?,
    })
}

fn held_answer(answer: &Answer<Vec<u8>>) -> Result<Answer<Octets<32>>, Trouble> {
    Ok(Answer {
        on_request: few(answer.on_request.as_slice())?,
        inputs: few(answer.inputs.as_slice())?,
        event: answer.event,
        invalid: answer.invalid,
    })
}

// One of the lengths of a line.
fn length(word: &[u8]) -> Result<usize, Trouble> {
    match parse_number(word, 32) {
        Ok(length) => Ok(length as usize),
        Err(_) => Err(Trouble::NoLengths),
    }
}

// Octets of which a message carries no more.
fn few(octets: &[u8]) -> Result<Octets<32>, Trouble> {
    Octets::try_from(octets).map_err(|_| Trouble::TooManyOctets)
}

// The octets of characters, in the form of the table.
fn octets_text(heap: Global, record: &Characters) -> Result<String, Trouble> {
    match record.octets() {
        Ok(row) => Ok(hex_text(heap, row.as_slice())?),
        Err(_) => Err(Trouble::Faulty),
    }
}
