//! What comes of a command, in words.
use crate::diagnosis::Diagnosis;
use crate::orders::{explain_order, explain_reply};
use crate::outcome::Outcome;
use characters::Characters;
use characters::fault::Fault;
use control::Control;
use control::channel::{Access, Channel, FlowCtrl};
use frame::lengths::Lengths;
use frame::message::{Answer, MasterMessage};
use isdu::opened::NoIsdu;
use isdu::reply::NoReply;
use isdu::request::read_request;
use octets::Octets;
use std::fmt;
use text::hex::Hex;

/// An outcome that is shown as indented lines of text.
#[derive(Clone, Copy, PartialEq, Eq, Debug)]
pub struct Explained<'a>(pub &'a Outcome);

impl fmt::Display for Explained<'_> {
    fn fmt<W: fmt::Write>(&self, f: &mut fmt::Formatter<W>) -> fmt::Result {
        match self.0 {
            Outcome::Opened(lengths) => explain_lengths(f, lengths),
            Outcome::Refused(refusal) => writeln!(f, "    {refusal}"),
            Outcome::Message(message) => explain_message(f, message),
            Outcome::Answer(answer) => explain_answer(f, answer),
            Outcome::Faulty(diagnosis) => explain_fault(f, diagnosis),
            Outcome::Written(record) => explain_record(f, record),
            Outcome::Request(Ok(order)) => explain_order(f, "asks", &order.as_order()),
            Outcome::Request(Err(why)) => explain_no_order(f, *why),
            Outcome::Response(Ok(reply)) => explain_reply(f, &reply.as_reply()),
            Outcome::Response(Err(why)) => explain_no_reply(f, *why),
            Outcome::Encoded(octets) => explain_encoded(f, octets.as_slice()),
        }
    }
}

// Functions: the types belong to crates that know nothing of this view, nor of HEX, and a type of
// our own around each would read no plainer.
fn explain_lengths<W: fmt::Write>(f: &mut fmt::Formatter<W>, lengths: &Lengths) -> fmt::Result {
    let od = lengths.od();
    let pd_in = lengths.pd_in();
    let pd_out = lengths.pd_out();
    writeln!(
        f,
        "    a line with on-request octets: {od}, inputs: {pd_in}, outputs: {pd_out}"
    )
}

fn explain_message<W: fmt::Write>(
    f: &mut fmt::Formatter<W>,
    message: &MasterMessage<Octets<32>>,
) -> fmt::Result {
    explain_control(f, &message.control)?;
    explain_octets(f, "outputs", message.outputs.as_slice())?;
    explain_octets(f, "on-request", message.on_request.as_slice())
}

fn explain_control<W: fmt::Write>(f: &mut fmt::Formatter<W>, control: &Control) -> fmt::Result {
    let access = match control.access() {
        Access::Read => "read",
        Access::Write => "write",
    };
    writeln!(f, "    access      {access}")?;
    match control.channel() {
        Channel::Process(address) => writeln!(f, "    channel     process data, address {address}"),
        Channel::Page(address) => writeln!(f, "    channel     page, address {address}"),
        Channel::Diagnosis(address) => writeln!(f, "    channel     diagnosis, address {address}"),
        Channel::Isdu(flow) => explain_flow(f, flow),
    }
}

fn explain_flow<W: fmt::Write>(f: &mut fmt::Formatter<W>, flow: FlowCtrl) -> fmt::Result {
    match flow {
        FlowCtrl::Count(count) => writeln!(f, "    channel     ISDU, COUNT {count}"),
        FlowCtrl::Start => writeln!(f, "    channel     ISDU, START"),
        FlowCtrl::Idle => writeln!(f, "    channel     ISDU, IDLE"),
        FlowCtrl::Abort => writeln!(f, "    channel     ISDU, ABORT"),
        FlowCtrl::Reserved(value) => writeln!(f, "    channel     ISDU, reserved {value:#04X}"),
    }
}

fn explain_answer<W: fmt::Write>(
    f: &mut fmt::Formatter<W>,
    answer: &Answer<Octets<32>>,
) -> fmt::Result {
    explain_octets(f, "on-request", answer.on_request.as_slice())?;
    explain_octets(f, "inputs", answer.inputs.as_slice())?;
    let valid = if answer.invalid { "not valid" } else { "valid" };
    let flag = if answer.event {
        "set: events are to be read"
    } else {
        "clear"
    };
    writeln!(f, "    inputs are  {valid}")?;
    writeln!(f, "    event flag  {flag}")
}

fn explain_octets<W: fmt::Write>(
    f: &mut fmt::Formatter<W>,
    label: &str,
    octets: &[u8],
) -> fmt::Result {
    if octets.is_empty() {
        return writeln!(f, "    {label:<12}none");
    }
    writeln!(f, "    {label:<12}{}", Hex(octets))
}

// No `Display`, which would be the transcript's.
fn explain_fault<W: fmt::Write>(f: &mut fmt::Formatter<W>, diagnosis: &Diagnosis) -> fmt::Result {
    let demanded = diagnosis.demanded;
    match diagnosis.fault {
        Fault::Silence => writeln!(f, "    nothing was heard"),
        Fault::Parity(place) => writeln!(
            f,
            "    character {place}, counted from 0, has an odd count of ones (parity)"
        ),
        Fault::Length(1) => writeln!(f, "    1 character found, {demanded} demanded"),
        Fault::Length(found) => writeln!(f, "    {found} characters found, {demanded} demanded"),
        Fault::WrongType => {
            let found = diagnosis.carrier / 64;
            writeln!(f, "    M-sequence type {found} in place of 2")
        }
        Fault::Check => {
            let found = diagnosis.carrier % 64;
            let expected = diagnosis.check;
            writeln!(f, "    check {found:02X} found, {expected:02X} expected")
        }
    }
}

fn explain_record<W: fmt::Write>(f: &mut fmt::Formatter<W>, record: &Characters) -> fmt::Result {
    match record.octets() {
        Ok(row) => explain_octets(f, "octets", row.as_slice()),
        Err(_) => Ok(()),
    }
}

fn explain_no_order<W: fmt::Write>(f: &mut fmt::Formatter<W>, why: NoIsdu) -> fmt::Result {
    let words = match why {
        NoIsdu::Incomplete => "octets are still to come",
        NoIsdu::BadTotal => "the first octets say a total that no ISDU has",
        NoIsdu::NotWellFormed => "the octets are all there, and are no request",
    };
    writeln!(f, "    {words}")
}

fn explain_no_reply<W: fmt::Write>(f: &mut fmt::Formatter<W>, why: NoReply) -> fmt::Result {
    let words = match why {
        NoReply::Incomplete => "octets are still to come",
        NoReply::Broken => "no reply of this kind can come of these octets",
    };
    writeln!(f, "    {words}")
}

fn explain_encoded<W: fmt::Write>(f: &mut fmt::Formatter<W>, octets: &[u8]) -> fmt::Result {
    match read_request(octets) {
        Ok(order) => explain_order(f, "asks", &order),
        Err(why) => explain_no_order(f, why),
    }
}
