//! Orders and replies, in words. Functions, as in `explain`.
use isdu::order::Order;
use isdu::reply::Reply;
use std::fmt;
use text::hex::Hex;

pub fn explain_order<W: fmt::Write>(
    f: &mut fmt::Formatter<W>,
    label: &str,
    order: &Order<&[u8]>,
) -> fmt::Result {
    match order {
        Order::Read {
            address: (index, subindex),
        } => writeln!(f, "    {label:<12}read index {index}, subindex {subindex}"),
        Order::Write {
            address: (index, subindex),
            data,
        } => writeln!(
            f,
            "    {label:<12}write index {index}, subindex {subindex}: {}",
            Hex(data)
        ),
    }
}

pub fn explain_reply<W: fmt::Write>(
    f: &mut fmt::Formatter<W>,
    reply: &Reply<&[u8]>,
) -> fmt::Result {
    match reply {
        Reply::WriteRefused(error) | Reply::ReadRefused(error) => explain_error(f, *error),
        Reply::WriteDone => writeln!(f, "    reply       written"),
        Reply::ReadDone(data) => writeln!(f, "    reply       read {}", Hex(data)),
    }
}

fn explain_error<W: fmt::Write>(f: &mut fmt::Formatter<W>, error: u16) -> fmt::Result {
    match error_name(error) {
        Some(name) => writeln!(f, "    reply       refused {error:04X} ({name})"),
        None => writeln!(f, "    reply       refused {error:04X}"),
    }
}

// What the standard calls an error type.
fn error_name(error: u16) -> Option<&'static str> {
    match error {
        0x8011 => Some("IDX_NOTAVAIL"),
        0x8012 => Some("SUBIDX_NOTAVAIL"),
        0x8023 => Some("IDX_NOT_ACCESSIBLE"),
        0x8033 => Some("VAL_LENOVRRUN"),
        0x8034 => Some("VAL_LENUNDRUN"),
        _ => None,
    }
}
