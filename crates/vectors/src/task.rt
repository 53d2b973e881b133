//! What a row of the table asks for.
use crate::frames::Line;
use crate::trouble::Trouble;
use characters::{Characters, MOST};
use frame::check::checksum;
use octets::Octets;
use script::command::parse_line;
use script::word::split_word;
use std::alloc::{AllocError, Global};
use text::chars::chars_text;
use text::hex::{hex_text, parse_hex};
use text::number::parse_number;

/// What the task gives, in the form of what is expected.
pub fn found(heap: Global, task: &str, expected: &str) -> Result<String, Trouble> {
    let (name, rest) = split_word(task.as_bytes());
    match name {
        b"check" => checked(heap, rest, expected.as_bytes()),
        b"chars" => coded(heap, rest),
        b"mistake" => Ok(mistaken(heap, rest)?),
        _ => {
            let (line, command) = Line::parse(task.as_bytes())?;
            line.written(heap, command, &row_of(heap, expected.as_bytes())?)
        }
    }
}

// The expected octets with the check that they should have at a place.
fn checked(heap: Global, place: &[u8], expected: &[u8]) -> Result<String, Trouble> {
    let (place, _) = split_word(place);
    let (Ok(place), Ok(mut octets)) = (parse_number(place, 65), parse_hex(heap, expected)) else {
        return Err(Trouble::NoPlace);
    };
    let place = place as usize;
    let check = checksum(octets.as_slice(), place);
    if let Some(octet) = octets.get_mut(place) {
        *octet = (*octet & 0xC0) | check;
    }
    Ok(hex_text(heap, octets.as_slice())?)
}

// The characters of octets.
fn coded(heap: Global, octets: &[u8]) -> Result<String, Trouble> {
    let (word, _) = split_word(octets);
    let row = row_of(heap, word)?;
    Ok(chars_text(heap, Characters::from(&row).as_slice())?)
}

// The octets of a HEX word, if they fit a message.
fn row_of(heap: Global, word: &[u8]) -> Result<Octets<MOST>, Trouble> {
    let Ok(octets) = parse_hex(heap, word) else {
        return Err(Trouble::NoOctets);
    };
    Octets::try_from(octets.as_slice()).map_err(|_| Trouble::NoOctets)
}

// What is wrong with a line of a script.
fn mistaken(heap: Global, line: &[u8]) -> Result<String, AllocError> {
    match parse_line(heap, line) {
        Ok(_) => String::from_str(heap, "nothing"),
        Err(mistake) => format!(in heap; "{mistake}"),
    }
}
