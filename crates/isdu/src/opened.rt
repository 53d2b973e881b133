//! The parts of an ISDU, whatever it carries.
ghost use Rattle.std.specs.Prelude.{◌≡◌, ◌%◌, ◌≤◌, true, length, Ok, Err, MatchResult, slice_index};
ghost use Rattle.isdu.specs.Opened.{contents_of, head_count, no_isdu, opened};
ghost use Rattle.isdu.specs.Service.{length_fits};

use crate::last::exclusive_or;
use crate::total::{NoTotal, total_of};
use thiserror::Error;

/// Why octets are no ISDU that can be read.
#[derive(Clone, Copy, PartialEq, Eq, Debug, Error)]
pub enum NoIsdu {
    /// Octets are still to come.
    #[error("incomplete")]
    Incomplete,
    /// The first octets say a total that no ISDU has.
    #[error("bad total")]
    BadTotal,
    /// The octets are all there, and break a rule.
    #[error("not well formed")]
    NotWellFormed,
}

impl From<NoTotal> for NoIsdu {
    ghost from_gives = { λ why e. e ≡ no_isdu why };

    fn from(why: NoTotal) -> NoIsdu {
        match why {
            NoTotal::Unknown => NoIsdu::Incomplete,
            NoTotal::Bad => NoIsdu::BadTotal,
        }
    }
}

/// An ISDU's first octet, and what stands between its head and its last octet.
#[derive(Clone, Copy, PartialEq, Eq, Debug)]
pub(crate) struct Opened<'a> {
    pub(crate) first: u8,
    pub(crate) contents: &'a [u8],
    ghost fits: { length_fits (first % 16) contents.now ≡ true },
}

/// The parts of the ISDU that octets begin with. What follows the total is skipped.
pub(crate) fn open_isdu(octets: &[u8]) -> Result<Opened<'_>, NoIsdu>
    ensures { MatchResult result (λ p. opened octets.now ≡ Ok (p.first, p.contents.now)) (λ e. opened octets.now ≡ Err e) }
{
    let total = total_of(octets)?;
    if total > octets.len() {
        return Err(NoIsdu::Incomplete);
    }
    if exclusive_or(&octets[..total]) != 0 {
        return Err(NoIsdu::NotWellFormed);
    }
    let (first, contents) = parts(&octets[..total - 1]);
    Ok(Opened { first, contents })
}

// The first of the octets before the last, and what follows the head among them.
fn parts(front: &[u8]) -> (u8, &[u8])
    requires { head_count front.now ≤ length front.now }
    ensures first { result.0 ≡ slice_index front.now 0 }
    ensures contents { result.1.now ≡ contents_of front.now }
{
    match front {
        [first, contents @ ..] if first % 16 != 1 => (*first, contents),
        [first, _, contents @ ..] => (*first, contents),
        _ => unreachable!(),
    }
}
