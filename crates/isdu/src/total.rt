//! The total: how many octets an ISDU has, first and last included.
ghost use Rattle.std.specs.Prelude.{◌≡◌};
ghost use Rattle.isdu.specs.Total.{extended, total_of};

use thiserror::Error;

/// Why the first octets so far say no total.
#[derive(Clone, Copy, PartialEq, Eq, Debug, Error)]
pub enum NoTotal {
    /// The octet that says it has not come.
    #[error("incomplete")]
    Unknown,
    /// No ISDU has what they say.
    #[error("bad total")]
    Bad,
}

/// The total of the ISDU that begins with these octets.
pub fn total_of(octets: &[u8]) -> Result<usize, NoTotal>
    ensures { result ≡ total_of octets.now }
{
    let [first, rest @ ..] = octets else {
        return Err(NoTotal::Unknown);
    };
    match first % 16 {
        0 => Err(NoTotal::Bad),
        1 => extended_total(rest),
        length => Ok(usize::from(length)),
    }
}

// The total in the second octet, which follows the Length 1.
fn extended_total(rest: &[u8]) -> Result<usize, NoTotal>
    ensures { result ≡ extended rest.now }
{
    match rest {
        [] => Err(NoTotal::Unknown),
        [second @ 17..=238, ..] => Ok(usize::from(*second)),
        _ => Err(NoTotal::Bad),
    }
}
