//! The pieces in which octets cross the line, some to a message.
ghost use Rattle.std.specs.Prelude.{◌≡◌, ◌*◌, ◌<◌, length, drop, MatchOption};
ghost use Rattle.isdu.specs.Pieces.{Pieced, piece_at, piece_count};

use octets::Octets;

/// How many messages of `size` octets carry these octets; none where a message carries none.
pub fn count_pieces(octets: &[u8], size: usize) -> usize
    ensures value { result ≡ piece_count size (length octets.now) }
    ensures pieced { 0 < size → Pieced size result octets.now }
{
    if size == 0 {
        0
    } else {
        octets.len().div_ceil(size)
    }
}

/// The piece at a place, from 0, filled up with 00. No message carries more than 32 octets.
pub fn piece(octets: &[u8], size: usize, place: usize) -> Option<Octets<32>>
    ensures value { MatchOption result (32 < size) (λ p. p ≡ piece_at size place octets.now) }
{
    let mut row = Octets::new();
    row.append(after_pieces(octets, size, place), size).ok()?;
    Some(row)
}

// What follows the first `count` pieces.
fn after_pieces(octets: &[u8], size: usize, count: usize) -> &[u8]
    ensures { result.now ≡ drop (count * size) octets.now }
{
    let start = count.saturating_mul(size).min(octets.len());
    &octets[start..]
}
