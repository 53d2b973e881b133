//! The check of a message: six bits over all its octets.
ghost use Rattle.std.specs.Prelude.{◌≡◌, ◌<◌, bit_and};
ghost use Rattle.frame.specs.Check.{check_at, check_bit, fold_at, six_bits};

// The masks, indexed by the number of the check's bit: a form of the project's.
const MASKS: [u8; 6] = [0x03, 0x0C, 0x30, 0xC0, 0x55, 0xAA];

const SEED: u8 = 0x52;

/// The check of a message whose octet at `place` carries it; that octet enters with the check's
/// six bits cleared.
pub fn checksum(octets: &[u8], place: usize) -> u8
    ensures { result ≡ check_at place octets.now }
{
    six_bits(fold(octets, place))
}

// The exclusive or of the seed and every octet.
fn fold(octets: &[u8], place: usize) -> u8
    ensures { result ≡ fold_at place octets.now }
{
    // `place` picks one octet by its index, so that a chain would read no plainer.
    let mut fold = SEED;
    for (i, octet) in octets.iter().enumerate() {
        let entering = if i == place {
            upper_bits(*octet)
        } else {
            *octet
        };
        fold ^= entering;
    }
    fold
}

// Bits 7 and 6, where the octet that carries the check has something else to say.
fn upper_bits(octet: u8) -> u8
    ensures { result ≡ bit_and octet 0xc0 }
{
    octet & 0xC0
}

fn six_bits(fold: u8) -> u8
    ensures { result ≡ six_bits fold }
{
    check_bit(fold, 5) * 32
        + check_bit(fold, 4) * 16
        + check_bit(fold, 3) * 8
        + check_bit(fold, 2) * 4
        + check_bit(fold, 1) * 2
        + check_bit(fold, 0)
}

fn check_bit(fold: u8, number: usize) -> u8
    requires { number < 6 }
    ensures { result ≡ check_bit fold number }
{
    ((fold & MASKS[number]).count_ones() % 2) as u8
}
