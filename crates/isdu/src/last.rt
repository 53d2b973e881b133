ghost use Rattle.std.specs.Prelude.{◌≡◌};
ghost use Rattle.isdu.specs.Isdu.{xor_of};

/// The exclusive or of octets: 0 over a whole ISDU, and its last octet over all before it.
pub(crate) fn exclusive_or(octets: &[u8]) -> u8
    ensures { result ≡ xor_of octets.now }
{
    octets.iter().fold(0, |fold, octet| fold ^ octet)
}
