ghost use Rattle.std.specs.Prelude.{◌≡◌, ◌%◌, ◌<◌, length, slice_index, All};
ghost use Rattle.frame.specs.Message.{sealed};

use crate::check::checksum;
use characters::{Characters, MOST};
use octets::Octets;

/// The octets as characters, with the check added to the octet at `place`.
pub(super) fn sealed_characters(mut row: Octets<MOST>, place: usize) -> Characters
    requires within { place < length row }
    requires clear { slice_index row place % 64 ≡ 0 }
    ensures value { result ≡ sealed place row }
    ensures octets { All (λ o. o < 256) row }
{
    let open = row.as_slice();
    let carrier = open[place] + checksum(open, place);
    row.put(place, carrier);
    Characters::from(&row)
}
