//! An ISDU as octets, whatever it carries.
ghost use Rattle.std.specs.Prelude.{◌≡◌, ◌+◌, ◌≤◌, ◌++◌, length};
ghost use Rattle.isdu.specs.Isdu.{head, isdu};
ghost use Rattle.isdu.specs.Service.{service_bits};

use crate::MOST;
use crate::last::exclusive_or;
use crate::service::IService;
use octets::Octets;

/// The ISDU of an I-Service with the contents `front` and then `back`.
pub(crate) fn write_isdu(service: IService, front: &[u8], back: &[u8]) -> Octets<MOST>
    requires { length front.now + length back.now ≤ 235 }
    ensures { result ≡ isdu (service_bits service) (front.now ++ back.now) }
{
    let mut row = head_row(service, front.len() + back.len());
    row.extend_from_slice(front).unwrap();
    row.extend_from_slice(back).unwrap();
    let last = exclusive_or(row.as_slice());
    row.push(last).unwrap();
    row
}

// The first octet, and the total where that does not fit into it.
fn head_row(service: IService, count: usize) -> Octets<MOST>
    requires { count ≤ 235 }
    ensures { result ≡ head (service_bits service) count }
{
    let mut row = Octets::new();
    if count < 14 {
        row.push(service.to_octet(count as u8 + 2)).unwrap();
    } else {
        row.push(service.to_octet(1)).unwrap();
        row.push(count as u8 + 3).unwrap();
    }
    row
}
