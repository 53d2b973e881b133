//! The request of an order: written in the first form that can name its address, read in any.
ghost use Rattle.std.specs.Prelude.{◌≡◌, ◌≤◌, true, ◌++◌, length, IfOk, Some, None, Ok, Err, MatchOption, MatchResult, OnErr};
ghost use Rattle.isdu.specs.Isdu.{isdu};
ghost use Rattle.isdu.specs.Opened.{opened};
ghost use Rattle.isdu.specs.Order.{IfCanAsk, address_of, order_view};
ghost use Rattle.isdu.specs.Request.{Asked, Carries, NotAsked, addressed, order_in, ordered, request_in, request_octets, request_of};
ghost use Rattle.isdu.specs.Service.{address_octets, asking, can_name, first_form, service_bits, service_of};

use crate::opened::{NoIsdu, Opened, open_isdu};
use crate::order::Order;
use crate::service::{Form, IService, Service};
use crate::written::write_isdu;
use crate::{MOST, MOST_DATA};
use characters::refusal::Refusal;
use octets::Octets;

/// The request of an order, in the first form that can name its address. A write of no octets,
/// or of more than 232, has none.
pub fn write_request(order: &Order<&[u8]>) -> Result<Octets<MOST>, Refusal>
    ensures value { IfCanAsk result (order_view order.now) (λ w. w ≡ request_octets (order_view order.now)) }
    ensures back { IfOk result (λ w. Carries w (order_view order.now)) }
{
    request_of(order)
}

// Apart from `write_request`: in one function its laws stayed open at two exits.
fn request_of(order: &Order<&[u8]>) -> Result<Octets<MOST>, Refusal>
    ensures { IfCanAsk result (order_view order.now) (λ w. w ≡ request_in (first_form (address_of (order_view order.now))) (order_view order.now)) }
{
    match order {
        Order::Read { address } => Ok(request_row(Service::Read, *address, &[])),
        Order::Write { address, data } => match data.len() {
            1..=MOST_DATA => Ok(request_row(Service::Write, *address, data)),
            _ => Err(Refusal::WrongDataCount),
        },
    }
}

fn request_row(service: Service, address: (u16, u8), data: &[u8]) -> Octets<MOST>
    requires { length «data».now ≤ 232 }
    ensures { result ≡ isdu (service_bits (asking service (first_form address))) (address_octets (first_form address) address ++ «data».now) }
{
    let form = Form::first_for(address);
    let i_service = match service {
        Service::Read => IService::Read(form),
        Service::Write => IService::Write(form),
    };
    let named = address_row(form, address);
    write_isdu(i_service, named.as_slice(), data)
}

// The octets by which a form names an address.
fn address_row(form: Form, address: (u16, u8)) -> Octets<3>
    ensures { can_name form address ≡ true → result ≡ address_octets form address }
{
    let (index, subindex) = address;
    let [high, low] = index.to_be_bytes();
    let octets = [high, low, subindex];
    let named = match form {
        Form::Index8 => &octets[1..2],
        Form::Index8Subindex => &octets[1..],
        Form::Index16Subindex => &octets[..],
    };
    Octets::try_from(named).unwrap()
}

/// The order of a request. Octets after the total are skipped.
pub fn read_request(octets: &[u8]) -> Result<Order<&[u8]>, NoIsdu>
    ensures value { MatchResult result (λ o. request_of octets.now ≡ Ok (order_view o)) (λ e. request_of octets.now ≡ Err e) }
    ensures asked { IfOk result (λ o. Asked octets.now (order_view o)) }
    ensures unasked { OnErr result (NotAsked octets.now) }
{
    order_of(octets)
}

// Apart from `read_request`: in one function its laws stayed open at two exits.
fn order_of(octets: &[u8]) -> Result<Order<&[u8]>, NoIsdu>
    ensures { MatchResult result (λ o. ordered (opened octets.now) ≡ Ok (order_view o)) (λ e. ordered (opened octets.now) ≡ Err e) }
{
    order_in(open_isdu(octets)?).ok_or(NoIsdu::NotWellFormed)
}

// The order that an opened ISDU is.
fn order_in(isdu: Opened<'_>) -> Option<Order<&[u8]>>
    ensures { MatchOption result (order_in (service_of isdu.entry.first) isdu.entry.contents.now ≡ None) (λ o. order_in (service_of isdu.entry.first) isdu.entry.contents.now ≡ Some (order_view o)) }
{
    match (IService::from_octet(isdu.first), isdu.first % 16) {
        (Some(IService::Read(form)), 3..=5) => match address_in(form, isdu.contents)? {
            (address, []) => Some(Order::Read { address }),
            _ => None,
        },
        (Some(IService::Write(form)), 1 | 4..=15) => match address_in(form, isdu.contents)? {
            (address, data @ [_, ..]) if data.len() <= MOST_DATA => {
                Some(Order::Write { address, data })
            }
            _ => None,
        },
        _ => None,
    }
}

// The address that contents begin with in a form, and what follows it.
fn address_in(form: Form, contents: &[u8]) -> Option<((u16, u8), &[u8])>
    ensures { MatchOption result (addressed form contents.now ≡ None) (λ p. addressed form contents.now ≡ Some (p.0, p.1.now)) }
{
    match (form, contents) {
        (Form::Index8, [index, rest @ ..]) => Some(((u16::from(*index), 0), rest)),
        (Form::Index8Subindex, [index, subindex, rest @ ..]) => {
            Some(((u16::from(*index), *subindex), rest))
        }
        (Form::Index16Subindex, [high, low, subindex, rest @ ..]) => {
            Some(((u16::from_be_bytes([*high, *low]), *subindex), rest))
        }
        _ => None,
    }
}
