//! The octets of a reply, written and read.
ghost use Rattle.std.specs.Prelude.{◌≡◌, IfSome, if◌then◌else◌, Some, None, Err, MatchBool, MatchOption};
ghost use Rattle.isdu.specs.Isdu.{isdu};
ghost use Rattle.isdu.specs.Opened.{head_so_far, opened};
ghost use Rattle.isdu.specs.Reply.{IfCanAnswer, reply_view, verdict_view};
ghost use Rattle.isdu.specs.declared.reply.NoReply.TheVariants.{Broken};
ghost use Rattle.isdu.specs.Response.{Brings, Hopeful, Hopeless, Just, carried, error_octets, error_of, judge, long_head, reply_in, reply_octets, ruled_out, saying, verdict_of};
ghost use Rattle.isdu.specs.Service.{service_bits, service_of};

use crate::opened::{Opened, open_isdu};
use crate::reply::{NoReply, Reply};
use crate::service::{IService, Service};
use crate::written::write_isdu;
use crate::{MOST, MOST_DATA};
use octets::Octets;

/// The octets of a reply. A read of more than 232 octets has none.
pub fn write_reply(reply: &Reply<&[u8]>) -> Option<Octets<MOST>>
    ensures value { IfCanAnswer result (reply_view reply.now) (λ w. w ≡ reply_octets (reply_view reply.now)) }
    ensures back { IfSome result (λ w. Brings w (reply_view reply.now)) }
{
    reply_row(reply)
}

// Apart from `write_reply`: in one function its laws stayed open at four exits.
fn reply_row(reply: &Reply<&[u8]>) -> Option<Octets<MOST>>
    ensures { IfCanAnswer result (reply_view reply.now) (λ w. w ≡ isdu (service_bits (saying (reply_view reply.now))) (carried (reply_view reply.now))) }
{
    match reply {
        Reply::WriteRefused(error) => Some(refusal_row(IService::WriteRefused, *error)),
        Reply::WriteDone => Some(write_isdu(IService::WriteDone, &[], &[])),
        Reply::ReadRefused(error) => Some(refusal_row(IService::ReadRefused, *error)),
        Reply::ReadDone(data) => match data.len() {
            0..=MOST_DATA => Some(write_isdu(IService::ReadDone, &[], data)),
            _ => None,
        },
    }
}

// The error type, high octet first.
fn refusal_row(service: IService, error: u16) -> Octets<MOST>
    ensures { result ≡ isdu (service_bits service) (error_octets error) }
{
    write_isdu(service, &error.to_be_bytes(), &[])
}

/// The reply to an order of this kind. Octets after the total are skipped.
pub fn read_reply(service: Service, octets: &[u8]) -> Result<Reply<&[u8]>, NoReply>
    ensures value { verdict_view result ≡ verdict_of service octets.now }
    ensures just { Just octets.now service (verdict_view result) }
{
    verdict_on(service, octets)
}

// Apart from `read_reply`: in one function its laws stayed open at three exits.
fn verdict_on(service: Service, octets: &[u8]) -> Result<Reply<&[u8]>, NoReply>
    ensures { verdict_view result ≡ (if ruled_out service octets.now then Err Broken else judge service (opened octets.now)) }
{
    if has_no_head(service, octets) {
        return Err(NoReply::Broken);
    }
    reply_in(service, open_isdu(octets)?).ok_or(NoReply::Broken)
}

/// Whether the head of the octets, the first or the first two, rules out every reply of this kind.
pub fn rules_out(service: Service, octets: &[u8]) -> bool
    ensures value { result ≡ ruled_out service octets.now }
    ensures just { MatchBool result (Hopeless (head_so_far octets.now) service) (Hopeful (head_so_far octets.now) service) }
{
    has_no_head(service, octets)
}

// Whether no reply of this kind has the head that the octets begin with.
fn has_no_head(service: Service, octets: &[u8]) -> bool
    ensures { result ≡ ruled_out service octets.now }
{
    let [first, rest @ ..] = octets else {
        return false;
    };
    match (service, IService::from_octet(*first), first % 16) {
        (Service::Write, Some(IService::WriteRefused), 4)
        | (Service::Write, Some(IService::WriteDone), 2)
        | (Service::Read, Some(IService::ReadRefused), 4)
        | (Service::Read, Some(IService::ReadDone), 2..=15) => false,
        (Service::Read, Some(IService::ReadDone), 1) => !can_follow(rest),
        _ => true,
    }
}

// Whether the second octet, where it has come, is a total of a read of up to 232 octets.
fn can_follow(rest: &[u8]) -> bool
    ensures { result ≡ long_head rest.now }
{
    matches!(rest, [] | [17..=235, ..])
}

// The reply that an opened ISDU is, to an order of this kind.
fn reply_in(service: Service, isdu: Opened<'_>) -> Option<Reply<&[u8]>>
    ensures { MatchOption result (reply_in service (service_of isdu.entry.first) isdu.entry.contents.now ≡ None) (λ o. reply_in service (service_of isdu.entry.first) isdu.entry.contents.now ≡ Some (reply_view o)) }
{
    let contents = isdu.contents;
    match (service, IService::from_octet(isdu.first), isdu.first % 16) {
        (Service::Write, Some(IService::WriteRefused), 4) => {
            Some(Reply::WriteRefused(error_type(contents)?))
        }
        (Service::Write, Some(IService::WriteDone), 2) => Some(Reply::WriteDone),
        (Service::Read, Some(IService::ReadRefused), 4) => {
            Some(Reply::ReadRefused(error_type(contents)?))
        }
        (Service::Read, Some(IService::ReadDone), 1..=15) if contents.len() <= MOST_DATA => {
            Some(Reply::ReadDone(contents))
        }
        _ => None,
    }
}

// The error type of two octets.
fn error_type(contents: &[u8]) -> Option<u16>
    ensures { result ≡ error_of contents.now }
{
    match contents {
        [high, low] => Some(u16::from_be_bytes([*high, *low])),
        _ => None,
    }
}
