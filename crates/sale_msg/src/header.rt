//! The header of a message.
ghost use Rattle.std.specs.Prelude.{◌≡◌, IfErr, IfOk, MatchResult, map};
ghost use Rattle.json_text.specs.Tree.{Tree};
ghost use Rattle.json_text.specs.ValueOf.{value_of};
ghost use Rattle.sale_msg.specs.Grammar.{IsHeaded, IsHeadless, IsUnderEnvelope, HeaderHolds};
ghost use Rattle.sale_msg.specs.Table.{header_rows};
ghost use Rattle.sale_msg.specs.inner.RowValue.{AreFound, member_value};

use crate::check::{RowMembers, find_members, reported_path};
use crate::members::{class, ident, ident_or_none, letters, member, message_type};
use crate::paths;
use crate::table::{Envelope, header_table};
use json_text::Json;
use sale_values::{Header, SaleFault};

// The numbers of the header's rows.

const CLASS: usize = 3;

const CATEGORY: usize = 4;

const TYPE: usize = 5;

const SERVICE: usize = 6;

const DEVICE: usize = 7;

const SALE: usize = 8;

const POI: usize = 9;

/// A header, with the object that it is in, beside the body.
#[derive(Clone, Copy)]
pub struct Headed<'a> {
    pub envelope: Envelope,
    pub header: Header,
    pub body: &'a Json,
}

/// Reads the header of a message, under either envelope; where there are both, that of requests counts.
pub fn read_header(tree: &Json) -> Result<Headed<'_>, SaleFault>
    ensures ok { IfOk result (λ headed. IsHeaded (value_of tree.now) headed.envelope (value_of headed.body.now) headed.header) }
    ensures err { IfErr result (IsHeadless (value_of tree.now)) }
{
    // A till may send both. It is asked something then, and a reply is due: so the request counts.
    match tree.get(paths::REQUEST.as_bytes()) {
        Some(body) => header_under(Envelope::Request, body),
        None => match tree.get(paths::RESPONSE.as_bytes()) {
            Some(body) => header_under(Envelope::Response, body),
            None => Err(SaleFault::NoHeader {
                path: reported_path(paths::REQUEST),
            }),
        },
    }
}

/// The header in the object of this envelope.
fn header_under(envelope: Envelope, body: &Json) -> Result<Headed<'_>, SaleFault>
    ensures { (message : Tree) → IsUnderEnvelope envelope message (value_of body.now)
        → MatchResult result (λ headed. IsHeaded message headed.envelope (value_of headed.body.now) headed.header) (IsHeadless message) }
{
    match find_members(body, header_table(envelope)) {
        Ok(found) => Ok(Headed {
            envelope,
            header: header_of(&found),
            body,
        }),
        Err(flaw) => Err(SaleFault::NoHeader { path: flaw.path() }),
    }
}

/// The header whose members were found, by the table of a response's header, which a request's header meets too.
fn header_of(found: &RowMembers<'_>) -> Header
    requires { (body : Tree) × AreFound (header_rows Envelope.Response) body (map member_value found.now.items) }
    ensures { (body : Tree) → AreFound (header_rows Envelope.Response) body (map member_value found.now.items) → HeaderHolds body result }
{
    Header {
        class: class(member(found, CLASS)),
        category: letters(member(found, CATEGORY)),
        kind: message_type(member(found, TYPE)),
        service: ident_or_none(member(found, SERVICE)),
        device: ident_or_none(member(found, DEVICE)),
        sale: ident(member(found, SALE)),
        poi: ident(member(found, POI)),
    }
}
