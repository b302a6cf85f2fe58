//! Messages, read from trees.
ghost use Rattle.std.specs.Prelude.{◌≡◌, Ok, Err, IfOk, IfErr, MatchResult, ◌⊎◌};
ghost use Rattle.json_text.specs.Tree.{Tree};
ghost use Rattle.json_text.specs.ValueOf.{value_of};
ghost use Rattle.sale_values.specs.declared.fault.SaleFault.{SaleFault};
ghost use Rattle.sale_values.specs.declared.request.Incoming.{Incoming};
ghost use Rattle.sale_msg.specs.Grammar.{IsSaleFault, IsHeaded, IsTillMessage, IsRequest, IsRequestOf, RefusesTree};

use crate::body::request;
use crate::check::check_body;
use crate::header::{Headed, read_header};
use crate::table::Envelope;
use crate::{Category, MessageError};
use json_text::Json;
use sale_values::{Header, Incoming, Kind, SaleFault, SaleRequest};
use std::alloc::Global;

/// Reads a message of a till from the tree of its text.
///
/// The header is looked at first, by nexo's table, then the body by that of its category, and the first fault is
/// returned.
/// Members that no table names are ignored.
pub fn read_message(alloc: Global, tree: &Json) -> Result<Incoming, MessageError>
    // The tree is this message, and it has this fault.
    ensures ok { IfOk result (IsTillMessage (value_of tree.now)) }
    ensures err { IfErr result (RefusesTree (value_of tree.now)) }

    // Where it is a message, this is returned, and where it has a fault, this is, unless memory is refused.
    ensures every { (m : Incoming) → IsTillMessage (value_of tree.now) m → (result ≡ Ok m) ⊎ (result ≡ Err MessageError.Memory) }
    ensures each { (f : SaleFault) → IsSaleFault (value_of tree.now) f → (result ≡ Err (MessageError.Fault f)) ⊎ (result ≡ Err MessageError.Memory) }
{
    // The header first: what is wrong in a body is replied to under the header, and without one no reply can be made.
    match read_header(tree) {
        Ok(headed) => read_headed(alloc, &headed),
        Err(fault) => Err(MessageError::Fault(fault)),
    }
}

/// The message with this header.
fn read_headed(alloc: Global, headed: &Headed<'_>) -> Result<Incoming, MessageError>
    ensures { (message : Tree) → IsHeaded message headed.now.envelope (value_of headed.now.body.now) headed.now.header
        → MatchResult result (IsTillMessage message) (RefusesTree message) }
{
    match headed.envelope {
        Envelope::Request => read_under_request(alloc, &headed.header, headed.body),
        Envelope::Response => Ok(Incoming::Silent),
    }
}

/// The message under `SaleToPOIRequest` with this header.
fn read_under_request(alloc: Global, header: &Header, body: &Json) -> Result<Incoming, MessageError>
    ensures { (message : Tree) → IsHeaded message Envelope.Request (value_of body.now) header.now
        → MatchResult result (IsTillMessage message) (RefusesTree message) }
{
    match header.kind {
        Kind::Request => match read_body(alloc, header, body) {
            Ok(request) => Ok(Incoming::Request(*header, request)),
            Err(error) => Err(error),
        },
        _ => Ok(Incoming::Silent),
    }
}

/// The request that the body object asks.
fn read_body(alloc: Global, header: &Header, body: &Json) -> Result<SaleRequest, MessageError>
    ensures { (message : Tree) → IsRequestOf message (value_of body.now) header.now
        → MatchResult result (IsRequest message (value_of body.now) header.now) (RefusesTree message) }
{
    // The category before the body: one that isn't served has no table, so it is refused whatever its body has.
    let Some(category) = Category::from_name(header.category.as_bytes()) else {
        return Err(MessageError::Fault(SaleFault::Unserved { header: *header }));
    };
    let found = match check_body(category, body) {
        Ok(found) => found,
        Err(flaw) => return Err(MessageError::Fault(flaw.fault(*header))),
    };
    match request(alloc, category, &found) {
        Ok(request) => Ok(request),
        Err(_) => Err(MessageError::Memory),
    }
}
