//! The members of a reply: where each value is found.
ghost use Rattle.std.specs.Prelude.{◌≡◌, ◌++◌, codes, option_map, option_copied, bytes_eq};
ghost use Rattle.std.specs.Option.{option_and_then};
ghost use Rattle.json_text.specs.Tree.{member_of, numeral_of};
ghost use Rattle.json_text.specs.ValueOf.{value_of, members_value};
ghost use Rattle.sale_msg.specs.Path.{text_at, tree_at};
ghost use Rattle.sale_seen.specs.ReplyMembers.{amount_text_in, outcome_in, repeated_in, response_of, transaction_in};
ghost use Rattle.sale_seen.specs.inner.OutcomeRead.{outcome_value};

use crate::paths;
use json_text::{Chars, Json};
use sale_msg::find;

/// The body of a reply of this category, beside its header.
pub(crate) fn response<'a>(object: &'a Json, category: &[u8]) -> Option<&'a Json>
    ensures { option_map (λ v. value_of v.now) result ≡ response_of category.now (value_of object.now) }
{
    match object {
        Json::Object(members) => named(members, category),
        _ => None,
    }
}

fn named<'a>(members: &'a [(Chars, Json)], category: &[u8]) -> Option<&'a Json>
    ensures { option_map (λ v. value_of v.now) result ≡ member_of (category.now ++ codes "Response") (members_value members.now) }
{
    for (name, value) in members {
        if is_response(name.as_bytes(), category) {
            return Some(value);
        }
    }
    None
}

/// Whether the name is the category and then `Response`.
fn is_response(name: &[u8], category: &[u8]) -> bool
    ensures { result ≡ bytes_eq name.now (category.now ++ codes "Response") }
{
    match name.strip_prefix(category) {
        None => false,
        Some(rest) => rest == b"Response".as_slice(),
    }
}

/// The body that has an outcome, and its category, which says where.
#[derive(Clone, Copy)]
pub(crate) struct Outcome<'a> {
    pub category: &'a [u8],
    pub body: &'a Json,
}

/// The outcome of a reply: its own body, but for a status the one that it repeats.
pub(crate) fn find_outcome<'a>(category: &'a [u8], body: &'a Json) -> Option<Outcome<'a>>
    ensures { option_map outcome_value result ≡ outcome_in category.now (value_of body.now) }
{
    if category == b"TransactionStatus".as_slice() {
        repeated(body)
    } else {
        Some(Outcome { category, body })
    }
}

/// The body that a status repeats.
fn repeated(status: &Json) -> Option<Outcome<'_>>
    ensures { option_map outcome_value result ≡ repeated_in (value_of status.now) }
{
    match text(status, paths::REPEATED_CATEGORY) {
        None => None,
        Some(category) => match find(status, paths::REPEATED_BODY) {
            None => None,
            Some(object) => match response(object, category) {
                None => None,
                Some(body) => Some(Outcome { category, body }),
            },
        },
    }
}

/// The text that identifies the transaction of a payment or a reversal.
pub(crate) fn transaction_text<'a>(outcome: &Outcome<'a>) -> Option<&'a [u8]>
    ensures { option_copied result ≡ transaction_in (outcome_value outcome.now) }
{
    if outcome.category == b"Payment".as_slice() {
        poi_transaction(outcome.body)
    } else if outcome.category == b"Reversal".as_slice() {
        poi_transaction(outcome.body)
    } else {
        None
    }
}

/// The `TransactionID` of a body's `POITransactionID`.
fn poi_transaction(body: &Json) -> Option<&[u8]>
    ensures { option_copied result ≡ text_at (codes "POIData.POITransactionID.TransactionID") (value_of body.now) }
{
    text(body, paths::TRANSACTION)
}

/// The number that is the amount: what was paid, or what was reversed.
pub(crate) fn amount_text<'a>(outcome: &Outcome<'a>) -> Option<&'a [u8]>
    ensures { option_copied result ≡ amount_text_in (outcome_value outcome.now) }
{
    if outcome.category == b"Payment".as_slice() {
        paid_amount(outcome.body)
    } else if outcome.category == b"Reversal".as_slice() {
        reversed_amount(outcome.body)
    } else {
        None
    }
}

/// The number of a body's `AuthorizedAmount`.
fn paid_amount(body: &Json) -> Option<&[u8]>
    ensures { option_copied result ≡ option_and_then numeral_of (tree_at (codes "PaymentResult.AmountsResp.AuthorizedAmount") (value_of body.now)) }
{
    numeral(body, paths::PAID_AMOUNT)
}

/// The number of a body's `ReversedAmount`.
fn reversed_amount(body: &Json) -> Option<&[u8]>
    ensures { option_copied result ≡ option_and_then numeral_of (tree_at (codes "ReversedAmount") (value_of body.now)) }
{
    numeral(body, paths::REVERSED_AMOUNT)
}

/// The text at the path.
pub(crate) fn text<'a>(tree: &'a Json, path: &str) -> Option<&'a [u8]>
    ensures { option_copied result ≡ text_at path.now (value_of tree.now) }
{
    match find(tree, path) {
        None => None,
        Some(value) => match value.as_str() {
            None => None,
            Some(text) => Some(text.as_bytes()),
        },
    }
}

/// The text of the number at the path.
fn numeral<'a>(tree: &'a Json, path: &str) -> Option<&'a [u8]>
    ensures { option_copied result ≡ option_and_then numeral_of (tree_at path.now (value_of tree.now)) }
{
    match find(tree, path) {
        None => None,
        Some(value) => match value.as_number() {
            None => None,
            Some(numeral) => Some(numeral.as_bytes()),
        },
    }
}
