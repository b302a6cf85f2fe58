//! Replies, read from trees.
ghost use Rattle.std.specs.Prelude.{◌≡◌, ◌≢◌, ◌↔◌, ℕ, ◌≤◌, List, length, Err, IfOk, MatchResult, option_map, IsOkAnd, codes};
ghost use Rattle.std.specs.Option.{option_and_then};
ghost use Rattle.json_text.specs.Tree.{Tree, string_of};
ghost use Rattle.json_text.specs.ValueOf.{value_of};
ghost use Rattle.sale_values.specs.declared.header.Header.{Header};
ghost use Rattle.sale_msg.specs.Grammar.{IsHeaded, LacksHeader};
ghost use Rattle.sale_msg.specs.Path.{text_at};
ghost use Rattle.sale_msg.specs.declared.table.Envelope.{Envelope};
ghost use Rattle.sale_seen.specs.Fault.{HasOtherResult, IsReplyFault, LacksResult, result_path};
ghost use Rattle.sale_seen.specs.ReplyMembers.{amount_text_in, condition_in, response_of, transaction_in};
ghost use Rattle.sale_seen.specs.inner.OutcomeRead.{outcome_value};
ghost use Rattle.sale_seen.specs.Grammar.{FindsMember, ReadsReply, ReadReply, NamesCondition, IsAmountMember, NamesResult, IsTransactionText, read_reply_value};

use crate::amount_text::units_of;
use crate::reply_members::{Outcome, amount_text, find_outcome, response, text, transaction_text};
use crate::transaction::is_transaction;
use crate::{ReplySeen, paths};
use arrayvec::ArrayVec;
use gw_base::{Condition, Ident};
use json_text::Json;
use sale_msg::{find, read_header};
use sale_reply::ReplyResult;
use sale_values::{Header, SaleFault};

/// Reads the result of a reply from the tree of its text. It takes no memory.
///
/// The header is read as that of any message. A member elsewhere than where nexo Sale to POI 3.0 puts it in this
/// profile's replies is ignored.
pub fn read_reply(tree: &Json) -> Result<ReplySeen, SaleFault>
    // What is returned is what the tree says, and where the tree says something it is returned.
    ensures ok { IfOk result (λ seen. ReadsReply (value_of tree.now) (read_reply_value seen)) }
    ensures every { (seen : ReadReply) → ReadsReply (value_of tree.now) seen → IsOkAnd result (λ own. read_reply_value own ≡ seen) }

    // Each fault is returned exactly where the tree has it.
    ensures no_header { (path : List ℕ) → (result ≡ Err (SaleFault.NoHeader path)) ↔ LacksHeader (value_of tree.now) path }
    ensures missing { (header : Header) (path : List ℕ) → (result ≡ Err (SaleFault.Missing header path)) ↔ LacksResult (value_of tree.now) header path }
    ensures wrong { (header : Header) (path : List ℕ) → (result ≡ Err (SaleFault.Wrong header path)) ↔ HasOtherResult (value_of tree.now) header path }
    ensures unserved { (header : Header) → result ≢ Err (SaleFault.Unserved header) }
{
    match read_header(tree) {
        Ok(headed) => read_body(&headed.header, headed.body),
        Err(fault) => Err(fault),
    }
}

/// The reply beside this header, in the object that both are in.
fn read_body(header: &Header, object: &Json) -> Result<ReplySeen, SaleFault>
    ensures { (message : Tree) (envelope : Envelope) → IsHeaded message envelope (value_of object.now) header.now
        → MatchResult result (λ seen. ReadsReply message (read_reply_value seen)) (IsReplyFault message) }
{
    match response(object, header.category.as_bytes()) {
        None => Err(missing(header)),
        Some(body) => match find(body, paths::RESULT) {
            None => Err(missing(header)),
            Some(value) => match result_of(value) {
                None => Err(wrong(header)),
                Some(result) => {
                    let within = find_outcome(header.category.as_bytes(), body);
                    Ok(ReplySeen {
                        category: header.category,
                        result,
                        condition: condition(result, body),
                        transaction: transaction(within),
                        minor: units(within),
                    })
                }
            },
        },
    }
}

/// The fault of a reply without a result.
fn missing(header: &Header) -> SaleFault
    ensures { result ≡ SaleFault.Missing header.now (result_path header.now.category) }
{
    SaleFault::Missing {
        header: *header,
        path: result_path(&header.category),
    }
}

/// The fault of a reply of another result than the three.
fn wrong(header: &Header) -> SaleFault
    ensures { result ≡ SaleFault.Wrong header.now (result_path header.now.category) }
{
    SaleFault::Wrong {
        header: *header,
        path: result_path(&header.category),
    }
}

/// The path of the result of a reply of this category.
fn result_path(category: &Ident<40>) -> Ident<100>
    ensures { result ≡ result_path category.now }
{
    Ident::known(path_text(category.as_bytes()).as_slice())
}

fn path_text(category: &[u8]) -> ArrayVec<u8, 64>
    requires { length category.now ≤ 40 }
    ensures { result.items ≡ result_path category.now }
{
    let mut path = ArrayVec::new();
    path.try_extend_from_slice(category).unwrap();
    path.try_extend_from_slice(paths::RESULT_FROM_CATEGORY.as_bytes())
        .unwrap();
    path
}

/// The result of this name.
fn result_of(value: &Json) -> Option<ReplyResult>
    ensures { FindsMember (NamesResult (string_of (value_of value.now))) result }
{
    match value.as_str() {
        None => None,
        Some(text) => ReplyResult::from_name(text.as_bytes()),
    }
}

/// The condition of a failure's `ErrorCondition`.
fn condition(outcome: ReplyResult, body: &Json) -> Option<Condition>
    ensures { FindsMember (NamesCondition (condition_in outcome (value_of body.now))) result }
{
    match outcome {
        ReplyResult::Success => None,
        ReplyResult::Partial => None,
        ReplyResult::Failure => match text(body, paths::CONDITION) {
            None => None,
            Some(name) => Condition::from_name(name),
        },
    }
}

/// The text that identifies the transaction of an outcome, where it has the form in which it is written.
fn transaction(outcome: Option<Outcome<'_>>) -> Option<ArrayVec<u8, 80>>
    ensures { FindsMember (IsTransactionText (option_and_then transaction_in (option_map outcome_value outcome.entry)))
        (option_map (λ text. text.items) result) }
{
    match outcome {
        None => None,
        Some(outcome) => match transaction_text(&outcome) {
            None => None,
            Some(text) => {
                if is_transaction(text) {
                    Some(copied(text))
                } else {
                    None
                }
            }
        },
    }
}

/// A copy: what is read outlives the tree.
fn copied(text: &[u8]) -> ArrayVec<u8, 80>
    requires { length text.now ≤ 80 }
    ensures { result.items ≡ text.now }
{
    let mut copy = ArrayVec::new();
    copy.try_extend_from_slice(text).unwrap();
    copy
}

/// The amount of an outcome in minor units, where it is written with two digits after the point and has 64 bits.
fn units(outcome: Option<Outcome<'_>>) -> Option<u64>
    ensures { FindsMember (IsAmountMember (option_and_then amount_text_in (option_map outcome_value outcome.entry))) result }
{
    match outcome {
        None => None,
        Some(outcome) => match amount_text(&outcome) {
            None => None,
            Some(numeral) => units_of(numeral),
        },
    }
}
