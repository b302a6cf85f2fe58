//! What the members of a checked object are.
//!
//! An object is checked against its table first, and the members that were found then are read. So where a member is
//! required, that it is absent or of another form can't happen here: that is proved at each `unwrap`.
ghost use Rattle.std.specs.Prelude.{◌≡◌, ℕ, Some, None, true, unwrap_or, option_map, IfOk, length, get_or, map};
ghost use Rattle.std.specs.Option.{option_and_then};
ghost use Rattle.gw_base.specs.Amount.{minor_units};
ghost use Rattle.json_text.specs.Tree.{boolean_of, numeral_of, string_of};
ghost use Rattle.sale_values.specs.Names.{class_name, kind_name, period_name};
ghost use Rattle.sale_msg.specs.Flaw.{HasFound, MayHaveFound};
ghost use Rattle.sale_msg.specs.inner.RowValue.{member_value};
ghost use Rattle.sale_msg.specs.declared.table.Form.{Form};

use crate::check::RowMembers;
use gw_base::{Ident, Text, minor_of};
use json_text::{Chars, Json};
use sale_values::{Class, Kind, Period};
use std::alloc::{AllocError, Global};

/// The member that was found of the row of this number.
pub(crate) fn member<'a>(found: &RowMembers<'a>, row: usize) -> Option<&'a Json>
    ensures { member_value result ≡ get_or (map member_value found.now.items) row None }
{
    found.as_slice().get(row).copied().unwrap_or(None)
}

/// The text that the member is.
pub(crate) fn chars<'a>(member: Option<&'a Json>) -> Option<&'a Chars>
    ensures { option_map (λ text. text.now) result ≡ option_and_then string_of (member_value member.entry) }
{
    match member {
        None => None,
        Some(value) => value.as_str(),
    }
}

/// The identifier that the member is; `None` where there is none.
pub(crate) fn ident_or_none<const N: usize>(member: Option<&Json>) -> Option<Ident<N>>
    requires { MayHaveFound (Form.Ident N) (member_value member) }
    ensures { option_and_then string_of (member_value member.entry) ≡ result }
{
    match chars(member) {
        None => None,
        Some(text) => Ident::of(text.as_bytes()),
    }
}

/// The identifier that the member is.
pub(crate) fn ident<const N: usize>(member: Option<&Json>) -> Ident<N>
    requires { HasFound (Form.Ident N) (member_value member) }
    ensures { option_and_then string_of (member_value member.entry) ≡ Some result }
{
    ident_or_none(member).unwrap()
}

/// The category's name that the member is.
pub(crate) fn letters(member: Option<&Json>) -> Ident<40>
    requires { HasFound Form.Letters (member_value member) }
    ensures { option_and_then string_of (member_value member.entry) ≡ Some result }
{
    let text = chars(member).unwrap();
    Ident::of(text.as_bytes()).unwrap()
}

/// A copy of the text that the member is; `None` where there is none.
pub(crate) fn text_or_none(alloc: Global, member: Option<&Json>) -> Result<Option<Text>, AllocError>
    requires { MayHaveFound Form.Text (member_value member) }
    ensures { IfOk result (λ text. option_and_then string_of (member_value member.entry) ≡ text) }
{
    match chars(member) {
        None => Ok(None),
        Some(text) => Ok(Some(copied(alloc, text)?)),
    }
}

/// A copy: a request outlives the tree that it is read from.
pub(crate) fn copied(alloc: Global, text: &Chars) -> Result<Text, AllocError>
    ensures { IfOk result (λ copy. copy ≡ text.now) }
{
    Ok(Text::new(String::from_str(alloc, text.as_str())?))
}

/// The three letters that the member is.
pub(crate) fn currency(member: Option<&Json>) -> [u8; 3]
    requires { HasFound Form.Currency (member_value member) }
    ensures { option_and_then string_of (member_value member.entry) ≡ Some result }
{
    three_bytes(chars(member).unwrap().as_bytes())
}

fn three_bytes(bytes: &[u8]) -> [u8; 3]
    requires { length bytes.now ≡ 3 }
    ensures { result ≡ bytes.now }
{
    match bytes {
        [a, b, c] => [*a, *b, *c],
        _ => unreachable!(),
    }
}

/// The minor units of the amount that the member is; `None` where there is none.
pub(crate) fn amount_or_none(member: Option<&Json>) -> Option<u64>
    requires { MayHaveFound Form.Amount (member_value member) }
    ensures { option_and_then minor_units (option_and_then numeral_of (member_value member.entry)) ≡ result }
{
    match member {
        None => None,
        Some(value) => match value.as_number() {
            None => None,
            Some(numeral) => minor_of(numeral.as_bytes()),
        },
    }
}

/// The minor units of the amount that the member is.
pub(crate) fn amount(member: Option<&Json>) -> u64
    requires { HasFound Form.Amount (member_value member) }
    ensures { option_and_then minor_units (option_and_then numeral_of (member_value member.entry)) ≡ Some result }
{
    amount_or_none(member).unwrap()
}

/// The true or false that the member is; true where there is none.
pub(crate) fn flag_or_true(member: Option<&Json>) -> bool
    requires { MayHaveFound Form.Flag (member_value member) }
    ensures { unwrap_or (option_and_then boolean_of (member_value member.entry)) true ≡ result }
{
    match member {
        None => true,
        Some(value) => value.as_bool().unwrap_or(true),
    }
}

/// The class that the member is.
pub(crate) fn class(member: Option<&Json>) -> Class
    requires { HasFound Form.Class (member_value member) }
    ensures { option_and_then string_of (member_value member.entry) ≡ Some (class_name result) }
{
    let text = chars(member).unwrap();
    Class::from_name(text.as_bytes()).unwrap()
}

/// The message type that the member is.
pub(crate) fn message_type(member: Option<&Json>) -> Kind
    requires { HasFound Form.Kind (member_value member) }
    ensures { option_and_then string_of (member_value member.entry) ≡ Some (kind_name result) }
{
    let text = chars(member).unwrap();
    Kind::from_name(text.as_bytes()).unwrap()
}

/// The type of reconciliation that the member is.
pub(crate) fn period(member: Option<&Json>) -> Period
    requires { HasFound Form.Period (member_value member) }
    ensures { option_and_then string_of (member_value member.entry) ≡ Some (period_name result) }
{
    let text = chars(member).unwrap();
    Period::from_name(text.as_bytes()).unwrap()
}
