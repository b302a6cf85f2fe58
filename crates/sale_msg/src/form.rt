//! What values are.
ghost use Rattle.std.specs.Prelude.{◌≡◌, ◌↔◌, ℕ, ◌≤◌, ◌++◌, List, All, IsTrue, length, codes, ◌⊎◌};
ghost use Rattle.gw_base.specs.Ident.{IsIdent, IsPrintable};
ghost use Rattle.json_text.specs.ValueOf.{value_of};
ghost use Rattle.sale_values.specs.Names.{kind_name};
ghost use Rattle.sale_msg.specs.Form.{HasForm, HasTextMember, IsAmountNumber, IsJsonObject, IsCapital, IsLetter, IsOutputList, IsTextList, TextHasForm};

use crate::path::find_under;
use crate::paths;
use crate::table::Form;
use gw_base::minor_of;
use gw_bytes::MOST_OUTPUTS;
use json_text::Json;
use sale_values::{Class, Kind, Period};

/// Whether the value is of the form.
pub(crate) fn has_form(form: Form, value: &Json) -> bool
    ensures { IsTrue result ↔ HasForm form (value_of value.now) }
{
    match form {
        Form::Object => value.is_object(),
        // Most texts are of this form: no second match for them.
        Form::Ident(most) => match value.as_str() {
            None => false,
            Some(text) => is_ident(text.as_bytes(), most),
        },
        Form::Amount => is_amount(value),
        Form::Flag => value.as_bool().is_some(),
        Form::Outputs => is_output_list(value),
        Form::Texts => is_text_list(value),
        _ => match value.as_str() {
            None => false,
            Some(text) => text_has_form(form, text.as_bytes()),
        },
    }
}

/// Whether the text is of the form.
fn text_has_form(form: Form, text: &[u8]) -> bool
    ensures { IsTrue result ↔ TextHasForm form text.now }
{
    match form {
        Form::Text => true,
        Form::Ident(most) => is_ident(text, most),
        Form::Letters => (1..=40).contains(&text.len()) && are_letters(text),
        Form::Version => text.starts_with(b"3."),
        Form::Class => Class::from_name(text).is_some(),
        Form::RequestKind => is_request_kind(text),
        Form::Kind => Kind::from_name(text).is_some(),
        Form::Currency => text.len() == 3 && are_capitals(text),
        Form::Period => Period::from_name(text).is_some(),
        _ => false,
    }
}

fn is_ident(text: &[u8], most: usize) -> bool
    ensures { IsTrue result ↔ IsIdent most text.now }
{
    (1..=most).contains(&text.len()) && are_printable(text)
}

/// Whether each byte is a space or visible ASCII.
///
/// Each is looked at, also after one that isn't: without an early end many are looked at in one step.
fn are_printable(text: &[u8]) -> bool
    ensures { IsTrue result ↔ All IsPrintable text.now }
{
    let mut printable = true;
    for byte in text {
        printable &= is_printable(*byte);
    }
    printable
}

fn is_printable(byte: u8) -> bool
    ensures { IsTrue result ↔ IsPrintable byte }
{
    (0x20..=0x7E).contains(&byte)
}

fn are_letters(text: &[u8]) -> bool
    ensures { IsTrue result ↔ All IsLetter text.now }
{
    text.iter().all(|byte| byte.is_ascii_alphabetic())
}

fn are_capitals(text: &[u8]) -> bool
    ensures { IsTrue result ↔ All IsCapital text.now }
{
    text.iter().all(|byte| byte.is_ascii_uppercase())
}

fn is_request_kind(text: &[u8]) -> bool
    ensures { IsTrue result ↔ ((kind_name Kind.Request ≡ text.now) ⊎ (kind_name Kind.Notification ≡ text.now)) }
{
    text == Kind::Request.name().as_bytes() || text == Kind::Notification.name().as_bytes()
}

fn is_amount(value: &Json) -> bool
    ensures { IsTrue result ↔ IsAmountNumber (value_of value.now) }
{
    match value.as_number() {
        None => false,
        Some(numeral) => minor_of(numeral.as_bytes()).is_some(),
    }
}

fn is_output_list(value: &Json) -> bool
    ensures { IsTrue result ↔ IsOutputList (value_of value.now) }
{
    match value.as_list() {
        None => value.is_object(),
        Some(elements) => (1..=MOST_OUTPUTS).contains(&elements.len()) && are_objects(elements),
    }
}

fn are_objects(elements: &[Json]) -> bool
    ensures { IsTrue result ↔ All (λ element. IsJsonObject (value_of element)) elements.now }
{
    elements.iter().all(|element| element.is_object())
}

fn is_text_list(value: &Json) -> bool
    ensures { IsTrue result ↔ IsTextList (value_of value.now) }
{
    match value.as_list() {
        None => false,
        Some(elements) => have_texts(elements),
    }
}

fn have_texts(elements: &[Json]) -> bool
    ensures { IsTrue result ↔ All (λ element. HasTextMember (value_of element)) elements.now }
{
    elements.iter().all(|element| has_text(element))
}

/// Whether it is an object with a text as its `Text`.
#[tactic(auto, unfolding(crate::specs::Path::tree_at))]
fn has_text(element: &Json) -> bool
    ensures { IsTrue result ↔ HasTextMember (value_of element.now) }
{
    match find_under(element, paths::TEXT_NAMES) {
        None => false,
        Some(text) => text.as_str().is_some(),
    }
}
