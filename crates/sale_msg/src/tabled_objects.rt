//! The objects within a body that have a table of their own.
ghost use Rattle.std.specs.Prelude.{◌≡◌, map, unwrap_or, ◌∷◌, []};
ghost use Rattle.json_text.specs.Tree.{Tree};
ghost use Rattle.json_text.specs.ValueOf.{value_of};
ghost use Rattle.sale_msg.specs.Grammar.{parts_of, listed};
ghost use Rattle.sale_msg.specs.Table.{rows_of};
ghost use Rattle.sale_msg.specs.inner.RowValue.{AreFound, member_value};

use crate::Category;
use crate::check::RowMembers;
use crate::members::member;
use json_text::Json;
use std::slice;

/// The number of the row of a TransactionStatus' reference.
pub(crate) const STATUS_REFERENCE: usize = 3;

/// The number of the row of a Display's outputs.
const DISPLAY_OUTPUT: usize = 2;

/// The outputs of a Display, and the reference of a TransactionStatus.
pub(crate) fn parts<'a>(category: Category, found: &RowMembers<'a>) -> &'a [Json]
    ensures { (body : Tree) → AreFound (rows_of category) body (map member_value found.now.items) → map value_of result.now ≡ parts_of category body }
{
    match category {
        Category::TransactionStatus => {
            match member(found, STATUS_REFERENCE) {
                None => &[],
                Some(reference) => slice::from_ref(reference),
            }
        }
        Category::Display => match member(found, DISPLAY_OUTPUT) {
            None => &[],
            Some(output) => elements_of(output),
        },
        _ => &[],
    }
}

/// The elements of a list; a value that is no list is taken as a list of one.
fn elements_of(value: &Json) -> &[Json]
    ensures { map value_of result.now ≡ listed (value_of value.now) }
{
    match value.as_list() {
        None => slice::from_ref(value),
        Some(elements) => elements,
    }
}
