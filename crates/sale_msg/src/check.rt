//! Objects against their tables.
ghost use Rattle.std.specs.Prelude.{◌≡◌, ◌↔◌, ◌<◌, All, map, true, IsTrue, MatchResult, Some, None, get_or, length};
ghost use Rattle.std.specs.List.{list_all};
ghost use Rattle.std.specs.Option.{option_and_then};
ghost use Rattle.json_text.specs.Tree.{string_of};
ghost use Rattle.json_text.specs.ValueOf.{value_of};
ghost use Rattle.sale_msg.specs.Flaw.{AreMet, IsFirstAmong, IsFirstFlaw, IsFlaw, IsMet, MayBeAbsent};
ghost use Rattle.sale_msg.specs.Grammar.{IsBodyFlaw};
ghost use Rattle.sale_msg.specs.Path.{tree_at, tree_under};
ghost use Rattle.sale_msg.specs.inner.RowValue.{AreFound, HaveParents, IsBodyFound, is_path, member_value, own_names, row_value};

use crate::flaw::Flaw;
use crate::form::has_form;
use crate::path::find_under;
use crate::table::{MemberRow, Presence, body_table, part_table};
use crate::tabled_objects::parts;
use crate::{Category, paths};
use arrayvec::ArrayVec;
use gw_base::Ident;
use json_text::Json;

/// The members that a table's rows name, after its object: there are at most 12 rows.
pub(crate) type RowMembers<'a> = ArrayVec<Option<&'a Json>, 13>;

/// The table's object, and then the members that its rows name, each where there is one; else the flaw of the first row
/// that the object doesn't meet.
pub(crate) fn find_members<'a>(tree: &'a Json, rows: &[MemberRow]) -> Result<RowMembers<'a>, Flaw>
    requires paths { list_all (λ row. is_path row.path.now) rows.now ≡ true }
    requires links { HaveParents rows.now }
    ensures { MatchResult result
        (λ found. AreFound (map row_value rows.now) (value_of tree.now) (map member_value found.items))
        (IsFirstFlaw (map row_value rows.now) (value_of tree.now)) }
{
    let mut found = ArrayVec::new();
    found.push(Some(tree));
    for row in rows {
        let member = check_row(tree, row, found.as_slice())?;
        found.push(member);
    }
    Ok(found)
}

/// The member that the row names, in its parent.
#[inline]
fn member_of<'a>(found: &[Option<&'a Json>], row: &MemberRow) -> Option<&'a Json>
    requires { row.now.parent < length found.now }
    ensures { member_value result ≡ option_and_then (tree_under (own_names row.now)) (get_or (map member_value found.now) row.now.parent None) }
{
    match found[row.parent] {
        None => None,
        Some(parent) => find_under(parent, row.names),
    }
}

/// Whether each of these objects meets each row of the table; else the first flaw of the first that doesn't.
pub(crate) fn check_each(parts: &[Json], rows: &[MemberRow]) -> Result<(), Flaw>
    requires paths { list_all (λ row. is_path row.path.now) rows.now ≡ true }
    requires links { HaveParents rows.now }
    ensures { MatchResult result (λ _. All (AreMet (map row_value rows.now)) (map value_of parts.now))
        (IsFirstAmong (map row_value rows.now) (map value_of parts.now)) }
{
    for part in parts {
        find_members(part, rows)?;
    }
    Ok(())
}

/// The members of the body object by the category's rows, where it meets the tables of the category; else its first flaw.
pub(crate) fn check_body<'a>(category: Category, body: &'a Json) -> Result<RowMembers<'a>, Flaw>
    ensures { MatchResult result (λ found. IsBodyFound category (value_of body.now) (map member_value found.items))
        (IsBodyFlaw category (value_of body.now)) }
{
    let rows = body_table(category);
    let part_rows = part_table(category);
    let found = match find_members(body, rows) {
        Ok(found) => found,
        Err(flaw) => return Err(flaw),
    };
    match check_each(parts(category, &found), part_rows) {
        Ok(()) => Ok(found),
        Err(flaw) => Err(flaw),
    }
}

/// The member that the row names, where there is one and it is as the row says, or it may be absent; else the row's flaw.
fn check_row<'a>(
    tree: &Json,
    row: &MemberRow,
    found: &[Option<&'a Json>],
) -> Result<Option<&'a Json>, Flaw>
    requires path { is_path row.now.path.now ≡ true }
    requires inside { row.now.parent < length found.now }
    requires parent { option_and_then (tree_under (own_names row.now)) (get_or (map member_value found.now) row.now.parent None)
        ≡ tree_at row.now.within.now (value_of tree.now) }
    ensures { MatchResult result
        (λ member. IsMet (row_value row.now) (value_of tree.now) × (member_value member ≡ tree_at row.now.within.now (value_of tree.now)))
        (IsFlaw (row_value row.now) (value_of tree.now)) }
{
    match member_of(found, row) {
        None => {
            if may_be_absent(row.presence, tree) {
                Ok(None)
            } else {
                Err(Flaw::Missing(reported_path(row.path)))
            }
        }
        Some(value) => {
            if has_form(row.form, value) {
                Ok(Some(value))
            } else {
                Err(Flaw::Wrong(reported_path(row.path)))
            }
        }
    }
}

/// Whether a member of this presence may be absent.
#[tactic(auto, unfolding(crate::specs::Path::tree_at))]
fn may_be_absent(presence: Presence, tree: &Json) -> bool
    ensures { IsTrue result ↔ MayBeAbsent presence (value_of tree.now) }
{
    match presence {
        Presence::Required => false,
        Presence::Optional => true,
        Presence::ByHeader => {
            is_text(tree, paths::HEADER_CLASS_NAMES, b"Device")
                || is_text(tree, paths::HEADER_TYPE_NAMES, b"Notification")
        }
    }
}

/// Whether the value under these names is this text.
#[inline(never)]
fn is_text(tree: &Json, names: &[&str], text: &[u8]) -> bool
    ensures { IsTrue result ↔ (option_and_then string_of (tree_under (map (λ name. name.now) names.now) (value_of tree.now)) ≡ Some text.now) }
{
    match find_under(tree, names) {
        None => false,
        Some(value) => match value.as_str() {
            None => false,
            Some(own) => own.as_bytes() == text,
        },
    }
}

/// The path, as a fault has it.
#[inline(never)]
pub(crate) fn reported_path(path: &'static str) -> Ident<100>
    requires { is_path path.now ≡ true }
    ensures { result ≡ path.now }
{
    // The paths of the tables are texts of this program, of 1 to 100 printable bytes: that is proved of the tables.
    Ident::known(path.as_bytes())
}
