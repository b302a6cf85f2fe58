//! Values at paths.
ghost use Rattle.std.specs.Prelude.{◌≡◌, map, option_map};
ghost use Rattle.json_text.specs.ValueOf.{value_of};
ghost use Rattle.sale_msg.specs.Path.{tree_at, tree_under};

use json_text::Json;

/// The value at a path of names, divided by points, of which each is a member of the object before.
pub fn find<'a>(tree: &'a Json, path: &str) -> Option<&'a Json>
    ensures { option_map (λ v. value_of v.now) result ≡ tree_at path.now (value_of tree.now) }
{
    // Name by name, without a list of the names, which would take memory.
    match path.split_once('.') {
        None => tree.get(path.as_bytes()),
        Some((name, rest)) => match tree.get(name.as_bytes()) {
            None => None,
            Some(value) => find(value, rest),
        },
    }
}

/// The value under these names, of which each is a member of the object before.
#[inline]
pub(crate) fn find_under<'a>(tree: &'a Json, names: &[&str]) -> Option<&'a Json>
    ensures { option_map (λ v. value_of v.now) result ≡ tree_under (map (λ name. name.now) names.now) (value_of tree.now) }
{
    match names {
        // Nearly all members are looked for by one name.
        [name] => tree.get(name.as_bytes()),
        _ => find_each(tree, names),
    }
}

/// The value under these names, one after the other.
#[inline(never)]
fn find_each<'a>(tree: &'a Json, names: &[&str]) -> Option<&'a Json>
    ensures { option_map (λ v. value_of v.now) result ≡ tree_under (map (λ name. name.now) names.now) (value_of tree.now) }
{
    let mut value = tree;
    for name in names {
        match value.get(name.as_bytes()) {
            None => return None,
            Some(member) => value = member,
        }
    }
    Some(value)
}
