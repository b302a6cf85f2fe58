//! Tables: vectors of a key and a value, sorted by the key.
ghost use Rattle.std.specs.Prelude.{◌≡◌, ℕ, ◌+◌, ◌<◌, ◌≤◌, [], ◌∷◌, ◌++◌, length, IsSome, IfOk, IfErr, Some, None, if◌then◌else◌, vec_len, vec_capacity, insert};
ghost use Rattle.std.specs.Ordering.{is_eq};
ghost use Rattle.gw_ledger.specs.Table.{IsGapFor, IsRowOf, IsTable, value_at};

/// Where the key's row is, or where it would come.
pub fn search<K: Ord + Copy, V: Copy>(rows: &[(K, V)], key: &K) -> Result<usize, usize>
    requires { IsTable K.cmp rows.now }
    ensures found { IfOk result (IsRowOf K.cmp rows.now key.now) }
    ensures absent { IfErr result (IsGapFor K.cmp rows.now key.now) }
{
    rows.binary_search_by_key(key, |row| row.0)
}

/// The value of the row that has the key.
pub fn get<K: Ord + Copy, V: Copy>(rows: &[(K, V)], key: &K) -> Option<V>
    requires { IsTable K.cmp rows.now }
    ensures { result ≡ value_at K.cmp rows.now key.now }
{
    match search(rows, key) {
        Ok(at) => Some(rows[at].1),
        Err(_) => None,
    }
}

/// Gives the key this value. A key that has no row yet takes the room of one.
pub fn put<K: Ord + Copy, V: Copy>(rows: &mut Vec<(K, V)>, key: K, value: V)
    requires table { IsTable K.cmp rows.old.items }
    requires room { value_at K.cmp rows.old.items key ≡ None → vec_len rows.old < vec_capacity rows.old }
    ensures table { IsTable K.cmp rows.new.items }
    ensures values { (q : K) → value_at K.cmp rows.new.items q ≡ (if is_eq (K.cmp q key) then Some value else value_at K.cmp rows.old.items q) }
    ensures len { vec_len rows.new ≤ vec_len rows.old + 1 }
    ensures same_len { IsSome (value_at K.cmp rows.old.items key) → vec_len rows.new ≡ vec_len rows.old }
    ensures capacity { vec_capacity rows.old ≤ vec_capacity rows.new }
{
    match search(rows, &key) {
        Ok(at) => rows[at] = (key, value),
        Err(at) => insert_at(rows, at, (key, value)),
    }
}

/// Appends the element, for which there is room.
pub fn push<T: Copy>(elements: &mut Vec<T>, element: T)
    requires { vec_len elements.old < vec_capacity elements.old }
    ensures elements { elements.new.items ≡ elements.old.items ++ element ∷ [] }
    ensures len { vec_len elements.new ≡ vec_len elements.old + 1 }
    ensures capacity { vec_capacity elements.old ≤ vec_capacity elements.new }
{
    match elements.push(element) {
        Ok(()) => {}
        Err(_) => unreachable!(),
    }
}

/// Inserts the row, for which there is room.
pub fn insert_at<R: Copy>(rows: &mut Vec<R>, at: usize, row: R)
    requires inside { at ≤ vec_len rows.old }
    requires room { vec_len rows.old < vec_capacity rows.old }
    ensures inserted { rows.new.items ≡ insert rows.old.items at row }
    ensures len { vec_len rows.new ≡ vec_len rows.old + 1 }
    ensures capacity { vec_capacity rows.old ≤ vec_capacity rows.new }
{
    match rows.insert(at, row) {
        Ok(()) => {}
        Err(_) => unreachable!(),
    }
}
