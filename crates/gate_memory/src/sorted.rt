//! Rows kept in the order of their keys, each key once.
ghost use Rattle.std.specs.Prelude.{◌≡◌, ◌==◌, ◌<◌, ◌≤◌, ◌+◌, ◌&&◌, nat_lt, nat_le, find, filter, take, slice_get};
ghost use Rattle.std.specs.Prelude.{slice_set, length, None, IfSome, IfNone, vec_len, vec_capacity};
ghost use Rattle.std.specs.Option.{option_copied};
ghost use Rattle.gate_types.specs.State.{put_by};
ghost use Rattle.gate_types.specs.Rising.{RisesFrom};
ghost use Rattle.gate_memory.specs.Sorted.{IsAtPosition, position_in, last_below, without};

/// A row with a key.
pub trait Keyed {
    ghost use Rattle.std.specs.Prelude.{◌≡◌, ℕ};

    ghost key: { Self → ℕ };

    fn key(&self) -> u128
        ensures { result ≡ key self.now };
}

/// How many rows have keys below this one.
pub fn position_of<T: Keyed>(rows: &[T], key: u128) -> usize
    requires { RisesFrom T.key 0 rows.now }
    ensures bound { result ≤ length rows.now }
    ensures position { result ≡ position_in T.key key rows.now }
{
    rows.partition_point(|row| row.key() < key)
}

/// The row at a position.
fn row_at<T>(rows: &[T], position: usize) -> Option<&T>
    ensures { option_copied result ≡ slice_get rows.now position }
{
    rows.get(position)
}

/// The position of the row of a key.
pub fn position_at<T: Keyed>(rows: &[T], key: u128) -> Option<usize>
    requires { RisesFrom T.key 0 rows.now }
    ensures there { IfSome result (λ position. IsAtPosition T.key key rows.now position) }
    ensures missing { IfNone result (find (λ row. T.key row == key) rows.now ≡ None) }
{
    let position = position_of(rows, key);
    if position < rows.len() && rows[position].key() == key {
        Some(position)
    } else {
        None
    }
}

/// The row of a key.
pub fn at<T: Keyed>(rows: &[T], key: u128) -> Option<&T>
    requires { RisesFrom T.key 0 rows.now }
    ensures { option_copied result ≡ find (λ row. T.key row == key) rows.now }
{
    match position_at(rows, key) {
        Some(position) => row_at(rows, position),
        None => None,
    }
}

/// The first row above a key.
pub fn above<T: Keyed>(rows: &[T], key: u64) -> Option<&T>
    requires { RisesFrom T.key 0 rows.now }
    ensures { option_copied result ≡ find (λ row. nat_lt key (T.key row)) rows.now }
{
    row_at(rows, position_of(rows, key as u128 + 1))
}

/// The last row below a key.
pub fn last_below<T: Keyed>(rows: &[T], key: u64) -> Option<&T>
    requires { RisesFrom T.key 0 rows.now }
    ensures { option_copied result ≡ last_below T.key key rows.now }
{
    let position = position_of(rows, key as u128);
    if position == 0 {
        None
    } else {
        Some(&rows[position - 1])
    }
}

/// The rows above a key.
pub fn behind<T: Keyed>(rows: &[T], key: u64) -> &[T]
    requires { RisesFrom T.key 0 rows.now }
    ensures rows { result.now ≡ filter (λ row. nat_lt key (T.key row)) rows.now }
    ensures rising { RisesFrom T.key 0 result.now }
{
    let position = position_of(rows, key as u128 + 1);
    &rows[position..]
}

/// The rows up to a key.
pub fn up_to<T: Keyed>(rows: &[T], key: u64) -> &[T]
    requires { RisesFrom T.key 0 rows.now }
    ensures { result.now ≡ filter (λ row. nat_le (T.key row) key) rows.now }
{
    let position = position_of(rows, key as u128 + 1);
    &rows[..position]
}

/// The first rows, no more than `most`.
pub fn first<T: Keyed>(rows: &[T], most: u32) -> &[T]
    ensures { result.now ≡ take most rows.now }
{
    &rows[..rows.len().min(most as usize)]
}

/// The rows from a key on, up to and without another.
pub fn between<T: Keyed>(rows: &[T], from: u128, to: u128) -> &[T]
    requires rising { RisesFrom T.key 0 rows.now }
    requires order { from ≤ to }
    ensures { result.now ≡ filter (λ row. nat_le from (T.key row) && nat_lt (T.key row) to) rows.now }
{
    let start = position_of(rows, from);
    let end = position_of(rows, to);
    &rows[start..end]
}

/// Puts a row where there is room, in place of one with its key.
pub fn put<T: Keyed + Drop>(rows: &mut Vec<T>, row: T)
    requires room { vec_len rows.old < vec_capacity rows.old }
    requires rising { RisesFrom T.key 0 rows.old.items }
    ensures rows { rows.new.items ≡ put_by T.key row rows.old.items }
    ensures rising { RisesFrom T.key 0 rows.new.items }
    ensures len { vec_len rows.new ≤ vec_len rows.old + 1 }
    ensures capacity { vec_capacity rows.new ≡ vec_capacity rows.old }
{
    let key = row.key();
    let position = position_of(rows, key);
    if position < rows.len() && rows[position].key() == key {
        rows[position] = row;
    } else {
        rows.insert(position, row).unwrap();
    }
}

/// Puts a row in place of one.
pub fn put_at<T: Drop>(rows: &mut Vec<T>, position: usize, row: T)
    requires { position < vec_len rows.old }
    ensures rows { rows.new.items ≡ slice_set rows.old.items position row }
    ensures capacity { vec_capacity rows.new ≡ vec_capacity rows.old }
    ensures len { vec_len rows.new ≡ vec_len rows.old }
{
    rows[position] = row;
}

/// Drops the row of a key, if there is one.
pub fn remove<T: Keyed + Drop>(rows: &mut Vec<T>, key: u128)
    requires { RisesFrom T.key 0 rows.old.items }
    ensures rows { rows.new.items ≡ without T.key key rows.old.items }
    ensures rising { RisesFrom T.key 0 rows.new.items }
    ensures len { vec_len rows.new ≤ vec_len rows.old }
    ensures capacity { vec_capacity rows.new ≡ vec_capacity rows.old }
{
    let position = position_of(rows, key);
    if position < rows.len() && rows[position].key() == key {
        let _row = rows.remove(position);
    }
}
