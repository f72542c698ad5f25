// Rows in the order of their keys, searched by halves.
ghost use Rattle.std.specs.Prelude.{◌≡◌, ◌≤◌, length, nat_lt, true, false, is_some, slice_get, ◌<◌, ◌+◌, vec_len, vec_capacity};
ghost use Rattle.std.specs.Option.{option_copied};
ghost use Rattle.rc_ids.specs.Tables.{found};
ghost use Rattle.rc_ids.specs.Texts.{key_cmp};
ghost use Rattle.rc_record.specs.ShardState.{version_at};
ghost use Rattle.rc_versions.specs.Rows.{Rises, rank, held, newest};

use crate::HeadedKey;
use rc_ids::{Val, Version};

/// A key with its version and its value.
pub type Row = (HeadedKey, (Version, Val));

/// How many rows have keys below this one.
pub fn count_below(rows: &[Row], key: &HeadedKey) -> usize
    requires { Rises rows.now }
    ensures count { result ≡ rank key.now rows.now }
    ensures few { result ≤ length rows.now }
{
    rows.partition_point(|row| *key > row.0)
}

/// Whether the row at the place has the key.
pub fn has_at(rows: &[Row], place: usize, key: &HeadedKey) -> bool
    ensures { result ≡ is_some (held key.now (slice_get rows.now place)) }
{
    place < rows.len() && rows[place].0 == *key
}

/// The version and the value of the key, where it is there.
pub fn row_of<'a>(rows: &'a [Row], key: &HeadedKey) -> Option<&'a (Version, Val)>
    requires { Rises rows.now }
    ensures { option_copied result ≡ found key_cmp rows.now key.now }
{
    let place = count_below(rows, key);
    if !has_at(rows, place, key) {
        return None;
    }
    Some(&rows[place].1)
}

/// Gives the key, which stands at this place, the version and the value, if its version there is lower, and says so.
pub fn raise_at(rows: &mut [Row], place: usize, key: &HeadedKey, version: Version, val: Val) -> bool
    requires rises { Rises rows.old }
    requires place { place ≡ rank key.now rows.old }
    requires there { is_some (held key.now (slice_get rows.old place)) ≡ true }
    ensures said { result ≡ nat_lt (version_at rows.old key.now) version }
    ensures rows { rows.new ≡ newest rows.old key.now version val }
    ensures rise { Rises rows.new }
{
    let row = &mut rows[place];
    let is_newer = row.1.0 < version;
    if is_newer {
        row.1 = (version, val);
    }
    is_newer
}

/// Puts the key, which is not there, in its place. There is room.
pub fn insert_at(rows: &mut Vec<Row>, place: usize, key: &HeadedKey, version: Version, val: Val)
    requires room { vec_len rows.old < vec_capacity rows.old }
    requires rises { Rises rows.old.items }
    requires place { place ≡ rank key.now rows.old.items }
    requires absent { is_some (held key.now (slice_get rows.old.items place)) ≡ false }
    requires written { 0 < version }
    ensures rows { rows.new.items ≡ newest rows.old.items key.now version val }
    ensures rise { Rises rows.new.items }
    ensures newer { nat_lt (version_at rows.old.items key.now) version ≡ true }
    ensures len { vec_len rows.new ≡ vec_len rows.old + 1 }
    ensures capacity { vec_capacity rows.new ≡ vec_capacity rows.old }
{
    let _placed = rows.insert(place, (key.copy(), (version, val)));
}
