//! Whether the keys of a table rise.
ghost use Rattle.std.specs.Prelude.{◌≡◌, None};
ghost use Rattle.std.specs.Ordering.{is_lt};
ghost use Rattle.desk_base.specs.rows.Keys.{key_cmp};
ghost use Rattle.desk_base.specs.rows.Lookups.{keys_by};
ghost use Rattle.desk_rules.specs.Broken.{is_above, lesser, least_with, least_unordered};

use crate::judged::Judged;
use desk_base::{Key, Table};

fn is_less(key: &Key, other: &Key) -> bool
    ensures { result ≡ is_lt (key_cmp key.now other.now) }
{
    key.compare(other).is_lt()
}

/// Whether the key is above the one before it, if there is one.
fn is_above(before: &Option<Key>, key: &Key) -> bool
    ensures { result ≡ is_above before.now key.now }
{
    match before {
        Some(before) => is_less(before, key),
        None => true,
    }
}

/// The lesser of two keys, where the first may be missing.
fn lesser(least: &Option<Key>, key: &Key) -> Key
    ensures { result ≡ lesser least.now key.now }
{
    match least {
        Some(least) => if is_less(key, least) { *key } else { *least },
        None => *key,
    }
}

/// The least key that is not above the one before it, with one key more.
fn least_with(before: &Option<Key>, least: &Option<Key>, key: &Key) -> Option<Key>
    ensures { result ≡ least_with before.now least.now key.now }
{
    if is_above(before, key) {
        *least
    } else {
        Some(lesser(least, key))
    }
}

/// The least key of the rows that is not above the one before it; `None` where the keys rise.
pub(crate) fn least_unordered<R: Judged>(table: Table, rows: &[R]) -> Option<Key>
    ensures { result ≡ least_unordered None None (keys_by (R.any table) rows.now) }
{
    let mut before = None;
    let mut least = None;
    for row in rows {
        let key = row.key_in(table);
        least = least_with(&before, &least, &key);
        before = Some(key);
    }
    least
}
