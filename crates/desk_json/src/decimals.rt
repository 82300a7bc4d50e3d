//! Numbers and ids, read strictly from their decimals.
ghost use Rattle.std.specs.Prelude.{◌↔◌, IsTrue};
ghost use Rattle.desk_json.specs.Decimals.{IsPadded, ReadsNumber, ReadsId};

use desk_base::Id;

// A sign in front, or a zero before further digits.
fn is_padded(text: &[u8]) -> bool
    ensures { IsTrue result ↔ IsPadded text.now }
{
    match text {
        [b'+', ..] => true,
        [b'0', rest @ ..] => !rest.is_empty(),
        _ => false,
    }
}

/// The number below 2^64 that is written so: digits alone, and no leading zero.
pub fn read_number(text: &[u8]) -> Option<u64>
    ensures { ReadsNumber text.now result }
{
    if is_padded(text) {
        return None;
    }
    match std::str::from_utf8(text) {
        Ok(digits) => digits.parse::<u64>().ok(),
        Err(_) => None,
    }
}

/// The id from 1 to 999,999,999 that is written so.
pub fn read_id<K>(text: &[u8]) -> Option<Id<K>>
    ensures { ReadsId text.now result }
{
    let number = read_number(text)?;
    if number <= u32::MAX as u64 {
        Id::of(number as u32)
    } else {
        None
    }
}
