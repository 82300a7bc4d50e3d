//! How long a body is, by the value of a field.
ghost use Rattle.std.specs.Prelude.{◌≡◌, ◌+◌, IsTrue, min};
ghost use Rattle.std.specs.Char.{is_ascii_digit};
ghost use Rattle.std.specs.List.{list_all};
ghost use Rattle.std.specs.Str.Parse.{digits_value};
ghost use Rattle.desk_wire.specs.Framing.{is_number, framing_by_value};
ghost use Rattle.desk_wire.specs.Limits.{most_body_bytes};

use crate::framing::Framing;
use crate::limits::MOST_BODY_BYTES;
use crate::rules::{HeadRule, WireLimit};

fn all_digits(text: &[u8]) -> bool
    ensures { result ≡ list_all is_ascii_digit text.now }
{
    text.iter().all(|byte| byte.is_ascii_digit())
}

fn writes_number(text: &[u8]) -> bool
    ensures { result ≡ is_number text.now }
{
    !text.is_empty() && all_digits(text)
}

// The number that the digits write, or the first one above the limit of a body where it is larger.
fn capped_number(digits: &[u8]) -> usize
    requires { IsTrue (is_number digits.now) }
    ensures { result ≡ min (digits_value 10 digits.now) (most_body_bytes + 1) }
{
    let mut number = 0;
    for digit in digits {
        number = (number * 10 + usize::from(*digit - b'0')).min(MOST_BODY_BYTES + 1);
    }
    number
}

/// What a length field of this value says.
pub fn framing_of_value(value: &[u8]) -> Framing
    ensures { result ≡ framing_by_value value.now }
{
    if !writes_number(value) {
        return Framing::Bad(HeadRule::Length);
    }
    let size = capped_number(value);
    if size > MOST_BODY_BYTES {
        return Framing::TooLarge(WireLimit::Body);
    }
    Framing::Body(size)
}
