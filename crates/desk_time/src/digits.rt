//! Numbers of two and four decimal digits.
ghost use Rattle.std.specs.Prelude.{◌≡◌, ◌-◌, ◌<◌, ◌≤◌, ◌∷◌, [], SomeIff};
ghost use Rattle.desk_time.specs.Reads.{Reads};
ghost use Rattle.desk_time.specs.Digits.{two_digits, four_digits, IsTwoDigits, IsFourDigits};

fn read_digit(byte: u8) -> Option<u8>
    ensures { SomeIff result ((48 ≤ byte) × (byte < 58)) (byte - 48) }
{
    match byte {
        b'0'..=b'9' => Some(byte - b'0'),
        _ => None,
    }
}

/// The number that two bytes are the digits of.
pub fn read_two(tens: u8, ones: u8) -> Option<u8>
    ensures { Reads (IsTwoDigits (tens ∷ ones ∷ [])) result }
{
    Some(read_digit(tens)? * 10 + read_digit(ones)?)
}

/// The number that four bytes are the digits of.
pub fn read_four(thousands: u8, hundreds: u8, tens: u8, ones: u8) -> Option<u16>
    ensures { Reads (IsFourDigits (thousands ∷ hundreds ∷ tens ∷ ones ∷ [])) result }
{
    Some(u16::from(read_two(thousands, hundreds)?) * 100 + u16::from(read_two(tens, ones)?))
}

/// The two digits of a number, in ASCII.
pub fn two_digits(number: u8) -> [u8; 2]
    requires { number < 100 }
    ensures { result ≡ two_digits number }
{
    [b'0' + number / 10, b'0' + number % 10]
}

/// The four digits of a number, in ASCII.
pub fn four_digits(number: u16) -> [u8; 4]
    requires { number < 10000 }
    ensures { result ≡ four_digits number }
{
    let [thousands, hundreds] = two_digits((number / 100) as u8);
    let [tens, ones] = two_digits((number % 100) as u8);
    [thousands, hundreds, tens, ones]
}
