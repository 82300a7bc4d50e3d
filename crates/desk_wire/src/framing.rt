//! How a head says that its body is sent.
ghost use Rattle.std.specs.Prelude.{◌≡◌, ℕ, List, ◌∷◌, length, map, All};
ghost use Rattle.std.specs.List.{list_any};
ghost use Rattle.httparse.specs.Spans.{IsHeaderWithin, header_bytes};
ghost use Rattle.desk_wire.specs.Framing.{is_transfer, lengths, framing_by_lengths, framing_by};

use crate::lengths::framing_of_value;
use crate::names::has_name;
use crate::rules::{HeadRule, WireLimit};
use httparse::spans::HeaderSpan;

/// How many bytes are the body of a head, or why the head is refused.
#[derive(Clone, Copy, Debug)]
pub enum Framing {
    Body(usize),
    Bad(HeadRule),
    TooLarge(WireLimit),
}

fn says_transfer(buf: &[u8], header: &HeaderSpan) -> bool
    requires { IsHeaderWithin (length buf.now) header.now }
    ensures { result ≡ is_transfer (header_bytes buf.now header.now) }
{
    has_name(buf, header, b"transfer-encoding")
}

fn any_transfer(buf: &[u8], headers: &[HeaderSpan]) -> bool
    requires { All (IsHeaderWithin (length buf.now)) headers.now }
    ensures { result ≡ list_any (λ h. is_transfer (header_bytes buf.now h)) headers.now }
{
    headers.iter().any(|header| says_transfer(buf, header))
}

// What two length fields say, or more: nothing, whatever the last of them is.
fn framing_of_two(_last: &[u8]) -> Framing
    ensures { (first last : List ℕ) (more : List (List ℕ)) → result ≡ framing_by_lengths (first ∷ last ∷ more) }
{
    Framing::Bad(HeadRule::Length)
}

// What the length fields say.
fn framing_of_lengths(buf: &[u8], headers: &[HeaderSpan]) -> Framing
    requires { All (IsHeaderWithin (length buf.now)) headers.now }
    ensures { result ≡ framing_by_lengths (lengths (map (header_bytes buf.now) headers.now)) }
{
    let mut length: Option<&[u8]> = None;
    for header in headers {
        if has_name(buf, header, b"content-length") {
            let value = header.value.of(buf);
            if length.is_some() {
                return framing_of_two(value);
            }
            length = Some(value);
        }
    }
    match length {
        None => Framing::Body(0),
        Some(value) => framing_of_value(value),
    }
}

/// What a head with these fields says.
pub fn framing_of(buf: &[u8], headers: &[HeaderSpan]) -> Framing
    requires { All (IsHeaderWithin (length buf.now)) headers.now }
    ensures { result ≡ framing_by (map (header_bytes buf.now) headers.now) }
{
    if any_transfer(buf, headers) {
        return Framing::Bad(HeadRule::Transfer);
    }
    framing_of_lengths(buf, headers)
}
