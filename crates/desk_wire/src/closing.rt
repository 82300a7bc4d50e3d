//! Whether a conversation ends with the response to a head's request.
ghost use Rattle.std.specs.Prelude.{◌≡◌, length, map, All};
ghost use Rattle.std.specs.List.{list_any};
ghost use Rattle.httparse.specs.Spans.{IsHeaderWithin, header_bytes};
ghost use Rattle.desk_wire.specs.Framing.{is_close, closes_by};

use crate::names::{has_name, is_name};
use httparse::spans::HeaderSpan;

fn says_close(buf: &[u8], header: &HeaderSpan) -> bool
    requires { IsHeaderWithin (length buf.now) header.now }
    ensures { result ≡ is_close (header_bytes buf.now header.now) }
{
    has_name(buf, header, b"connection") && is_name(header.value.of(buf), b"close")
}

fn any_close(buf: &[u8], headers: &[HeaderSpan]) -> bool
    requires { All (IsHeaderWithin (length buf.now)) headers.now }
    ensures { result ≡ list_any (λ h. is_close (header_bytes buf.now h)) headers.now }
{
    headers.iter().any(|header| says_close(buf, header))
}

/// Whether a head of this minor version and with these fields closes.
pub fn closes_of(buf: &[u8], version: u8, headers: &[HeaderSpan]) -> bool
    requires { All (IsHeaderWithin (length buf.now)) headers.now }
    ensures { result ≡ closes_by version (map (header_bytes buf.now) headers.now) }
{
    version == 0 || any_close(buf, headers)
}
