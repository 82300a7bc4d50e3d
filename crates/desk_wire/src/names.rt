//! Names of fields.
ghost use Rattle.std.specs.Prelude.{◌≡◌, length, map, bytes_eq};
ghost use Rattle.std.specs.Char.{to_ascii_lowercase};
ghost use Rattle.httparse.specs.Spans.{IsHeaderWithin, header_bytes};
ghost use Rattle.desk_wire.specs.Framing.{is_named};

use httparse::spans::HeaderSpan;

/// Whether a word is this one, whatever the case of its letters (RFC 9110).
pub fn is_name(name: &[u8], wanted: &[u8]) -> bool
    ensures { result ≡ bytes_eq (map to_ascii_lowercase name.now) (map to_ascii_lowercase wanted.now) }
{
    name.eq_ignore_ascii_case(wanted)
}

/// Whether a field has this name.
pub fn has_name(buf: &[u8], header: &HeaderSpan, name: &[u8]) -> bool
    requires { IsHeaderWithin (length buf.now) header.now }
    ensures { result ≡ is_named name.now (header_bytes buf.now header.now) }
{
    is_name(header.name.of(buf), name)
}
