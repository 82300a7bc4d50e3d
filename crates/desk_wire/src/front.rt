//! The part of the bytes in which a head is looked for.
ghost use Rattle.std.specs.Prelude.{◌≡◌, ◌≤◌, length, take};
ghost use Rattle.desk_wire.specs.Front.{front, line_feeds};

use crate::limits::{MOST_HEAD_BYTES, MOST_HEAD_LINES};

/// How many bytes a head is looked for in.
pub fn front_len(rest: &[u8]) -> usize
    ensures within { result ≤ length rest.now }
    ensures front { take result rest.now ≡ front rest.now }
{
    let most = rest.len().min(MOST_HEAD_BYTES);
    let mut left = MOST_HEAD_LINES;
    for i in 0..most {
        if rest[i] == b'\n' {
            left -= 1;
            if left == 0 {
                return i + 1;
            }
        }
    }
    most
}

/// How many of the bytes are line feeds.
pub fn count_lines(bytes: &[u8]) -> usize
    ensures { result ≡ line_feeds bytes.now }
{
    let mut count = 0;
    for byte in bytes {
        if *byte == b'\n' {
            count += 1;
        }
    }
    count
}
