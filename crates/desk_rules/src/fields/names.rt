//! Numbers in a range, names, and times that have a minute in common.
ghost use Rattle.std.specs.Prelude.{◌≡◌, ◌==◌, ◌&&◌, nat_le, not};
ghost use Rattle.std.specs.List.{list_all};
ghost use Rattle.desk_base.specs.rules.Fields.{is_within_range, is_name, overlaps};

use desk_base::Name;
use desk_base::limits::NAME_LIMIT;

pub(crate) fn is_within_range(low: u32, high: u32, number: u32) -> bool
    ensures { result ≡ is_within_range low high number }
{
    low <= number && number <= high
}

fn are_printable(bytes: &[u8]) -> bool
    ensures { result ≡ list_all (λ b. nat_le 32 b && not (b == 127)) bytes.now }
{
    bytes.iter().all(|byte| 32 <= *byte && *byte != 127)
}

/// Whether the text is 1 to 60 bytes, none of them a control character.
pub(crate) fn is_name(name: &Name) -> bool
    ensures { result ≡ is_name name.now }
{
    let bytes = name.as_str().as_bytes();
    1 <= bytes.len() && bytes.len() <= NAME_LIMIT as usize && are_printable(bytes)
}

/// Whether two times have a minute in common.
pub(crate) fn overlap(from: u32, to: u32, other_from: u32, other_to: u32) -> bool
    ensures { result ≡ overlaps from to other_from other_to }
{
    from.max(other_from) < to.min(other_to)
}
