//! For each leaf whether it is chosen, as a walk over the leaves reads it.
ghost use Rattle.std.specs.Prelude.{◌≡◌, ◌==◌, drop, length, slice_get};
ghost use Rattle.desk_need.specs.Bits.{bits_of, may_begin, may_miss};

use desk_base::ResourceId;

/// First these bits, then whether each of these picks is one, and last one bit more.
#[derive(Clone, Copy, Debug)]
pub(crate) struct Bits<'b> {
    pub chosen: &'b [bool],
    pub picks: &'b [Option<ResourceId>],
    pub next: Option<bool>,
}

/// The bits after the first.
pub(crate) fn later<'b>(bits: &Bits<'b>) -> Bits<'b>
    ensures { bits_of result ≡ drop 1 (bits_of bits.now) }
{
    match bits.chosen {
        [_, chosen @ ..] => Bits {
            chosen,
            picks: bits.picks,
            next: bits.next,
        },
        [] => match bits.picks {
            [_, picks @ ..] => Bits {
                chosen: bits.chosen,
                picks,
                next: bits.next,
            },
            [] => Bits {
                chosen: bits.chosen,
                picks: bits.picks,
                next: None,
            },
        },
    }
}

/// The first bit, if there is one.
fn first(bits: &Bits) -> Option<bool>
    ensures { result ≡ slice_get (bits_of bits.now) 0 }
{
    match bits.chosen {
        [bit, ..] => Some(*bit),
        [] => match bits.picks {
            [pick, ..] => Some(pick.is_some()),
            [] => bits.next,
        },
    }
}

/// Whether a leaf may be chosen with the first bit: where there is none it may.
pub(crate) fn may_begin(bits: &Bits) -> bool
    ensures { result ≡ may_begin (bits_of bits.now) }
{
    match first(bits) {
        Some(bit) => bit,
        None => true,
    }
}

/// Whether a leaf may be left out with the first bit.
pub(crate) fn may_miss(bits: &Bits) -> bool
    ensures { result ≡ may_miss (bits_of bits.now) }
{
    match first(bits) {
        Some(bit) => !bit,
        None => true,
    }
}

/// Whether there is no bit.
pub(crate) fn are_none(bits: &Bits) -> bool
    ensures { result ≡ (length (bits_of bits.now) == 0) }
{
    bits.chosen.is_empty() && bits.picks.is_empty() && bits.next.is_none()
}
