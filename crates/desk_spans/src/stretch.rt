//! What a profile is kept as.
ghost use Rattle.std.specs.Prelude.{◌≡◌, ℕ, ◌<◌, ◌≤◌, length, OnOk, OnErr};
ghost use Rattle.desk_spans.specs.Laid.{Fill, IsLaid, IsLengthened, first_end, value_in};

use crate::memory::NoMemory;

/// One value for the minutes below `end`, from the end of the stretch before, or the start of the window, on.
#[derive(Clone, Copy, Debug)]
pub struct Stretch {
    pub end: u32,
    pub value: i64,
}

/// Lengthens the stretches up to `to` by one value, which joins the last stretch where that has it too.
pub fn lengthen(stretches: &mut Vec<Stretch>, to: u32, value: i64) -> Result<(), NoMemory>
    ensures ok { OnOk result ((from end : ℕ) → IsLaid from end stretches.old.items → end < to → IsLengthened from end to value stretches.old.items stretches.new.items) }
    ensures err { OnErr result (stretches.new.items ≡ stretches.old.items) }
{
    let last = Stretch { end: to, value };
    let count = stretches.len();
    if count > 0 && stretches[count - 1].value == value {
        stretches[count - 1] = last;
        return Ok(());
    }
    match stretches.push(last) {
        Ok(()) => Ok(()),
        Err(_) => Err(NoMemory),
    }
}

/// What is left of the stretches behind a minute, which is not past the end of the first.
pub fn behind(stretches: &[Stretch], minute: u32) -> &[Stretch]
    requires some { 0 < length stretches.now }
    requires within { minute ≤ first_end stretches.now }
    ensures fill { (from to : ℕ) → Fill from stretches.now to → Fill minute result.now to }
    ensures values { (m : ℕ) → minute ≤ m → value_in result.now m ≡ value_in stretches.now m }
    ensures no_longer { length result.now ≤ length stretches.now }
    ensures shorter { minute ≡ first_end stretches.now → length result.now < length stretches.now }
{
    if stretches[0].end == minute {
        &stretches[1..]
    } else {
        stretches
    }
}
