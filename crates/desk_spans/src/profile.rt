//! One signed value per minute of a window.
ghost use Rattle.std.specs.Prelude.{◌≡◌, ◌≢◌, ℕ, ◌+◌, ◌*◌, ◌^◌, ◌<◌, ◌≤◌, IfSome, IfNone, IfOk, OnOk, OnErr, ◌≤ℤ◌, ◌<ℤ◌, pos, ◌+ℤ◌, ◌*ℤ◌, FitsSigned};
ghost use Rattle.std.specs.Int.{w64, int_wrap};
ghost use Rattle.std.specs.Int.RustNames.{unsigned_abs};
ghost use Rattle.desk_spans.specs.Minutes.{EachMinute, SomeMinute};
ghost use Rattle.desk_spans.specs.Timeline.{end_of, value_at, sum_on, IsRangeOf, IsBounded, value_limit};
ghost use Rattle.desk_spans.specs.Pieces.{share, sum_at};
ghost use Rattle.desk_spans.specs.Laid.{Fill, AreJoined, value_in};

use crate::memory::NoMemory;
use crate::piece::Piece;
use crate::stretch::{Stretch, behind, lengthen};
use std::alloc::Global;
use std::marker::Model;

/// A window of minutes, and a signed value at each of them.
#[derive(Debug, Drop)]
pub struct Profile {
    from: u32,
    to: u32,
    stretches: Vec<Stretch>,
}

impl Model for Profile {
    ghost use Rattle.desk_spans.specs.Timeline.{Timeline};
    ghost use Rattle.desk_spans.specs.Laid.{timeline, IsLaid};

    ghost Value = { Timeline };

    ghost view = { λ p. timeline p.from p.to p.stretches.items };

    ghost invariant = { λ p. IsLaid p.from p.to p.stretches.items };
}

impl Profile {
    /// At each minute of the window the sum of the values of the pieces that cover it. What of a piece lies outside of the
    /// window counts for nothing. The sums are to be within 10^14 either way; the pieces may be larger, and so may a sum of
    /// some of them. In time n log n, for n pieces.
    pub fn build(alloc: Global, from: u32, to: u32, pieces: &[Piece]) -> Result<Profile, NoMemory>
        requires window { from < to }
        requires bounds { EachMinute from to (λ m. IsBounded (sum_at pieces.now m)) }
        ensures window_from { IfOk result (λ p. p.from ≡ from) }
        ensures window_end { IfOk result (λ p. end_of p ≡ to) }
        ensures sums { IfOk result (λ p. EachMinute from to (λ m. value_at p m ≡ sum_at pieces.now m)) }
    {
        Profile::sums_of(alloc, from, to, pieces)
    }

    /// An equal profile, which shares nothing with this one.
    pub fn copy(&self, alloc: Global) -> Result<Profile, NoMemory>
        ensures { IfOk result (λ copy. copy ≡ self.now) }
    {
        Ok(Profile {
            from: self.from,
            to: self.to,
            stretches: Vec::from_slice(alloc, &self.stretches)?,
        })
    }

    /// Adds a value at each minute of a range. Want of memory leaves the profile as it was.
    pub fn add(&mut self, from: u32, to: u32, value: i64) -> Result<(), NoMemory>
        requires range { IsRangeOf self.old from to }
        requires bounds { EachMinute from to (λ m. IsBounded (value_at self.old m +ℤ value)) }
        ensures window_from { self.new.from ≡ self.old.from }
        ensures window_end { end_of self.new ≡ end_of self.old }
        ensures raised { OnOk result (EachMinute from to (λ m. value_at self.new m ≡ value_at self.old m +ℤ value)) }
        ensures before { OnOk result (EachMinute self.old.from from (λ m. value_at self.new m ≡ value_at self.old m)) }
        ensures after { OnOk result (EachMinute to (end_of self.old) (λ m. value_at self.new m ≡ value_at self.old m)) }
        ensures err { OnErr result (self.new ≡ self.old) }
    {
        let alloc = *self.stretches.allocator();
        let piece = Piece { from, to, value };
        let more = Profile::of_piece(alloc, self.from(), self.to(), piece)?;
        let sum = Profile::sum_of(alloc, self, &more)?;
        *self = sum;
        Ok(())
    }

    /// The first minute of the window.
    pub fn from(&self) -> u32
        ensures { result ≡ self.now.from }
    {
        self.from
    }

    /// The end of the window, which is not in it.
    pub fn to(&self) -> u32
        ensures { result ≡ end_of self.now }
    {
        self.to
    }

    /// The value at a minute.
    pub fn at(&self, minute: u32) -> i64
        requires from { self.now.from ≤ minute }
        requires to { minute < end_of self.now }
        ensures { result ≡ value_at self.now minute }
    {
        self.stretch_at(minute).value
    }

    /// The value at a minute, and the end of the minutes from there on that have it.
    pub fn stretch_at(&self, minute: u32) -> Stretch
        requires from { self.now.from ≤ minute }
        requires to { minute < end_of self.now }
        ensures value { result.value ≡ value_at self.now minute }
        ensures later { minute < result.end }
        ensures inside { result.end ≤ end_of self.now }
        ensures same { EachMinute minute result.end (λ m. value_at self.now m ≡ value_at self.now minute) }
        ensures changed { result.end < end_of self.now → value_at self.now result.end ≢ value_at self.now minute }
    {
        self.stretches_from(minute)[0]
    }

    /// The next minute of the window at which the value is another; `None` where there is none.
    pub fn next_change(&self, minute: u32) -> Option<u32>
        requires from { self.now.from ≤ minute }
        requires to { minute < end_of self.now }
        ensures none { IfNone result (EachMinute minute (end_of self.now) (λ m. value_at self.now m ≡ value_at self.now minute)) }
        ensures later { IfSome result (λ next. minute < next) }
        ensures inside { IfSome result (λ next. next < end_of self.now) }
        ensures changed { IfSome result (λ next. value_at self.now next ≢ value_at self.now minute) }
        ensures same { IfSome result (λ next. EachMinute minute next (λ m. value_at self.now m ≡ value_at self.now minute)) }
    {
        let end = self.stretch_at(minute).end;
        if end < self.to() { Some(end) } else { None }
    }

    /// The least value of a range.
    pub fn least_on(&self, from: u32, to: u32) -> i64
        requires { IsRangeOf self.now from to }
        ensures bound { EachMinute from to (λ m. result ≤ℤ value_at self.now m) }
        ensures reached { SomeMinute from to (λ m. value_at self.now m ≡ result) }
    {
        let stretches = self.stretches_from(from);
        let mut least = stretches[0].value;
        let mut start = from;
        for stretch in stretches {
            if to <= start {
                break;
            }
            least = least.min(stretch.value);
            start = stretch.end;
        }
        least
    }

    /// The first minute of a range whose value is below the bound; `None` where there is none.
    pub fn first_below(&self, from: u32, to: u32, bound: i64) -> Option<u32>
        requires { IsRangeOf self.now from to }
        ensures none { IfNone result (EachMinute from to (λ m. bound ≤ℤ value_at self.now m)) }
        ensures low { IfSome result (λ first. from ≤ first) }
        ensures high { IfSome result (λ first. first < to) }
        ensures below { IfSome result (λ first. value_at self.now first <ℤ bound) }
        ensures before { IfSome result (λ first. EachMinute from first (λ m. bound ≤ℤ value_at self.now m)) }
    {
        let mut start = from;
        for stretch in self.stretches_from(from) {
            if to <= start {
                break;
            }
            if stretch.value < bound {
                return Some(start);
            }
            start = stretch.end;
        }
        None
    }

    /// The sum of the values of a range, each minute's value once.
    pub fn sum(&self, from: u32, to: u32) -> i128
        requires { IsRangeOf self.now from to }
        ensures { result ≡ sum_on self.now from to }
    {
        let mut total = 0;
        let mut start = from;
        for stretch in self.stretches_from(from) {
            if to <= start {
                break;
            }
            total += minutes_times(stretch.end.min(to) - start, stretch.value);
            start = stretch.end;
        }
        total
    }

    // The stretches from the one that holds the minute on.
    fn stretches_from(&self, minute: u32) -> &[Stretch]
        requires from { self.now.from ≤ minute }
        requires to { minute < end_of self.now }
        ensures fill { Fill minute result.now (end_of self.now) }
        ensures joined { AreJoined result.now }
        ensures values { EachMinute minute (end_of self.now) (λ m. value_in result.now m ≡ value_at self.now m) }
    {
        let first = self.stretches.partition_point(|s| s.end <= minute);
        &self.stretches[first..]
    }

    /// An empty window that begins at a minute, with room for so many stretches of equal values.
    pub fn begun_at(alloc: Global, from: u32, room: usize) -> Result<Profile, NoMemory>
        ensures from { IfOk result (λ p. p.from ≡ from) }
        ensures empty { IfOk result (λ p. end_of p ≡ from) }
    {
        let stretches = Vec::with_capacity(alloc, room)?;
        Ok(Profile {
            from,
            to: from,
            stretches,
        })
    }

    /// Lays a value on the minutes from the end of the window up to `to`, which is the end then. Want of memory leaves the
    /// profile as it was.
    pub fn lay(&mut self, to: u32, value: i64) -> Result<(), NoMemory>
        requires { end_of self.old ≤ to }
        ensures from { self.new.from ≡ self.old.from }
        ensures end { OnOk result (end_of self.new ≡ to) }
        ensures before { OnOk result (EachMinute self.old.from (end_of self.old) (λ m. value_at self.new m ≡ value_at self.old m)) }
        ensures level { OnOk result (EachMinute (end_of self.old) to (λ m. value_at self.new m ≡ value)) }
        ensures err { OnErr result (self.new ≡ self.old) }
    {
        if self.to() == to {
            return Ok(());
        }
        lengthen(&mut self.stretches, to, value)?;
        self.to = to;
        Ok(())
    }

    // The value 0 at each minute.
    fn level(alloc: Global, from: u32, to: u32) -> Result<Profile, NoMemory>
        requires { from ≤ to }
        ensures from { IfOk result (λ p. p.from ≡ from) }
        ensures end { IfOk result (λ p. end_of p ≡ to) }
        ensures values { IfOk result (λ p. EachMinute from to (λ m. value_at p m ≡ pos 0)) }
    {
        let mut profile = Profile::begun_at(alloc, from, 1)?;
        profile.lay(to, 0)?;
        Ok(profile)
    }

    // What one piece puts on the minutes of a window.
    fn of_piece(alloc: Global, from: u32, to: u32, piece: Piece) -> Result<Profile, NoMemory>
        requires { from ≤ to }
        ensures from { IfOk result (λ p. p.from ≡ from) }
        ensures end { IfOk result (λ p. end_of p ≡ to) }
        ensures values { IfOk result (λ p. EachMinute from to (λ m. value_at p m ≡ share piece m)) }
        ensures size { FitsSigned w64 piece.value }
    {
        let start = piece.from.max(from).min(to);
        let end = piece.to.max(start).min(to);
        let mut profile = Profile::begun_at(alloc, from, 3)?;
        profile.lay(start, 0)?;
        profile.lay(end, piece.value)?;
        profile.lay(to, 0)?;
        Ok(profile)
    }

    // At each minute the sum of the pieces, as 64 bits hold it: a sum on the way may go past them, since what it loses is
    // made up for where the whole fits.
    fn sums_of(alloc: Global, from: u32, to: u32, pieces: &[Piece]) -> Result<Profile, NoMemory>
        requires { from ≤ to }
        ensures from { IfOk result (λ p. p.from ≡ from) }
        ensures end { IfOk result (λ p. end_of p ≡ to) }
        ensures values { IfOk result (λ p. EachMinute from to (λ m. value_at p m ≡ int_wrap w64 (sum_at pieces.now m))) }
    {
        match pieces {
            [] => Profile::level(alloc, from, to),
            [piece] => Profile::of_piece(alloc, from, to, *piece),
            _ => {
                let (front, back) = pieces.split_at(pieces.len() / 2);
                let front = Profile::sums_of(alloc, from, to, front)?;
                let back = Profile::sums_of(alloc, from, to, back)?;
                Profile::sum_of(alloc, &front, &back)
            }
        }
    }

    // The sum of two profiles over one window, as 64 bits hold it.
    fn sum_of(alloc: Global, a: &Profile, b: &Profile) -> Result<Profile, NoMemory>
        requires from { b.now.from ≡ a.now.from }
        requires end { end_of b.now ≡ end_of a.now }
        ensures from { IfOk result (λ p. p.from ≡ a.now.from) }
        ensures end { IfOk result (λ p. end_of p ≡ end_of a.now) }
        ensures values { IfOk result (λ p. EachMinute a.now.from (end_of a.now) (λ m. value_at p m ≡ int_wrap w64 (value_at a.now m +ℤ value_at b.now m))) }
        ensures whole { IfOk result (λ _. EachMinute a.now.from (end_of a.now) (λ m. value_at a.now m ≡ int_wrap w64 (value_at a.now m))) }
    {
        let mut left = a.stretches.as_slice();
        let mut right = b.stretches.as_slice();
        let mut sum = Profile::begun_at(alloc, a.from, left.len() + right.len())?;
        while !left.is_empty() && !right.is_empty() {
            let s = left[0];
            let t = right[0];
            let end = s.end.min(t.end);
            sum.lay(end, s.value.wrapping_add(t.value))?;
            left = behind(left, end);
            right = behind(right, end);
        }
        Ok(sum)
    }
}

// What a value adds up to over so many minutes.
fn minutes_times(minutes: u32, value: i64) -> i128
    ensures product { result ≡ pos minutes *ℤ value }
    ensures size { unsigned_abs result ≤ minutes * 2 ^ 63 }
{
    i128::from(minutes) * i128::from(value)
}
