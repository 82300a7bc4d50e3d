//! `desk_spans`: rows that were worked out by hand, and that each call succeeds where memory is ample.
ghost use Rattle.std.specs.Prelude.{◌≡◌, IfOk};
ghost use Rattle.desk_spans.specs.Timeline.{end_of};

use desk_spans::{NoMemory, Piece, Profile, Run, Runs, intersect};
use std::alloc::Global;
use std::test::Fail;

/// The largest value of a profile; its negative is the least.
const LIMIT: i64 = 100_000_000_000_000;

const fn piece(from: u32, to: u32, value: i64) -> Piece
    ensures { result ≡ record { from = from; to = to; value = value } }
{
    Piece { from, to, value }
}

// Over the minutes 10 to 24: 3 3 5 5 5 0 0 0 -2 -2 -5 -5 -5 -5 -5.
fn worked_profile(alloc: Global) -> Result<Profile, NoMemory>
    ensures begin { IfOk result (λ p. p.from ≡ 10) }
    ensures end { IfOk result (λ p. end_of p ≡ 25) }
{
    let pieces = [
        piece(0, 20, 3),
        piece(15, 40, -5),
        piece(12, 18, 2),
        piece(30, 30, 9),
    ];
    Profile::build(alloc, 10, 25, &pieces)
}

#[test]
fn pieces_that_overlap_add_up(rt: HostRuntime) -> Result<(), Fail> {
    let profile = worked_profile(rt.alloc())?;
    let values = [3, 3, 5, 5, 5, 0, 0, 0, -2, -2, -5, -5, -5, -5, -5];
    for minute in 10..25u32 {
        assert_eq!(rt;
            profile.at(minute),
            values[minute as usize - 10],
            "at {minute}"
        );
    }
    Ok(())
}

#[test]
fn where_values_change(rt: HostRuntime) -> Result<(), Fail> {
    let profile = worked_profile(rt.alloc())?;
    assert_eq!(rt; profile.next_change(10), Some(12));
    assert_eq!(rt; profile.next_change(14), Some(15));
    assert_eq!(rt; profile.next_change(20), None);
    assert_eq!(rt; profile.stretch_at(13).end, 15);
    Ok(())
}

#[test]
fn least_values_of_ranges(rt: HostRuntime) -> Result<(), Fail> {
    let profile = worked_profile(rt.alloc())?;
    assert_eq!(rt; profile.least_on(10, 20), -2);
    assert_eq!(rt; profile.least_on(10, 15), 3);
    assert_eq!(rt; profile.first_below(10, 25, 3), Some(15));
    assert_eq!(rt; profile.first_below(10, 25, -1), Some(18));
    assert_eq!(rt; profile.first_below(18, 20, -2), None);
    Ok(())
}

#[test]
fn sums_of_ranges(rt: HostRuntime) -> Result<(), Fail> {
    let profile = worked_profile(rt.alloc())?;
    assert_eq!(rt; profile.from(), 10);
    assert_eq!(rt; profile.to(), 25);
    assert_eq!(rt; profile.sum(10, 25), -8);
    assert_eq!(rt; profile.sum(14, 16), 5);
    Ok(())
}

#[test]
fn sums_on_the_way_pass_64_bits(rt: HostRuntime) -> Result<(), Fail> {
    let pieces = [
        piece(0, 10, i64::MAX),
        piece(0, 10, i64::MAX),
        piece(0, 10, -i64::MAX),
        piece(0, 10, 3 - i64::MAX),
    ];
    let profile = Profile::build(rt.alloc(), 0, 10, &pieces)?;
    assert_eq!(rt; profile.sum(0, 10), 30);
    Ok(())
}

#[test]
fn values_reach_both_ends_of_the_range(rt: HostRuntime) -> Result<(), Fail> {
    let mut profile = Profile::build(rt.alloc(), 7, 8, &[])?;
    assert_eq!(rt; profile.at(7), 0);
    assert_eq!(rt; profile.next_change(7), None);
    profile.add(7, 8, LIMIT)?;
    assert_eq!(rt; profile.at(7), LIMIT);
    assert_eq!(rt; profile.least_on(7, 8), LIMIT);
    assert_eq!(rt; profile.first_below(7, 8, LIMIT), None);
    let copy = profile.copy(rt.alloc())?;
    profile.add(7, 8, -2 * LIMIT)?;
    assert_eq!(rt; profile.at(7), -LIMIT);
    assert_eq!(rt; profile.sum(7, 8), -100_000_000_000_000);
    assert_eq!(rt; profile.first_below(7, 8, 1 - LIMIT), Some(7));
    assert_eq!(rt; copy.sum(7, 8), 100_000_000_000_000);
    Ok(())
}

#[test]
fn values_are_laid_one_behind_the_other(rt: HostRuntime) -> Result<(), Fail> {
    let mut profile = Profile::begun_at(rt.alloc(), 100, 2)?;
    profile.lay(103, 4)?;
    profile.lay(103, 9)?;
    profile.lay(105, 4)?;
    profile.lay(106, -1)?;
    assert_eq!(rt; profile.to(), 106);
    assert_eq!(rt; profile.next_change(100), Some(105));
    assert_eq!(rt; profile.sum(100, 106), 19);
    Ok(())
}

/// The runs of these ranges, each behind the one before.
fn runs_of(alloc: Global, ranges: &[(u32, u32)]) -> Option<Runs> {
    let mut runs = Runs::new(alloc);
    let mut end = 0;
    for (from, to) in ranges {
        if *from < end || *to < *from {
            return None;
        }
        let run = Run {
            from: *from,
            to: *to,
        };
        runs.push(run).ok()?;
        end = *to;
    }
    Some(runs)
}

#[test]
fn runs_that_touch_are_joined(rt: HostRuntime) -> Result<(), Fail> {
    let runs = runs_of(rt.alloc(), &[(3, 5), (5, 9), (9, 9), (10, 12)]).ok_or("no runs")?;
    assert_eq!(rt;
        runs.as_slice(),
        [Run { from: 3, to: 9 }, Run { from: 10, to: 12 }].as_slice()
    );
    Ok(())
}

#[test]
fn what_two_have_in_common(rt: HostRuntime) -> Result<(), Fail> {
    let rows = [
        (
            [(0, 10), (20, 20)],
            [(5, 15), (20, 20)],
            [(5, 10), (20, 20)],
        ),
        ([(0, 10), (20, 30)], [(10, 20), (30, 31)], [(0, 0), (0, 0)]),
        (
            [(0, 30), (40, 50)],
            [(5, 10), (12, 40)],
            [(5, 10), (12, 30)],
        ),
    ];
    for (a, b, wanted) in rows {
        let a = runs_of(rt.alloc(), &a).ok_or("no runs")?;
        let b = runs_of(rt.alloc(), &b).ok_or("no runs")?;
        let wanted = runs_of(rt.alloc(), &wanted).ok_or("no runs")?;
        let both = intersect(rt.alloc(), &a, &b)?;
        assert_eq!(rt; both.as_slice(), wanted.as_slice());
    }
    Ok(())
}
