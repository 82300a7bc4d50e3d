//! What the queries and the building of profiles cost: a program that does many of them, and is timed from outside.
//!
//! Its words are how many queries it asks, of how many pieces it builds a profile, and how often. It prints the sum of
//! the answers, and the sum of the values of the profiles built.
#![tactic(auto)]

ghost use Rattle.std.specs.Prelude.{◌≡◌, ◌+◌, ◌*◌, ◌^◌, ◌<◌, ◌≤◌, IfOk, OnOk};
ghost use Rattle.desk_spans.specs.Timeline.{end_of};
ghost use Rattle.desk_spans.specs.Pieces.{weight_of};

use desk_spans::{NoMemory, Piece, Profile};
use std::alloc::{AllocError, Global};
use std::env;
use std::process::ExitCode;

/// How many minutes a query looks at: at most two stretches of the profile that is asked.
const MINUTES: u32 = 4;

/// The profile that is asked has a value of 1 to 7 in five minutes of each ten.
const PIECES_ASKED: u16 = 500;

/// The next number of a fixed sequence.
fn next(number: u32) -> u32 {
    number.wrapping_mul(1_664_525).wrapping_add(1_013_904_223)
}

/// So many pieces that do not overlap, five minutes of each ten.
fn separate_pieces(alloc: Global, count: u16) -> Result<Vec<Piece>, AllocError>
    ensures { IfOk result (λ v. weight_of v.items ≤ 1000 * count) }
{
    let mut pieces = Vec::new(alloc);
    for i in 0..count {
        let from = u32::from(i) * 10;
        let value = i64::from(i % 7) + 1;
        pieces.push(Piece {
            from,
            to: from + 5,
            value,
        })?;
    }
    Ok(pieces)
}

/// So many pieces here and there below 2^20, each 1 to 500 minutes long, with values below 1,000.
fn scattered_pieces(alloc: Global, count: u16) -> Result<Vec<Piece>, AllocError>
    ensures { IfOk result (λ v. weight_of v.items ≤ 1000 * count) }
{
    let mut pieces = Vec::new(alloc);
    let mut number = 1;
    for _ in 0..count {
        number = next(number);
        let from = number >> 12;
        number = next(number);
        let to = from + 1 + (number >> 12) % 500;
        let value = i64::from(number % 1000);
        pieces.push(Piece { from, to, value })?;
    }
    Ok(pieces)
}

/// The sum of the answers to so many queries.
fn ask(profile: &Profile, queries: u32) -> i64
    requires from { profile.now.from ≡ 0 }
    requires room { 4 < end_of profile.now }
{
    let places = profile.to() - MINUTES;
    let mut number = 1;
    let mut total = 0i64;
    for _ in 0..queries {
        number = next(number);
        let from = number % places;
        total = total.wrapping_add(profile.least_on(from, from + MINUTES));
    }
    total
}

/// The answers to so many queries of one profile.
fn asked(alloc: Global, queries: u32) -> Result<i64, NoMemory> {
    let pieces = separate_pieces(alloc, PIECES_ASKED)?;
    let profile = Profile::build(alloc, 0, 5000, &pieces)?;
    Ok(ask(&profile, queries))
}

/// The sum of the values of a profile that is built so often.
fn built(alloc: Global, pieces: u16, rounds: u32) -> Result<i128, NoMemory> {
    let pieces = scattered_pieces(alloc, pieces)?;
    let mut total = 0i128;
    for _ in 0..rounds {
        let profile = Profile::build(alloc, 0, 1_049_600, &pieces)?;
        total = total.wrapping_add(profile.sum(0, 1_049_600));
    }
    Ok(total)
}

fn main(rt: HostRuntime) -> ExitCode {
    let mut counts = [0u32; 3];
    if let Ok(args) = env::args(&rt) {
        for (i, arg) in args.skip(1).take(3).enumerate() {
            if let Some(count) = counts.get_mut(i) {
                *count = arg.parse::<u32>().unwrap_or(0);
            }
        }
    }
    let pieces = (counts[1] % 65_536) as u16;
    let (Ok(asked), Ok(built)) = (
        asked(rt.alloc(), counts[0]),
        built(rt.alloc(), pieces, counts[2]),
    ) else {
        return ExitCode::from(10);
    };
    if println!(rt; "{asked} {built}").is_err() {
        return ExitCode::from(7);
    }
    ExitCode::from(0)
}
