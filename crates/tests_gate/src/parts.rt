//! A pass that is split in many parts, which are joined again.
ghost use Rattle.std.specs.Prelude.{◌≡◌, ◌<◌, length, IfOk};
ghost use Rattle.tests_gate.specs.Parts.{AreOut};

use crate::ledger::{Ledger, make_note};
use desk_gate::{Gate, Pass, WHOLE_SHARE};
use std::alloc::AllocError;
use std::sync::Wait;

/// How many passes there are beside the first.
pub const PARTS: usize = 63;

/// The share of each of them.
pub const PART: u64 = WHOLE_SHARE / 64;

/// A part is cut off.
fn split_off(
    gate: &Gate<Ledger>,
    pass: Pass<Ledger>,
    parts: &mut Vec<Pass<Ledger>>,
) -> Result<Pass<Ledger>, AllocError>
    requires out { AreOut gate.now pass parts.old.items }
    requires room { length parts.old.items < PARTS }
    ensures { IfOk result (λ p. AreOut gate.now p parts.new.items) }
{
    let (rest, part) = gate.split(pass, PART).map_err(|_| AllocError)?;
    parts.push(part)?;
    Ok(rest)
}

/// All parts are cut off.
pub fn split_all(
    gate: &Gate<Ledger>,
    pass: Pass<Ledger>,
    parts: &mut Vec<Pass<Ledger>>,
) -> Result<Pass<Ledger>, AllocError>
    requires out { AreOut gate.now pass parts.old.items }
    ensures { IfOk result (λ p. AreOut gate.now p parts.new.items) }
{
    let mut pass = pass;
    for _ in 0..PARTS {
        if parts.len() < PARTS {
            pass = split_off(gate, pass, parts)?;
        }
    }
    Ok(pass)
}

/// Each part takes a turn, the last first, and is joined.
pub fn join_all<R: Wait>(
    rt: &R,
    gate: &Gate<Ledger>,
    pass: Pass<Ledger>,
    parts: &mut Vec<Pass<Ledger>>,
) -> Pass<Ledger>
    requires out { AreOut gate.now pass parts.old.items }
    ensures { AreOut gate.now result parts.new.items }
{
    let mut pass = pass;
    for serial in 0..PARTS {
        if let Some(part) = parts.pop() {
            let (part, _) = make_note(rt, gate, part, 1, serial as u64);
            pass = gate.join(pass, part);
        }
    }
    pass
}
