ghost use Rattle.std.specs.Prelude.{◌≡◌, IsSomeAnd};
ghost use Rattle.desk_gate.specs.Passes.{view, IsOf};

use crate::callers::{Caller, all_take_turns};
use crate::ledger::{Ledger, Note, make_note, open};
use crate::parts::{PARTS, join_all, split_all};
use desk_gate::{Entered, Gate, Pass, WHOLE_SHARE};
use std::alloc::{AllocError, Global};
use std::sync::Wait;
use std::test::Fail;

/// The share of each of four callers.
const QUARTER: u64 = WHOLE_SHARE / 4;

/// One turn of the second pass where `who` is B, else of the first.
fn turn_of<R: Wait>(
    rt: &R,
    gate: &Gate<Ledger>,
    first: Pass<Ledger>,
    second: Pass<Ledger>,
    who: u8,
) -> (Pass<Ledger>, Pass<Ledger>)
    requires first { IsOf gate.now first }
    requires second { IsOf gate.now second }
    ensures first { IsOf gate.now result.0 × ((view result.0).share ≡ (view first).share) }
    ensures second { IsOf gate.now result.1 × ((view result.1).share ≡ (view second).share) }
{
    if who == b'B' {
        let (second, _) = make_note(rt, gate, second, u64::from(who), 0);
        (first, second)
    } else {
        let (first, _) = make_note(rt, gate, first, u64::from(who), 0);
        (first, second)
    }
}

/// The notes of four turns of two passes, A and B, on one thread.
fn four_turns<R: Wait>(rt: &R, alloc: Global, order: [u8; 4]) -> Result<Vec<Note>, AllocError> {
    let (gate, whole) = open(alloc)?;
    let (first, second) = gate.split(whole, 1).map_err(|_| AllocError)?;
    let (first, second) = turn_of(rt, &gate, first, second, order[0]);
    let (first, second) = turn_of(rt, &gate, first, second, order[1]);
    let (first, second) = turn_of(rt, &gate, first, second, order[2]);
    let (first, second) = turn_of(rt, &gate, first, second, order[3]);
    let whole = gate.join(first, second);
    Ok(gate.close(whole).notes)
}

#[test]
fn two_passes_take_four_turns_in_every_order(rt: HostRuntime) -> Result<(), Fail> {
    // Who took which turn, and the number of its pass in each note: that of the first turn that the pass drew.
    let rows = [
        (*b"AAAA", [0, 0, 0, 0]),
        (*b"AAAB", [0, 0, 0, 3]),
        (*b"AABA", [0, 0, 2, 0]),
        (*b"AABB", [0, 0, 2, 2]),
        (*b"ABAA", [0, 1, 0, 0]),
        (*b"ABAB", [0, 1, 0, 1]),
        (*b"ABBA", [0, 1, 1, 0]),
        (*b"ABBB", [0, 1, 1, 1]),
        (*b"BAAA", [0, 1, 1, 1]),
        (*b"BAAB", [0, 1, 1, 0]),
        (*b"BABA", [0, 1, 0, 1]),
        (*b"BABB", [0, 1, 0, 0]),
        (*b"BBAA", [0, 0, 2, 2]),
        (*b"BBAB", [0, 0, 2, 0]),
        (*b"BBBA", [0, 0, 0, 3]),
        (*b"BBBB", [0, 0, 0, 0]),
    ];
    for (order, numbers) in rows {
        let notes = four_turns(&rt, rt.alloc(), order)?;
        assert_eq!(rt; notes.len(), 4, "notes of {order:?}");
        for (note, (who, number)) in notes.iter().zip(order.into_iter().zip(numbers)) {
            assert_eq!(rt; note.caller, u64::from(who), "callers of {order:?}");
            assert_eq!(rt; note.by, number, "numbers of {order:?}");
        }
    }
    Ok(())
}

/// A caller that has not noted yet.
fn caller(pass: Pass<Ledger>, name: u64) -> Caller
    ensures { IsSomeAnd result.pass (λ p. p ≡ pass) }
{
    Caller {
        pass: Some(pass),
        name,
        noted: 0,
    }
}

#[test]
fn four_threads_keep_each_callers_notes_in_order(rt: HostRuntime) -> Result<(), Fail> {
    let (gate, whole) = open(rt.alloc())?;
    let (first, second) = gate.split(whole, QUARTER).map_err(|_| AllocError)?;
    let (first, third) = gate.split(first, QUARTER).map_err(|_| AllocError)?;
    let (first, fourth) = gate.split(first, QUARTER).map_err(|_| AllocError)?;
    let mut callers = [
        caller(first, 0),
        caller(second, 1),
        caller(third, 2),
        caller(fourth, 3),
    ];
    all_take_turns(&rt, &gate, QUARTER, &mut callers, 1000);
    let [a, b, c, d] = callers;
    assert_eq!(rt; [a.noted, b.noted, c.noted, d.noted], [1000; 4]);
    let (Some(first), Some(second), Some(third), Some(fourth)) = (a.pass, b.pass, c.pass, d.pass)
    else {
        panic!(rt; "a pass is lost")
    };
    let front = gate.join(first, second);
    let back = gate.join(third, fourth);
    let whole = gate.join(front, back);
    let notes = gate.close(whole).notes;
    assert_eq!(rt; notes.len(), 4000);
    let mut serials = [0u64; 4];
    let mut numbers = [None; 4];
    for note in notes.iter() {
        let at = (note.caller % 4) as usize;
        assert_eq!(rt; note.caller, at as u64);
        assert_eq!(rt; note.serial, serials[at]);
        serials[at] = serials[at].wrapping_add(1);
        assert_eq!(rt; note.by, *numbers[at].get_or_insert(note.by));
    }
    assert_eq!(rt; serials, [1000; 4]);
    Ok(())
}

#[test]
fn newest_answers_while_another_has_its_turn(rt: HostRuntime) -> Result<(), Fail> {
    let (gate, whole) = open(rt.alloc())?;
    let (first, second) = gate.split(whole, 1).map_err(|_| AllocError)?;
    let mut second = second;
    match gate.enter(&rt, first) {
        Entered::Turn(mut turn) => {
            let by = turn.number();
            let before = gate.newest(&mut second);
            let noted = turn
                .value
                .notes
                .push(Note {
                    by,
                    caller: 0,
                    serial: 0,
                })
                .is_ok();
            let within = gate.newest(&mut second);
            let first = gate.leave(turn);
            assert!(rt; noted);
            // The second pass learns of the note by the shared count alone.
            assert_eq!(rt; [before, within, gate.newest(&mut second)], [0, 0, 1]);
            let whole = gate.join(first, second);
            assert_eq!(rt; gate.close(whole).notes.len(), 1);
            Ok(())
        }
        Entered::Spent(_) => panic!(rt; "no turn was drawn before"),
    }
}

#[test]
fn sixty_four_parts_are_joined_again(rt: HostRuntime) -> Result<(), Fail> {
    let (gate, whole) = open(rt.alloc())?;
    let mut parts = Vec::new(rt.alloc());
    let first = split_all(&gate, whole, &mut parts)?;
    assert_eq!(rt; parts.len(), PARTS);
    let (first, _) = make_note(&rt, &gate, first, 0, 0);
    let mut whole = join_all(&rt, &gate, first, &mut parts);
    if !parts.is_empty() {
        panic!(rt; "a part is left")
    }
    assert_eq!(rt; gate.newest(&mut whole), 64);
    let notes = gate.close(whole).notes;
    assert_eq!(rt; notes.len(), 64);
    for (number, note) in notes.iter().enumerate() {
        assert_eq!(rt; note.by, number as u64);
    }
    Ok(())
}
