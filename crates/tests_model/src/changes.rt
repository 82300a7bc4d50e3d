//! What no clause says of changes: that memory is found, and a change of concrete rows.
use desk_base::{
    Act, AnyRow, Call, CallNumber, CallerId, Change, Command, Duplicate, Items, Key, Name,
    NamedRow, NoMemory, Prepared, Table, Tables,
};
use std::alloc::Global;

/// A unit.
fn unit(alloc: Global, id: u32, name: &str) -> Result<AnyRow, NoMemory> {
    Ok(AnyRow::Unit(NamedRow {
        id,
        name: Name::of(alloc, name)?,
    }))
}

/// Puts unit 7, unit 3, and unit 7 anew. Unit 9 was never there.
fn change(alloc: Global) -> Result<Change, NoMemory> {
    let mut puts = Items::new(alloc);
    puts.push(unit(alloc, 7, "North")?)?;
    puts.push(unit(alloc, 3, "South")?)?;
    puts.push(unit(alloc, 7, "East")?)?;
    Ok(Change {
        puts,
        removes: Items::from_slice(alloc, &[Key::of_id(Table::Unit, 9)])?,
        revision: 1,
        last_booking: 0,
    })
}

/// The change, prepared over no rows.
fn prepared(alloc: Global) -> Option<Prepared> {
    Tables::empty(alloc).prepare(change(alloc).ok()?).ok()
}

/// A command that puts a unit.
fn command(alloc: Global) -> Option<Command> {
    let call = Call {
        caller: CallerId::of(1)?,
        number: CallNumber::of(1)?,
    };
    Some(Command::Change(call, Act::Put(unit(alloc, 3, "South").ok()?)))
}

#[test]
fn applies_a_change(rt: HostRuntime) {
    let tables = prepared(rt.alloc()).expect(&rt, "memory").apply();
    assert_eq!(rt; tables.revision, 1);
    let mut units = tables.units.as_slice().iter().map(|row| row.id);
    assert_eq!(rt; units.next(), Some(3));
    assert_eq!(rt; units.next(), Some(7));
    assert_eq!(rt; units.next(), None);
}

#[test]
fn gives_the_tables_back(rt: HostRuntime) {
    let prepared = prepared(rt.alloc()).expect(&rt, "memory");
    assert_eq!(rt; prepared.change().revision, 1);
    assert_eq!(rt; prepared.give_back().len_of(Table::Unit), 0);
}

#[test]
fn copies_a_change(rt: HostRuntime) {
    let change = change(rt.alloc()).expect(&rt, "a change");
    let copy = change.copy(rt.alloc()).expect(&rt, "a copy");
    assert_eq!(rt; copy.puts.len(), 3);
}

#[test]
fn copies_a_command(rt: HostRuntime) {
    let command = command(rt.alloc()).expect(&rt, "a command");
    assert!(rt; command.copy(rt.alloc()).is_ok());
}
