//! Part-of-same: units within units, and crews that have both for part of the time.
ghost use Rattle.desk_base.specs.rows.Lookups.{KeysRise};

use crate::fixtures::{EIGHT, HOUR, all, any, group, leaf, member, picks, resource, tables, with};
use desk_base::{AnyRows, GroupRow, Items, Kind, Minute, Same, Tables};
use desk_need::{Case, Tree};
use std::alloc::Global;

/// Whether the case could be made, and the first node whose part-of-same is broken from so many hours after 08:00.
fn broken(
    alloc: Global,
    tables: &Tables,
    group: &GroupRow,
    hours: u8,
    numbers: &[u32],
) -> Option<Option<u8>>
    requires { KeysRise tables.now }
{
    let picks = picks(alloc, numbers)?;
    match Tree::build(group.nodes.as_slice(), group.leaves.len()) {
        Ok(_) => {
            let case = Case::build(alloc, tables, group).ok()?;
            let start = Minute::of(EIGHT + u32::from(hours) * HOUR)?;
            match case.same_ok(start, picks.as_slice()) {
                Ok(()) => Some(None),
                Err(node) => Some(Some(node)),
            }
        }
        Err(_) => None,
    }
}

/// Resources 4 and 5 in unit 2 and at site 2, 6 and 7 in unit 3 and at site 3, and 8 in unit 2 and at site 3.
fn units(alloc: Global) -> Option<AnyRows> {
    let mut puts = Items::new(alloc);
    puts.push(resource(alloc, 4, Kind::Generic, 2, 2)?).ok()?;
    puts.push(resource(alloc, 5, Kind::Generic, 2, 2)?).ok()?;
    puts.push(resource(alloc, 6, Kind::Generic, 3, 3)?).ok()?;
    puts.push(resource(alloc, 7, Kind::Generic, 3, 3)?).ok()?;
    puts.push(resource(alloc, 8, Kind::Generic, 2, 3)?).ok()?;
    Some(puts)
}

/// Crew 10 has 1 for four hours, and 2 for the first two; crew 11 has 2 for the last two.
fn crews(alloc: Global) -> Option<AnyRows> {
    let mut puts = Items::new(alloc);
    puts.push(resource(alloc, 1, Kind::Generic, 1, 1)?).ok()?;
    puts.push(resource(alloc, 2, Kind::Generic, 1, 1)?).ok()?;
    puts.push(resource(alloc, 10, Kind::Crew, 1, 1)?).ok()?;
    puts.push(resource(alloc, 11, Kind::Crew, 1, 1)?).ok()?;
    puts.push(member(10, 1, 0, 90)?).ok()?;
    puts.push(member(10, 1, 90, 240)?).ok()?;
    puts.push(member(10, 2, 0, 120)?).ok()?;
    puts.push(member(11, 2, 120, 240)?).ok()?;
    Some(puts)
}

#[test]
fn all_of_one_unit(rt: HostRuntime) {
    let alloc = rt.alloc();
    let tables = tables(alloc, units(alloc).expect(&rt, "rows")).expect(&rt, "tables");
    let nodes = [with(all(0), Same::Unit), leaf(1), leaf(1)];
    let group = group(alloc, &nodes, 2).expect(&rt, "a group");
    assert_eq!(rt; broken(alloc, &tables, &group, 0, &[4, 5]), Some(None));
    assert_eq!(rt; broken(alloc, &tables, &group, 0, &[4, 6]), Some(Some(0)));
    assert_eq!(rt; broken(alloc, &tables, &group, 0, &[4]), Some(None));
    assert_eq!(rt; broken(alloc, &tables, &group, 0, &[0, 6]), Some(None));
}

#[test]
fn one_site_within_one_unit(rt: HostRuntime) {
    let alloc = rt.alloc();
    let tables = tables(alloc, units(alloc).expect(&rt, "rows")).expect(&rt, "tables");
    let nodes = [
        all(0),
        leaf(1),
        with(any(1), Same::Unit),
        with(all(2), Same::Site),
        leaf(3),
        leaf(3),
        leaf(2),
    ];
    let group = group(alloc, &nodes, 4).expect(&rt, "a group");
    assert_eq!(rt;
        broken(alloc, &tables, &group, 0, &[4, 6, 7, 0]),
        Some(None)
    );
    assert_eq!(rt;
        broken(alloc, &tables, &group, 0, &[6, 4, 5, 0]),
        Some(None)
    );
    assert_eq!(rt;
        broken(alloc, &tables, &group, 0, &[4, 4, 6, 0]),
        Some(Some(2))
    );
    assert_eq!(rt;
        broken(alloc, &tables, &group, 0, &[4, 4, 8, 0]),
        Some(Some(3))
    );
    assert_eq!(rt;
        broken(alloc, &tables, &group, 0, &[4, 0, 0, 6]),
        Some(None)
    );
}

#[test]
fn a_crew_has_both_for_part_of_the_time(rt: HostRuntime) {
    let alloc = rt.alloc();
    let tables = tables(alloc, crews(alloc).expect(&rt, "rows")).expect(&rt, "tables");
    let nodes = [with(all(0), Same::Crew), leaf(1), leaf(1)];
    let group = group(alloc, &nodes, 2).expect(&rt, "a group");
    assert_eq!(rt; broken(alloc, &tables, &group, 0, &[1, 2]), Some(None));
    assert_eq!(rt; broken(alloc, &tables, &group, 1, &[1, 2]), Some(None));
    assert_eq!(rt; broken(alloc, &tables, &group, 2, &[1, 2]), Some(Some(0)));
    assert_eq!(rt; broken(alloc, &tables, &group, 3, &[1]), Some(None));
    assert_eq!(rt; broken(alloc, &tables, &group, 4, &[1]), Some(Some(0)));
    assert_eq!(rt; broken(alloc, &tables, &group, 0, &[1, 10]), Some(Some(0)));
    assert_eq!(rt; broken(alloc, &tables, &group, 4, &[0, 0]), Some(None));
}
