//! Which resources serve a leaf, and the first rule that another breaks.
ghost use Rattle.desk_base.specs.rows.Lookups.{KeysRise};

use crate::fixtures::{characteristic, group, hour, leaf, resource, role, tables};
use desk_base::{
    AnyRows, CharacteristicId, GroupRow, Items, Kind, Leaf, LeafRule, ResourceId, RoleId, Tables,
};
use desk_need::{Case, Eligibility, Tree, eligible};
use std::alloc::Global;

/// Resources 1 to 4, of which the first two have role 7, and all but the last characteristic 5, rated 3, 4 and 9.
fn rows(alloc: Global) -> Option<AnyRows> {
    let mut puts = Items::new(alloc);
    for id in 1..5 {
        puts.push(resource(alloc, id, Kind::Generic, 1, 1)?).ok()?;
    }
    puts.push(role(1, 7)?).ok()?;
    puts.push(role(2, 7)?).ok()?;
    puts.push(characteristic(1, 5, 3)?).ok()?;
    puts.push(characteristic(2, 5, 4)?).ok()?;
    puts.push(characteristic(3, 5, 9)?).ok()?;
    Some(puts)
}

/// A leaf that asks for role 7 and for characteristic 5 rated at least 4.
fn skilled(alloc: Global) -> Option<Leaf> {
    let mut leaf = hour(alloc);
    leaf.roles.push(RoleId::of(7)?).ok()?;
    leaf.characteristics
        .push((CharacteristicId::of(5)?, 4))
        .ok()?;
    Some(leaf)
}

fn judged(tables: &Tables, leaf: &Leaf, id: u32) -> Option<Eligibility>
    requires { KeysRise tables.now }
{
    Some(eligible(tables, leaf, ResourceId::of(id)?))
}

/// Whether the case could be made, and how many serve its first leaf, the first and the last of them.
fn served(alloc: Global, tables: &Tables, group: &GroupRow) -> Option<(usize, u32, u32)>
    requires { KeysRise tables.now }
{
    match Tree::build(group.nodes.as_slice(), group.leaves.len()) {
        Ok(_) => {
            let case = Case::build(alloc, tables, group).ok()?;
            if group.leaves.len() == 0 {
                return None;
            }
            match case.candidates(0) {
                [] => Some((0, 0, 0)),
                [first, others @ ..] => Some((
                    others.len() + 1,
                    first.get(),
                    others.last().map_or(0, |id| id.get()),
                )),
            }
        }
        Err(_) => None,
    }
}

#[test]
fn names_the_first_rule_that_is_broken(rt: HostRuntime) {
    let rows = rows(rt.alloc()).expect(&rt, "rows");
    let tables = tables(rt.alloc(), rows).expect(&rt, "tables");
    let leaf = skilled(rt.alloc()).expect(&rt, "a leaf");
    let lacks = Some(Eligibility::Broken(LeafRule::Characteristic));
    assert_eq!(rt; judged(&tables, &leaf, 1), lacks);
    assert_eq!(rt; judged(&tables, &leaf, 2), Some(Eligibility::Yes));
    assert_eq!(rt;
        judged(&tables, &leaf, 3),
        Some(Eligibility::Broken(LeafRule::Role))
    );
    assert_eq!(rt;
        judged(&tables, &leaf, 9),
        Some(Eligibility::Broken(LeafRule::Kind))
    );
}

#[test]
fn a_case_knows_who_serves(rt: HostRuntime) {
    let rows = rows(rt.alloc()).expect(&rt, "rows");
    let tables = tables(rt.alloc(), rows).expect(&rt, "tables");
    let mut group = group(rt.alloc(), &[leaf(0)], 1).expect(&rt, "a group");
    assert_eq!(rt; served(rt.alloc(), &tables, &group), Some((4, 1, 4)));
    let mut leaf = hour(rt.alloc());
    for id in [3, 1, 3, 9] {
        let id = ResourceId::of(id).expect(&rt, "an id");
        leaf.required.push(id).expect(&rt, "memory");
    }
    group.leaves = Items::new(rt.alloc());
    group.leaves.push(leaf).expect(&rt, "memory");
    assert_eq!(rt; served(rt.alloc(), &tables, &group), Some((2, 1, 3)));
}
