//! Cases that are built.
ghost use Rattle.std.specs.Prelude.{◌≡◌, map, Contains, IfOk};
ghost use Rattle.desk_base.specs.meaning.Load.{Fits, ask_of};
ghost use Rattle.desk_base.specs.rules.Sound.{AreWellFormed};
ghost use Rattle.desk_feasible.specs.Live.{IsReady};

use crate::stop::Stop;
use crate::works::groups::group_of;
use desk_base::{GroupRow, NoMemory, Tables};
use desk_need::Case;
use std::alloc::Global;

/// The case of a group of the tables.
pub(crate) fn case_of<'a>(
    alloc: Global,
    tables: &'a Tables,
    group: &'a GroupRow,
) -> Result<Case<'a>, NoMemory>
    requires formed { AreWellFormed tables.now }
    requires there { Contains tables.now.groups group.now }
    ensures tables { IfOk result (λ case. case.tables ≡ tables.now) }
    ensures group { IfOk result (λ case. case.group ≡ group.now) }
{
    let case = Case::build(alloc, tables, group)?;
    Ok(case)
}

/// The case of a group of the tables, where the standing bookings fit.
pub(crate) fn ready_case<'a>(
    alloc: Global,
    tables: &'a Tables,
    group: &'a GroupRow,
) -> Result<Case<'a>, NoMemory>
    requires formed { AreWellFormed tables.now }
    requires there { Contains tables.now.groups group.now }
    requires fits { Fits tables.now (map ask_of tables.now.bookings) }
    ensures ready { IfOk result (λ case. IsReady case) }
    ensures tables { IfOk result (λ case. case.tables ≡ tables.now) }
{
    let case = case_of(alloc, tables, group)?;
    Ok(case)
}

/// How many resources serve the first leaf.
fn servers(case: &Case<'_>) -> usize {
    if case.group().leaves.is_empty() {
        return 0;
    }
    case.candidates(0).len()
}

/// The same of a case that is built for it.
fn servers_of(alloc: Global, tables: &Tables, group: &GroupRow) -> Result<usize, NoMemory>
    requires formed { AreWellFormed tables.now }
    requires there { Contains tables.now.groups group.now }
{
    let case = case_of(alloc, tables, group)?;
    Ok(servers(&case))
}

/// The same of the group of a number, in all rounds.
pub(crate) fn of_group(
    alloc: Global,
    tables: &Tables,
    number: u32,
    rounds: u32,
) -> Result<usize, Stop>
    requires { AreWellFormed tables.now }
{
    let group = group_of(tables, number)?;
    let mut found = 0usize;
    for _ in 0..rounds {
        let servers = servers_of(alloc, tables, group)?;
        found = found.wrapping_add(servers);
    }
    Ok(found)
}
