//! A group of the tables.
ghost use Rattle.std.specs.Prelude.{Contains, IfOk};
ghost use Rattle.desk_base.specs.rules.Sound.{AreWellFormed};

use crate::stop::Stop;
use desk_base::{GroupId, GroupRow, Tables};

/// The group of this number.
pub(crate) fn group_of(tables: &Tables, number: u32) -> Result<&GroupRow, Stop>
    requires { AreWellFormed tables.now }
    ensures { IfOk result (λ group. Contains tables.now.groups group.now) }
{
    let id = GroupId::of(number).ok_or(Stop::OutOfRange)?;
    match tables.group(id) {
        Some(group) => Ok(group),
        None => Err(Stop::NoGroup),
    }
}
