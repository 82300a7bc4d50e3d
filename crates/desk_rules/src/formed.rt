//! The rules of loaded tables, judged in turn.
ghost use Rattle.std.specs.Prelude.{◌≡◌, ◌↔◌, IfOk, IfNone, IsTrue, MatchOption};
ghost use Rattle.desk_base.specs.rules.Sound.{AreWellFormed, IsBadAt};
ghost use Rattle.desk_member.specs.Memberships.{AreMemberships};
ghost use Rattle.desk_rules.specs.Broken.{IsReady};
ghost use Rattle.desk_rules.specs.Formed.{AreFormed, IsKept};

use crate::judging::{are_taken, least_broken};
use desk_base::{Key, NoMemory, TableRule, Tables};
use desk_member::ByMember;
use std::alloc::Global;

/// A rule that loaded tables break, and the least key at which they break it.
#[derive(Clone, Copy, Debug, PartialEq, Eq)]
pub struct BadAt {
    pub rule: TableRule,
    pub key: Key,
}

fn first_broken(tables: &Tables, members: &ByMember) -> Option<BadAt>
    requires { AreMemberships tables.now members.now }
    ensures { MatchOption result (AreFormed tables.now) (λ b. IsBadAt tables.now b.rule b.key) }
{
    if let Some(key) = least_broken(tables, members, TableRule::Order) {
        return Some(BadAt {
            rule: TableRule::Order,
            key,
        });
    }
    if let Some(key) = least_broken(tables, members, TableRule::Limit) {
        return Some(BadAt {
            rule: TableRule::Limit,
            key,
        });
    }
    if let Some(key) = least_broken(tables, members, TableRule::Field) {
        return Some(BadAt {
            rule: TableRule::Field,
            key,
        });
    }
    if let Some(key) = least_broken(tables, members, TableRule::Citation) {
        return Some(BadAt {
            rule: TableRule::Citation,
            key,
        });
    }
    None
}

/// The first of the rules on order, limits, fields and citations that the tables break, and the least key at which they do;
/// `None` where they keep them all.
pub fn first_bad(alloc: Global, tables: &Tables) -> Result<Option<BadAt>, NoMemory>
    ensures first { IfOk result (λ bad. MatchOption bad (AreFormed tables.now) (λ b. IsBadAt tables.now b.rule b.key)) }
    ensures well_formed { IfOk result (λ bad. IfNone bad (AreWellFormed tables.now)) }
{
    let members = ByMember::of(alloc, tables)?;
    Ok(first_broken(tables, &members))
}

/// Whether the rule is kept at every key.
fn keep(tables: &Tables, members: &ByMember, rule: TableRule) -> bool
    requires ready { IsReady rule tables.now }
    requires memberships { AreMemberships tables.now members.now }
    ensures { IsTrue result ↔ IsKept rule tables.now }
{
    let broken = least_broken(tables, members, rule);
    broken.is_none()
}

fn is_formed(tables: &Tables, members: &ByMember) -> bool
    requires { AreMemberships tables.now members.now }
    ensures { IsTrue result ↔ AreWellFormed tables.now }
{
    if !keep(tables, members, TableRule::Order) {
        return false;
    }
    if !are_taken(tables) {
        return false;
    }
    if !keep(tables, members, TableRule::Field) {
        return false;
    }
    keep(tables, members, TableRule::Citation)
}

/// Whether the tables are well formed.
pub fn are_formed(alloc: Global, tables: &Tables) -> Result<bool, NoMemory>
    ensures { IfOk result (λ formed. IsTrue formed ↔ AreWellFormed tables.now) }
{
    let members = ByMember::of(alloc, tables)?;
    Ok(is_formed(tables, &members))
}
