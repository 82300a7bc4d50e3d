//! What a change asks for, as one line of text: the act, and then its values in the order of their types.
use desk_base::{Act, AnyRow, Command, GroupRow, Id, Kind, Leaf, Picks, Ratings, Shifts, Window};
use desk_json::{BodyError, read_change};
use std::alloc::Global;
use std::fmt;
use std::fmt::Display;
use std::test::Fail;

#[derive(Drop)]
struct ShownIds<'a, K>(&'a [Id<K>]);

impl<'a, K> Display for ShownIds<'a, K> {
    fn fmt<W: fmt::Write>(&self, f: &mut fmt::Formatter<W>) -> fmt::Result {
        for id in self.0 {
            write!(f, "{} ", id.get())?;
        }
        Ok(())
    }
}

#[derive(Drop)]
struct ShownKinds<'a>(&'a [Kind]);

impl<'a> Display for ShownKinds<'a> {
    fn fmt<W: fmt::Write>(&self, f: &mut fmt::Formatter<W>) -> fmt::Result {
        for kind in self.0 {
            write!(f, "{kind:?} ")?;
        }
        Ok(())
    }
}

#[derive(Drop)]
struct ShownRatings<'a>(&'a Ratings);

impl<'a> Display for ShownRatings<'a> {
    fn fmt<W: fmt::Write>(&self, f: &mut fmt::Formatter<W>) -> fmt::Result {
        for (characteristic, rating) in self.0.as_slice() {
            write!(f, "{}:{} ", characteristic.get(), rating)?;
        }
        Ok(())
    }
}

#[derive(Drop)]
struct ShownShifts<'a>(&'a Shifts);

impl<'a> Display for ShownShifts<'a> {
    fn fmt<W: fmt::Write>(&self, f: &mut fmt::Formatter<W>) -> fmt::Result {
        for (from, ahead) in self.0.as_slice() {
            write!(f, "{from}:{ahead} ")?;
        }
        Ok(())
    }
}

#[derive(Drop)]
struct ShownPicks<'a>(&'a Picks);

impl<'a> Display for ShownPicks<'a> {
    fn fmt<W: fmt::Write>(&self, f: &mut fmt::Formatter<W>) -> fmt::Result {
        for pick in self.0.as_slice() {
            match pick {
                Some(resource) => write!(f, "{} ", resource.get())?,
                None => write!(f, "- ")?,
            }
        }
        Ok(())
    }
}

#[derive(Drop)]
struct ShownWindow<'a>(&'a Option<Window>);

impl<'a> Display for ShownWindow<'a> {
    fn fmt<W: fmt::Write>(&self, f: &mut fmt::Formatter<W>) -> fmt::Result {
        match self.0 {
            Some(window) => write!(f, "{} to {}", window.from.get(), window.to.get()),
            None => write!(f, "none"),
        }
    }
}

#[derive(Drop)]
struct ShownLeaf<'a>(&'a Leaf);

impl<'a> Display for ShownLeaf<'a> {
    fn fmt<W: fmt::Write>(&self, f: &mut fmt::Formatter<W>) -> fmt::Result {
        let leaf = self.0;
        write!(f, "({} {} {}|", leaf.duration, leaf.offset, leaf.effort)?;
        write!(f, "{}|", ShownKinds(leaf.kinds.as_slice()))?;
        write!(f, "{}|", ShownIds(leaf.roles.as_slice()))?;
        write!(f, "{}|", ShownRatings(&leaf.characteristics))?;
        write!(f, "{}|", ShownIds(leaf.territories.as_slice()))?;
        write!(f, "{}|", ShownIds(leaf.units.as_slice()))?;
        write!(f, "{}|", ShownIds(leaf.required.as_slice()))?;
        write!(f, "{}|", ShownIds(leaf.restricted.as_slice()))?;
        write!(f, "{})", ShownWindow(&leaf.window))
    }
}

#[derive(Drop)]
struct ShownTree<'a>(&'a GroupRow);

impl<'a> Display for ShownTree<'a> {
    fn fmt<W: fmt::Write>(&self, f: &mut fmt::Formatter<W>) -> fmt::Result {
        for node in self.0.nodes.as_slice() {
            write!(f, "{} {:?} {:?};", node.depth, node.kind, node.same)?;
        }
        for leaf in self.0.leaves.as_slice() {
            write!(f, "{}", ShownLeaf(leaf))?;
        }
        Ok(())
    }
}

#[derive(Drop)]
struct ShownGroup<'a>(&'a GroupRow);

impl<'a> Display for ShownGroup<'a> {
    fn fmt<W: fmt::Write>(&self, f: &mut fmt::Formatter<W>) -> fmt::Result {
        let group = self.0;
        write!(f, "{} {} ", group.id.get(), group.name.as_str())?;
        write!(f, "{} {} {} ", group.from.get(), group.to.get(), group.step)?;
        write!(f, "{}", ShownTree(group))
    }
}

#[derive(Drop)]
struct ShownRow<'a>(&'a AnyRow);

impl<'a> Display for ShownRow<'a> {
    fn fmt<W: fmt::Write>(&self, f: &mut fmt::Formatter<W>) -> fmt::Result {
        match self.0 {
            AnyRow::Zone(x) => write!(
                f,
                "zone {} {} {}",
                x.id.get(),
                x.name.as_str(),
                ShownShifts(&x.shifts)
            ),
            AnyRow::Calendar(x) => write!(
                f,
                "calendar {} {} {}",
                x.id.get(),
                x.name.as_str(),
                x.zone.get()
            ),
            AnyRow::Work(x) => write!(
                f,
                "work {} {} {} {} {}",
                x.calendar.get(),
                x.weekday,
                x.from,
                x.to,
                x.capacity
            ),
            AnyRow::Break(x) => write!(
                f,
                "break {} {} {} {}",
                x.calendar.get(),
                x.weekday,
                x.from,
                x.to
            ),
            AnyRow::Day(x) => write!(
                f,
                "day {} {} {} {} {}",
                x.calendar.get(),
                x.day,
                x.from,
                x.to,
                x.capacity
            ),
            AnyRow::Off(x) => write!(
                f,
                "off {} {} {}",
                x.resource.get(),
                x.from.get(),
                x.to.get()
            ),
            AnyRow::Unit(x) => write!(f, "unit {} {}", x.id, x.name.as_str()),
            AnyRow::Site(x) => write!(f, "site {} {}", x.id, x.name.as_str()),
            AnyRow::Role(x) => write!(f, "role {} {}", x.id, x.name.as_str()),
            AnyRow::Characteristic(x) => write!(f, "characteristic {} {}", x.id, x.name.as_str()),
            AnyRow::Territory(x) => write!(f, "territory {} {}", x.id, x.name.as_str()),
            AnyRow::Resource(x) => {
                write!(
                    f,
                    "resource {} {} {:?} ",
                    x.id.get(),
                    x.name.as_str(),
                    x.kind
                )?;
                match &x.calendar {
                    Some(calendar) => write!(f, "{} ", calendar.get())?,
                    None => write!(f, "- ")?,
                }
                write!(f, "{} {}", x.unit.get(), x.site.get())
            }
            AnyRow::HasRole(x) => write!(
                f,
                "has_role {} {} {}",
                x.resource.get(),
                x.what,
                x.rating
            ),
            AnyRow::HasCharacteristic(x) => write!(
                f,
                "has_characteristic {} {} {}",
                x.resource.get(),
                x.what,
                x.rating
            ),
            AnyRow::HasTerritory(x) => write!(
                f,
                "has_territory {} {} {}",
                x.resource.get(),
                x.what,
                x.rating
            ),
            AnyRow::Member(x) => write!(
                f,
                "member {} {} {} {}",
                x.group.get(),
                x.member.get(),
                x.from.get(),
                x.to.get()
            ),
            _ => write!(f, "no row of a body"),
        }
    }
}

#[derive(Drop)]
struct ShownAct<'a>(&'a Act);

impl<'a> Display for ShownAct<'a> {
    fn fmt<W: fmt::Write>(&self, f: &mut fmt::Formatter<W>) -> fmt::Result {
        match self.0 {
            Act::Put(row) => write!(f, "put {}", ShownRow(row)),
            Act::Remove(key) => write!(f, "remove {:?} {} {} {}", key.table, key.a, key.b, key.c),
            Act::PutGroup(group) => write!(f, "put group {}", ShownGroup(group)),
            Act::DropGroup(group) => write!(f, "drop group {}", group.get()),
            Act::BookGroup {
                group,
                start,
                picks,
            } => write!(
                f,
                "book group {} {} {}",
                group.get(),
                start.get(),
                ShownPicks(picks)
            ),
            Act::MoveGroup {
                group,
                start,
                picks,
            } => write!(
                f,
                "move group {} {} {}",
                group.get(),
                start.get(),
                ShownPicks(picks)
            ),
            Act::CancelGroup(group) => write!(f, "cancel group {}", group.get()),
        }
    }
}

#[derive(Drop)]
struct Shown<'a>(&'a Result<Command, BodyError>);

impl<'a> Display for Shown<'a> {
    fn fmt<W: fmt::Write>(&self, f: &mut fmt::Formatter<W>) -> fmt::Result {
        match self.0 {
            Ok(Command::Change(call, act)) => write!(
                f,
                "{} {} {}",
                call.caller.get(),
                call.number.get(),
                ShownAct(act)
            ),
            Ok(Command::Ask(_)) => write!(f, "a question"),
            Err(BodyError::Bad(rule, field)) => write!(f, "{rule:?} {field:?}"),
            Err(BodyError::NoMemory) => write!(f, "no memory"),
        }
    }
}

/// Whether a body of an act with these further fields, by caller 7 with number 1, is read as what is shown so: what it asks for,
/// or its fault as the rule and the field.
pub fn is_shown(alloc: Global, act: &str, fields: &str, text: &str) -> Result<bool, Fail> {
    let body = format!(in alloc; "{{\"act\":\"{act}\",\"caller\":7,\"number\":1{fields}}}")?;
    let read = read_change(alloc, body.as_bytes());
    let shown = format!(in alloc; "{}", Shown(&read))?;
    Ok(shown.as_str() == text)
}
