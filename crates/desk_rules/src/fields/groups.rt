//! The field rules of requirement groups and of their leaves.
ghost use Rattle.std.specs.Prelude.{◌≡◌, ◌-◌, ◌==◌, ◌&&◌, nat_le, nat_lt, map, true};
ghost use Rattle.std.specs.List.{list_all, list_any};
ghost use Rattle.std.specs.Option.{option_map_or};
ghost use Rattle.desk_base.specs.rules.Fields.{are_distinct, group_rules, is_list, is_within_range, join_rules, leaf_rules};
ghost use Rattle.desk_base.specs.rules.Limits.{rating_limit, window_limit};
ghost use Rattle.desk_base.specs.rules.Rules.{first_broken};
ghost use Rattle.desk_rules.specs.Leaves.{last_rules, list_rules, number_rules};

use crate::fields::names::{is_name, is_within_range};
use desk_base::limits::{
    DURATION_LIMIT, EFFORT_LIMIT, LEAST_STEP, LIST_LIMIT, MINUTES_A_DAY, OFFSET_LIMIT,
    RATING_LIMIT, WINDOW_LIMIT,
};
use desk_base::{CharacteristicId, Field, GroupRow, Id, Kind, Leaf, Window};

/// What a list of a leaf has: something that is known by a number.
trait Numbered {
    ghost use Rattle.std.specs.Prelude.{ℕ};

    ghost number: { Self → ℕ };

    /// The number.
    fn number_of(&self) -> u32
        ensures { result ≡ number self.now };
}

impl<K> Numbered for Id<K> {
    ghost number = { λ x. x };

    fn number_of(&self) -> u32 {
        self.get()
    }
}

impl Numbered for Kind {
    ghost use Rattle.desk_base.specs.meaning.Eligible.{kind_number};

    ghost number = { kind_number };

    fn number_of(&self) -> u32 {
        u32::from(self.number())
    }
}

impl Numbered for (CharacteristicId, u8) {
    ghost number = { λ x. x.0 };

    fn number_of(&self) -> u32 {
        self.0.get()
    }
}

fn is_among<T: Numbered>(number: u32, items: &[T]) -> bool
    ensures { result ≡ list_any (λ y. y == number) (map T.number items.now) }
{
    match items {
        [] => false,
        [first, others @ ..] => first.number_of() == number || is_among(number, others),
    }
}

fn are_distinct<T: Numbered>(items: &[T]) -> bool
    ensures { result ≡ are_distinct (map T.number items.now) }
{
    match items {
        [] => true,
        [first, others @ ..] => !is_among(first.number_of(), others) && are_distinct(others),
    }
}

/// Whether there are at most 16, and none twice.
fn is_list<T: Numbered>(items: &[T]) -> bool
    ensures { result ≡ is_list (map T.number items.now) }
{
    items.len() <= LIST_LIMIT && are_distinct(items)
}

fn are_ratings(items: &[(CharacteristicId, u8)]) -> bool
    ensures { result ≡ list_all (λ c. is_within_range 1 rating_limit c.1) items.now }
{
    items
        .iter()
        .all(|item| 1 <= item.1 && item.1 <= RATING_LIMIT)
}

fn is_window(window: &Option<Window>) -> bool
    ensures { result ≡ option_map_or (λ w. nat_lt w.from w.to) window.now true }
{
    match window {
        Some(window) => window.from.get() < window.to.get(),
        None => true,
    }
}

/// The first rule on the numbers of a leaf that it breaks.
fn broken_number(leaf: &Leaf) -> Option<Field>
    ensures { result ≡ first_broken (number_rules leaf.now) }
{
    if !is_within_range(1, DURATION_LIMIT, leaf.duration) {
        Some(Field::Duration)
    } else if OFFSET_LIMIT < leaf.offset {
        Some(Field::Offset)
    } else if !is_within_range(1, EFFORT_LIMIT, leaf.effort) {
        Some(Field::Effort)
    } else {
        None
    }
}

/// The first of the lists of a leaf that is too long or has something twice.
fn broken_list(leaf: &Leaf) -> Option<Field>
    ensures { result ≡ first_broken (list_rules leaf.now) }
{
    if !is_list(leaf.kinds.as_slice()) {
        Some(Field::Kinds)
    } else if !is_list(leaf.roles.as_slice()) {
        Some(Field::Roles)
    } else if !is_list(leaf.characteristics.as_slice()) {
        Some(Field::Characteristics)
    } else if !is_list(leaf.territories.as_slice()) {
        Some(Field::Territories)
    } else if !is_list(leaf.units.as_slice()) {
        Some(Field::Units)
    } else if !is_list(leaf.required.as_slice()) {
        Some(Field::Required)
    } else if !is_list(leaf.restricted.as_slice()) {
        Some(Field::Restricted)
    } else {
        None
    }
}

/// The first rule on the ratings and the window of a leaf that it breaks.
fn broken_last(leaf: &Leaf) -> Option<Field>
    ensures { result ≡ first_broken (last_rules leaf.now) }
{
    if !are_ratings(leaf.characteristics.as_slice()) {
        Some(Field::Rating)
    } else if !is_window(&leaf.window) {
        Some(Field::Window)
    } else {
        None
    }
}

/// The first rule that a leaf breaks.
#[tactic(auto, using(crate::proofs::Tests::leaf_parts))]
fn broken_leaf(leaf: &Leaf) -> Option<Field>
    ensures { result ≡ first_broken (leaf_rules leaf.now) }
{
    match broken_number(leaf) {
        Some(field) => Some(field),
        None => match broken_list(leaf) {
            Some(field) => Some(field),
            None => broken_last(leaf),
        },
    }
}

/// The first rule that the first of the leaves that breaks one breaks.
#[tactic(auto, using(crate::proofs::Tests::broken_append))]
fn broken_leaves(leaves: &[Leaf]) -> Option<Field>
    ensures { result ≡ first_broken (join_rules leaf_rules leaves.now) }
{
    match leaves {
        [] => None,
        [first, others @ ..] => match broken_leaf(first) {
            Some(field) => Some(field),
            None => broken_leaves(others),
        },
    }
}

/// The window begins before it ends, and is not too long.
fn has_window(group: &GroupRow) -> bool
    ensures { result ≡ (nat_lt group.now.from group.now.to && nat_le (group.now.to - group.now.from) window_limit) }
{
    let from = group.from.get();
    let to = group.to.get();
    from < to && to - from <= WINDOW_LIMIT
}

/// The first rule that a group or one of its leaves breaks.
pub fn broken_group(group: &GroupRow) -> Option<Field>
    ensures { result ≡ first_broken (group_rules group.now) }
{
    if !is_name(&group.name) {
        Some(Field::Name)
    } else if !has_window(group) {
        Some(Field::To)
    } else if !is_within_range(u32::from(LEAST_STEP), MINUTES_A_DAY, u32::from(group.step)) {
        Some(Field::Step)
    } else {
        broken_leaves(group.leaves.as_slice())
    }
}
