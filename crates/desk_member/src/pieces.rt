//! A booking, cut into the pieces in which it counts.
//!
//! A booking on a plain resource counts on it and on the pools that it is in. A booking on a crew counts on the crew, and on
//! each member as one on that member for the time of its membership. A booking on a pool counts on the pool alone.
ghost use Rattle.std.specs.Prelude.{◌≡◌, ◌+◌, ◌<◌, ◌≤◌, ◌↔◌, ℕ, IfOk, IfSome, IfNone, OnOk, IsSome, IsTrue, option_map, All};
ghost use Rattle.desk_base.specs.meaning.Capacity.{resource_of};
ghost use Rattle.desk_base.specs.meaning.Load.{sort_of, plain, crew, pool, load};
ghost use Rattle.desk_base.specs.rows.Lookups.{KeysRise};
ghost use Rattle.desk_base.specs.rules.Sound.{AreWellFormed};
ghost use Rattle.desk_member.specs.Memberships.{AreMemberships};
ghost use Rattle.desk_member.specs.Pieces.{AreItemsOf, taken};
ghost use Rattle.desk_member.specs.Parts.{part_in, ask_of_item, pool_share, crew_share, KeepsItems};

use crate::by_member::ByMember;
use crate::items::Item;
use crate::spans::{earlier, later};
use desk_base::{Ask, Items, Kind, MemberRow, NoMemory, ResourceId, Tables};
use std::alloc::Global;

/// The kind of a resource, if it is there.
fn kind_of(tables: &Tables, id: ResourceId) -> Option<Kind>
    requires { KeysRise tables.now }
    ensures { result ≡ option_map (λ x. x.kind) (resource_of tables.now id) }
{
    match tables.resource(id) {
        Some(row) => Some(row.kind),
        None => None,
    }
}

/// Whether the resource is a crew.
pub(crate) fn is_crew(tables: &Tables, id: ResourceId) -> bool
    requires { KeysRise tables.now }
    ensures { IsTrue result ↔ (sort_of tables.now id ≡ crew) }
{
    matches!(kind_of(tables, id), Some(Kind::Crew))
}

/// Whether the resource is a pool.
fn is_pool(tables: &Tables, id: ResourceId) -> bool
    requires { KeysRise tables.now }
    ensures { IsTrue result ↔ (sort_of tables.now id ≡ pool) }
{
    matches!(kind_of(tables, id), Some(Kind::Pool))
}

/// What of a piece lies in a membership, as a piece of another resource; `None` where nothing does.
fn part_in(piece: &Item, row: &MemberRow, resource: ResourceId) -> Option<Item>
    ensures none { IfNone result ((part_in piece.now row.now resource).to ≤ (part_in piece.now row.now resource).from) }
    ensures some { IfSome result (λ i. i ≡ part_in piece.now row.now resource) }
    ensures not_empty { IfSome result (λ i. i.from < i.to) }
{
    let from = later(piece.from, row.from);
    let to = earlier(piece.to, row.to);
    if from.get() < to.get() {
        Some(Item {
            resource,
            from,
            to,
            effort: piece.effort,
        })
    } else {
        None
    }
}

/// Adds what of a piece counts through one membership of its resource: nothing where that is no membership of a pool.
#[tactic(auto, using(crate::proofs::MemberRows::keys_rise))]
fn add_pool(
    items: &mut Items<Item>,
    tables: &Tables,
    row: &MemberRow,
    piece: &Item,
) -> Result<(), NoMemory>
    requires { AreWellFormed tables.now }
    ensures each { OnOk result (KeepsItems tables.now piece.now items.old items.new) }
    ensures sums { OnOk result ((r m : ℕ) → taken items.new r m ≡ taken items.old r m + pool_share tables.now piece.now r m row.now) }
{
    if !is_pool(tables, row.group) {
        return Ok(());
    }
    match part_in(piece, row, row.group) {
        Some(part) => items.push(part),
        None => Ok(()),
    }
}

/// Adds a piece on a plain resource, and what of it counts on the pools that the resource is in.
fn add_plain(
    items: &mut Items<Item>,
    tables: &Tables,
    by_member: &ByMember,
    piece: &Item,
) -> Result<(), NoMemory>
    requires well_formed { AreWellFormed tables.now }
    requires memberships { AreMemberships tables.now by_member.now }
    requires plain { sort_of tables.now piece.now.resource ≡ plain }
    ensures each { OnOk result (KeepsItems tables.now piece.now items.old items.new) }
    ensures sums { OnOk result ((r m : ℕ) → taken items.new r m ≡ taken items.old r m + load tables.now r m (ask_of_item piece.now)) }
{
    items.push(*piece)?;
    for row in by_member.of_member(piece.resource) {
        add_pool(items, tables, row, piece)?;
    }
    Ok(())
}

/// Adds what of a piece on a crew counts through one membership of the crew, as a piece on the member.
fn add_member(
    items: &mut Items<Item>,
    tables: &Tables,
    by_member: &ByMember,
    row: &MemberRow,
    piece: &Item,
) -> Result<(), NoMemory>
    requires well_formed { AreWellFormed tables.now }
    requires memberships { AreMemberships tables.now by_member.now }
    requires plain { sort_of tables.now row.now.member ≡ plain }
    ensures each { OnOk result (KeepsItems tables.now piece.now items.old items.new) }
    ensures sums { OnOk result ((r m : ℕ) → taken items.new r m ≡ taken items.old r m + crew_share tables.now piece.now r m row.now) }
{
    match part_in(piece, row, row.member) {
        Some(part) => add_plain(items, tables, by_member, &part),
        None => Ok(()),
    }
}

/// Adds a piece on a crew, and what of it counts on its members and on the pools that these are in.
#[tactic(auto, using(crate::proofs::MemberRows::keys_rise))]
fn add_crew(
    items: &mut Items<Item>,
    tables: &Tables,
    by_member: &ByMember,
    piece: &Item,
) -> Result<(), NoMemory>
    requires well_formed { AreWellFormed tables.now }
    requires memberships { AreMemberships tables.now by_member.now }
    requires crew { sort_of tables.now piece.now.resource ≡ crew }
    ensures each { OnOk result (KeepsItems tables.now piece.now items.old items.new) }
    ensures sums { OnOk result ((r m : ℕ) → taken items.new r m ≡ taken items.old r m + load tables.now r m (ask_of_item piece.now)) }
{
    items.push(*piece)?;
    for row in tables.memberships_of(piece.resource) {
        add_member(items, tables, by_member, row, piece)?;
    }
    Ok(())
}

/// Adds a piece, and what of it counts on other resources.
#[tactic(auto, using(crate::proofs::MemberRows::keys_rise))]
fn add_piece(
    items: &mut Items<Item>,
    tables: &Tables,
    by_member: &ByMember,
    piece: &Item,
) -> Result<(), NoMemory>
    requires well_formed { AreWellFormed tables.now }
    requires memberships { AreMemberships tables.now by_member.now }
    requires there { IsSome (resource_of tables.now piece.now.resource) }
    ensures each { OnOk result (KeepsItems tables.now piece.now items.old items.new) }
    ensures sums { OnOk result ((r m : ℕ) → taken items.new r m ≡ taken items.old r m + load tables.now r m (ask_of_item piece.now)) }
{
    if is_crew(tables, piece.resource) {
        return add_crew(items, tables, by_member, piece);
    }
    if is_pool(tables, piece.resource) {
        return items.push(*piece);
    }
    add_plain(items, tables, by_member, piece)
}

/// The pieces in which a booking counts. Only the memberships of its resource and of that resource's members are looked at.
pub fn load_pieces(
    alloc: Global,
    tables: &Tables,
    by_member: &ByMember,
    ask: &Ask,
) -> Result<Items<Item>, NoMemory>
    requires well_formed { AreWellFormed tables.now }
    requires memberships { AreMemberships tables.now by_member.now }
    requires there { IsSome (resource_of tables.now ask.now.resource) }
    requires window { ask.now.window.from < ask.now.window.to }
    ensures { IfOk result (λ items. AreItemsOf tables.now ask.now items) }
{
    let mut items = Items::new(alloc);
    let whole = Item {
        resource: ask.resource,
        from: ask.window.from,
        to: ask.window.to,
        effort: ask.effort,
    };
    add_piece(&mut items, tables, by_member, &whole)?;
    Ok(items)
}
