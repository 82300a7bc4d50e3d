//! The pieces in which a booking counts, or why there are none.
ghost use Rattle.std.specs.Prelude.{◌≡◌, ◌<◌, IfOk, IfErr, IfSome, IfNone, IsSome};
ghost use Rattle.desk_base.specs.meaning.Capacity.{resource_of};
ghost use Rattle.desk_base.specs.meaning.Load.{sort_of, crew};
ghost use Rattle.desk_base.specs.rules.Sound.{AreWellFormed};
ghost use Rattle.desk_member.specs.Pieces.{AreItemsOf, IsFilled, IsGap, IsItemsError};

use crate::by_member::ByMember;
use crate::counts::first_gap;
use crate::pieces::{is_crew, load_pieces};
use desk_base::{Ask, Items, Minute, NoMemory, ResourceId, Tables};
use std::alloc::Global;

/// A resource, a time, and the effort that is taken of it at each minute of that time.
#[derive(Clone, Copy, Debug)]
pub struct Item {
    pub resource: ResourceId,
    pub from: Minute,
    pub to: Minute,
    pub effort: u32,
}

/// Why a booking has no pieces.
#[derive(Clone, Copy, Debug)]
pub enum ItemsError {
    /// The crew has no member at this minute, and has one at each minute of the booking before it.
    Empty(Minute),
    /// Memory was not found.
    NoMemory,
}

/// The least minute of the booking at which it is on a crew without a member; `None` where there is none.
#[tactic(auto, using(crate::proofs::MemberRows::keys_rise))]
fn gap_of(alloc: Global, tables: &Tables, ask: &Ask) -> Result<Option<Minute>, NoMemory>
    requires well_formed { AreWellFormed tables.now }
    requires window { ask.now.window.from < ask.now.window.to }
    ensures some { IfOk result (λ gap. IfSome gap (λ m. (sort_of tables.now ask.now.resource ≡ crew) × IsGap tables.now ask.now.resource ask.now.window m)) }
    ensures none { IfOk result (λ gap. IfNone gap (sort_of tables.now ask.now.resource ≡ crew → IsFilled tables.now ask.now.resource ask.now.window)) }
{
    if !is_crew(tables, ask.resource) {
        return Ok(None);
    }
    let gap = first_gap(alloc, tables, ask.resource, ask.window)?;
    Ok(gap)
}

/// The pieces, by memberships that are brought into the order of their members.
fn items_of(alloc: Global, tables: &Tables, ask: &Ask) -> Result<Items<Item>, NoMemory>
    requires well_formed { AreWellFormed tables.now }
    requires there { IsSome (resource_of tables.now ask.now.resource) }
    requires window { ask.now.window.from < ask.now.window.to }
    ensures { IfOk result (λ items. AreItemsOf tables.now ask.now items) }
{
    let by_member = ByMember::of(alloc, tables)?;
    load_pieces(alloc, tables, &by_member, ask)
}

/// The pieces in which a booking counts. A booking on a crew has them only where the crew has a member at each of its minutes.
/// It brings the memberships into the order of their members first: who has them so calls `load_pieces`.
pub fn load_items(alloc: Global, tables: &Tables, ask: &Ask) -> Result<Items<Item>, ItemsError>
    requires well_formed { AreWellFormed tables.now }
    requires there { IsSome (resource_of tables.now ask.now.resource) }
    requires window { ask.now.window.from < ask.now.window.to }
    ensures items { IfOk result (λ items. AreItemsOf tables.now ask.now items) }
    ensures filled { IfOk result (λ items. sort_of tables.now ask.now.resource ≡ crew → IsFilled tables.now ask.now.resource ask.now.window) }
    ensures err { IfErr result (IsItemsError tables.now ask.now) }
{
    let Ok(gap) = gap_of(alloc, tables, ask) else {
        return Err(ItemsError::NoMemory);
    };
    if let Some(minute) = gap {
        return Err(ItemsError::Empty(minute));
    }
    match items_of(alloc, tables, ask) {
        Ok(items) => Ok(items),
        Err(NoMemory) => Err(ItemsError::NoMemory),
    }
}
