//! What comes to resources through a membership: to a pool the weight of its member, and to a member of a crew, and to the pools
//! that it is in, the weight of the crew. So no booking is looked at.
ghost use Rattle.std.specs.Prelude.{◌≡◌, ◌==◌, ℕ, false, IfOk, OnOk, pos, if◌then◌else◌};
ghost use Rattle.desk_base.specs.meaning.Time.{covers};
ghost use Rattle.desk_base.specs.rules.Sound.{AreWellFormed};
ghost use Rattle.desk_member.specs.Memberships.{AreMemberships};
ghost use Rattle.desk_member.specs.Pieces.{item_at, taken};
ghost use Rattle.desk_load.specs.Changed.{IsOrdered, parts_of, before_of};
ghost use Rattle.desk_load.specs.Links.{times, signed, item_through, AreLinks};
ghost use Rattle.desk_load.specs.Turns.{value_under, AreWhole, AreRaised};

use crate::changes::follow::Stop;
use crate::changes::opened::{OpenIndex, place_of};
use crate::changes::shared::shared;
use crate::changes::turns::Turn;
use crate::view::sorts::{Sort, sort_of};
use crate::weights::Weight;
use desk_base::{Ask, Items, MemberRow, NoMemory, ResourceId, Tables, Window};
use desk_member::{ByMember, Item, load_pieces};
use std::alloc::Global;

/// Whose weight comes through a membership, and to which resources when. Each item has the effort 1.
#[derive(Drop)]
pub(crate) struct Links {
    pub(crate) source: ResourceId,
    pub(crate) items: Items<Item>,
}

/// The one link of a membership of a pool.
fn link_to_pool(alloc: Global, row: &MemberRow) -> Result<Items<Item>, NoMemory>
    ensures { IfOk result (λ items. (r m : ℕ) → taken items r m ≡ item_at r m (item_through row.now)) }
{
    let mut items = Items::new(alloc);
    items.push(Item {
        resource: row.group,
        from: row.from,
        to: row.to,
        effort: 1,
    })?;
    Ok(items)
}

/// The links of a membership, where the member is plain, and the membership one of a crew or a pool and not empty.
#[tactic(auto, using(crate::proofs::Numbers::keys_climb))]
pub(crate) fn links_of(
    alloc: Global,
    tables: &Tables,
    members: &ByMember,
    row: &MemberRow,
) -> Result<Links, Stop>
    requires well_formed { AreWellFormed tables.now }
    requires memberships { AreMemberships tables.now members.now }
    ensures { IfOk result (AreLinks tables.now row.now) }
{
    if row.to.get() <= row.from.get() {
        return Err(Stop::Unfollowed);
    }
    let Sort::Plain = sort_of(tables, row.member) else {
        return Err(Stop::Unfollowed);
    };
    match sort_of(tables, row.group) {
        Sort::Pool => match link_to_pool(alloc, row) {
            Ok(items) => Ok(Links {
                source: row.member,
                items,
            }),
            Err(NoMemory) => Err(Stop::NoMemory),
        },
        Sort::Crew => {
            let ask = Ask {
                resource: row.member,
                window: Window {
                    from: row.from,
                    to: row.to,
                },
                effort: 1,
            };
            match load_pieces(alloc, tables, members, &ask) {
                Ok(items) => Ok(Links {
                    source: row.group,
                    items,
                }),
                Err(NoMemory) => Err(Stop::NoMemory),
            }
        }
        _ => Err(Stop::Unfollowed),
    }
}

impl OpenIndex {
    /// Adds the weight of the source to that of the resource of one link, for its time, or takes it away.
    fn add_link(
        &mut self,
        alloc: Global,
        turn: Turn,
        source: ResourceId,
        item: &Item,
    ) -> Result<(), NoMemory>
        requires order { IsOrdered (parts_of self.old) }
        requires whole { AreWhole self.old.weights.items }
        ensures one { OnOk result (item.now.effort ≡ 1) }
        ensures other { OnOk result ((item.now.resource == source) ≡ false) }
        ensures weights { OnOk result (AreRaised (λ r m. if item.now.resource == r then signed turn (if covers item.now.from item.now.to m then value_under source m self.old.weights.items else pos 0) else pos 0) self.old.weights.items self.new.weights.items) }
        ensures standing { OnOk result (self.new.standing.items ≡ self.old.standing.items) }
        ensures booked { OnOk result (self.new.booked.items ≡ self.old.booked.items) }
        ensures members { OnOk result (self.new.members ≡ self.old.members) }
        ensures before { before_of self.new ≡ before_of self.old }
    {
        let resource = item.resource;
        if item.effort != 1 || resource.get() == source.get() {
            return Err(NoMemory);
        }
        let Some(from) = place_of(self.weights.as_slice(), source.get()) else {
            return Err(NoMemory);
        };
        let Some(at) = place_of(self.weights.as_slice(), resource.get()) else {
            return Err(NoMemory);
        };
        let target = &self.weights[at].weight;
        let weight = shared(
            alloc,
            turn,
            target,
            &self.weights[from].weight,
            item.from,
            item.to,
        )?;
        self.put_weight(at, Weight { resource, weight })?;
        Ok(())
    }

    /// Adds the weight of the source to those of the resources of the links, or takes it away.
    pub(crate) fn add_links(
        &mut self,
        alloc: Global,
        turn: Turn,
        source: ResourceId,
        items: &[Item],
    ) -> Result<(), NoMemory>
        requires order { IsOrdered (parts_of self.old) }
        requires whole { AreWhole self.old.weights.items }
        ensures apart { OnOk result ((m : ℕ) → taken items.now source m ≡ 0) }
        ensures weights { OnOk result (AreRaised (λ r m. times (taken items.now r m) (signed turn (value_under source m self.old.weights.items))) self.old.weights.items self.new.weights.items) }
        ensures standing { OnOk result (self.new.standing.items ≡ self.old.standing.items) }
        ensures booked { OnOk result (self.new.booked.items ≡ self.old.booked.items) }
        ensures members { OnOk result (self.new.members ≡ self.old.members) }
        ensures before { before_of self.new ≡ before_of self.old }
    {
        for item in items {
            self.add_link(alloc, turn, source, item)?;
        }
        Ok(())
    }
}
