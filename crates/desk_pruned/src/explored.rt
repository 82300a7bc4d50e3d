//! What a search goes over, as it asks for it.
//!
//! A search knows nothing of capacity, bookings or eligibility. It lays picks on a view, one leaf after the other, and asks two
//! questions, each of which counts as one step: whether one more pick is live with those that are laid, and at which start a first
//! pick is live next.
ghost use Rattle.std.specs.Prelude.{◌≡◌, ◌≤◌, ◌+◌, ◌++◌, ◌∷◌, [], ◌↔◌, ℕ, List, Option, length, Contains, IsTrue, IfOk, OnOk, OnErr};
ghost use Rattle.desk_pruned.specs.Ways.{Ways, IsLiveAt, IsFirstStart, cost};

use desk_base::{Minute, NoMemory, ResourceId, Steps};
use std::sync::ledger::Ledger;

/// What is live: the space that a search goes over, with a view `V` on which the picks so far are laid.
///
/// A position is a start and picks for the first leaves; `ways` has the list of the live ones. The search asks only for picks that
/// `choices` offers, and lays and takes off the last pick alone, so the view works like a stack. A ledger `L` counts the steps in
/// proofs; at run time nothing is counted.
pub trait Explored<V, L: Ledger> {
    ghost use Rattle.std.specs.Prelude.{ℕ, List, Option};
    ghost use Rattle.desk_pruned.specs.Ways.{Ways};

    // which positions are live, what each leaf may have as its pick, and how many steps a search may make of it
    ghost ways: { Self → Ways };

    // the view has these picks laid on it, from this start on
    ghost holds: { Self → V → ℕ → List (Option ℕ) → Type 0 };

    /// A minute before which no live position starts. Where it is the first start of all, a first page within that start asks few picks.
    fn earliest(&self) -> Minute
        ensures { result ≡ (ways self.now).earliest };

    /// How many picks a full position has.
    fn leaves(&self) -> usize
        ensures { result ≡ (ways self.now).leaves };

    /// What the leaf of this number may have as its pick, rising: resources, and last `None`. Nothing where there is no such leaf.
    fn choices(&self, leaf: usize) -> &[Option<ResourceId>]
        ensures { result.now ≡ (ways self.now).choices leaf };

    /// Whether the picks, which are live and laid, are live with one more. This is one step, and none for a leaf that is left out.
    fn can_push(
        &self,
        view: &V,
        start: Minute,
        picks: &[Option<ResourceId>],
        pick: &Option<ResourceId>,
        steps: &mut Steps<L>,
    ) -> Result<bool, NoMemory>
        requires held { holds self.now view.now start picks.now }
        requires live { IsLiveAt (ways self.now) start picks.now }
        requires offered { Contains ((ways self.now).choices (length picks.now)) pick.now }
        ensures live { IfOk result (λ live. IsTrue live ↔ IsLiveAt (ways self.now) start (picks.now ++ pick.now ∷ [])) }
        ensures steps { steps.new ≤ steps.old + cost pick.now };

    /// The least start, not below a minute, at which a pick of the first leaf is live alone; `None` where there is none. Nothing is
    /// laid on the view. This is one step, and none for a leaf that is left out.
    fn first_start(
        &self,
        view: &V,
        pick: &Option<ResourceId>,
        from: u32,
        steps: &mut Steps<L>,
    ) -> Result<Option<Minute>, NoMemory>
        requires held { (s : ℕ) → holds self.now view.now s [] }
        requires offered { Contains ((ways self.now).choices 0) pick.now }
        ensures first { IfOk result (IsFirstStart (ways self.now) pick.now from) }
        ensures steps { steps.new ≤ steps.old + cost pick.now };

    /// Lays one more pick on the view, which is live with those that are laid. Where memory is not found, the view is as before.
    fn push(
        &self,
        view: &mut V,
        start: Minute,
        picks: &[Option<ResourceId>],
        pick: &Option<ResourceId>,
    ) -> Result<(), NoMemory>
        requires held { holds self.now view.old start picks.now }
        requires live { IsLiveAt (ways self.now) start (picks.now ++ pick.now ∷ []) }
        ensures ok { OnOk result (holds self.now view.new start (picks.now ++ pick.now ∷ [])) }
        ensures err { OnErr result (holds self.now view.new start picks.now) };

    /// Takes the last pick off the view; `picks` are those before it.
    fn pop(
        &self,
        view: &mut V,
        start: Minute,
        picks: &[Option<ResourceId>],
        pick: &Option<ResourceId>,
    )
        requires held { holds self.now view.old start (picks.now ++ pick.now ∷ []) }
        ensures held { holds self.now view.new start picks.now };

    // where nothing is laid, the start is none of the view's.
    ghost holds_nothing: { (x : Self) (view : V) (s t : ℕ) → holds x view s [] → holds x view t [] };
}
