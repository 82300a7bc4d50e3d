//! Picks laid on a view, and taken up again.
ghost use Rattle.std.specs.Prelude.{◌≡◌, ◌++◌, ◌∷◌, [], length, slice_get, Some, OnOk, OnErr};
ghost use Rattle.desk_feasible.specs.Live.{IsReady, IsPlaced, HasLaid};

use crate::asks::ask_for;
use crate::lives::growing::leaf_at;
use desk_base::{Leaf, Minute, NoMemory, ResourceId};
use desk_load::FreeView;
use desk_need::Case;

/// Lays what one more resource is to do for its leaf.
fn lay_one(
    view: &mut FreeView<'_>,
    case: &Case<'_>,
    leaf: &Leaf,
    start: Minute,
    picks: &[Option<ResourceId>],
    id: ResourceId,
) -> Result<(), NoMemory>
    requires ready { IsReady case.now }
    requires leaf { slice_get case.now.group.leaves (length picks.now) ≡ Some leaf.now }
    requires laid { HasLaid case.now view.old start picks.now }
    requires placed { IsPlaced case.now.tables case.now.group start (picks.now ++ Some id ∷ []) }
    ensures ok { OnOk result (HasLaid case.now view.new start (picks.now ++ Some id ∷ [])) }
    ensures err { OnErr result (HasLaid case.now view.new start picks.now) }
{
    // Read so that its range is known: the leaf does not end after it.
    let _end = case.group().to.get();
    match view.overlay_push(&ask_for(start, leaf, id)) {
        Ok(()) => Ok(()),
        Err(error) => Err(error),
    }
}

/// Lays one more pick on the view, with which the picks are placed. Want of memory leaves the view as it was.
pub fn lay(
    view: &mut FreeView<'_>,
    case: &Case<'_>,
    start: Minute,
    picks: &[Option<ResourceId>],
    pick: &Option<ResourceId>,
) -> Result<(), NoMemory>
    requires ready { IsReady case.now }
    requires laid { HasLaid case.now view.old start picks.now }
    requires placed { IsPlaced case.now.tables case.now.group start (picks.now ++ pick.now ∷ []) }
    ensures ok { OnOk result (HasLaid case.now view.new start (picks.now ++ pick.now ∷ [])) }
    ensures err { OnErr result (HasLaid case.now view.new start picks.now) }
{
    match pick {
        None => Ok(()),
        Some(id) => {
            let leaf = leaf_at(case, picks.len());
            lay_one(view, case, leaf, start, picks, *id)
        }
    }
}

/// Takes the last pick off the view; `picks` are those before it.
pub fn take_up(
    view: &mut FreeView<'_>,
    case: &Case<'_>,
    start: Minute,
    picks: &[Option<ResourceId>],
    pick: &Option<ResourceId>,
)
    requires laid { HasLaid case.now view.old start (picks.now ++ pick.now ∷ []) }
    ensures laid { HasLaid case.now view.new start picks.now }
{
    match pick {
        None => {}
        Some(_) => view.overlay_pop(),
    }
}
