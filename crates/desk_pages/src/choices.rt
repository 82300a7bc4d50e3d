//! What each leaf may have as its pick.
ghost use Rattle.std.specs.Prelude.{◌≡◌, ◌<◌, ◌++◌, ◌∷◌, [], map, length, slice_get, Option, None, IfOk, IfSome};
ghost use Rattle.desk_pages.specs.Spaces.{AreChoices, AreChoicesOf};

use desk_base::{Items, NoMemory, Picks, ResourceId};
use desk_need::Case;
use std::alloc::{AllocError, Global};

/// The resources as picks.
fn chosen(alloc: Global, candidates: &[ResourceId]) -> Result<Vec<Option<ResourceId>>, AllocError>
    ensures { IfOk result (λ v. v.items ≡ map Option.Some candidates.now) }
{
    candidates.iter().map(|id| Some(*id)).collect(alloc)
}

/// The resources as picks, and last the pick of a leaf that is left out.
fn with_none(
    alloc: Global,
    candidates: &[ResourceId],
) -> Result<Vec<Option<ResourceId>>, AllocError>
    ensures { IfOk result (λ v. v.items ≡ map Option.Some candidates.now ++ None ∷ []) }
{
    let mut picks = chosen(alloc, candidates)?;
    picks.push(None)?;
    Ok(picks)
}

/// What one leaf may have as its pick.
fn choices_of(alloc: Global, case: &Case<'_>, leaf: usize) -> Result<Picks, NoMemory>
    requires { leaf < length case.now.group.leaves }
    ensures { IfOk result (λ v. IfSome (slice_get case.now.group.leaves leaf) (λ l. AreChoices case.now.tables l v)) }
{
    let picks = with_none(alloc, case.candidates(leaf))?;
    Ok(Items::from_vec(picks))
}

/// What each leaf may have as its pick.
pub fn all_choices(alloc: Global, case: &Case<'_>) -> Result<Vec<Picks>, NoMemory>
    ensures { IfOk result (λ v. AreChoicesOf case.now.tables case.now.group.leaves (length case.now.group.leaves) v.items) }
{
    let mut all = Items::new(alloc);
    for leaf in 0..case.group().leaves.len() {
        all.push(choices_of(alloc, case, leaf)?)?;
    }
    Ok(all.into_vec())
}
