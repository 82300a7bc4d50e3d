//! The picks of the first leaf, each with what is known of its starts.
ghost use Rattle.std.specs.Prelude.{◌≡◌, ◌+◌, ◌++◌, ◌∷◌, [], map, IfOk};
ghost use Rattle.std.specs.Ordering.{is_lt};
ghost use Rattle.desk_base.specs.search.Order.{position_cmp};
ghost use Rattle.desk_pruned.specs.declared.roots.Next.TheVariants.{Unasked, At, Never};
ghost use Rattle.desk_pruned.specs.Starts.{IsLeastRoot, root_at, is_same, is_passed, unasked_root, forgotten, left};

use crate::children::precedes;
use desk_base::{Items, Minute, NoMemory, ResourceId};
use std::alloc::Global;

/// What is known of the starts that are still to come at which a pick alone is live.
#[derive(Clone, Copy, Debug)]
pub enum Next {
    /// Nothing: the pick was not asked for its next start.
    Unasked,
    /// The least of them.
    At(Minute),
    /// That there is none.
    Never,
}

/// A pick of the first leaf, with its next start.
#[derive(Clone, Copy, Debug)]
pub struct Root {
    pub pick: Option<ResourceId>,
    pub next: Next,
}

/// A first pick at its start.
#[derive(Clone, Copy, Debug)]
pub struct First {
    pub start: Minute,
    pub pick: Option<ResourceId>,
}

/// A row for each choice of the first leaf. None is asked for its start.
pub fn unasked_roots(alloc: Global, choices: &[Option<ResourceId>]) -> Result<Vec<Root>, NoMemory>
    ensures { IfOk result (λ roots. roots.items ≡ map unasked_root choices.now) }
{
    let mut roots = Items::new(alloc);
    for pick in choices {
        roots.push(Root {
            pick: *pick,
            next: Next::Unasked,
        })?;
    }
    Ok(roots.into_vec())
}

fn root_precedes(first: &First, start: Minute, pick: &Option<ResourceId>) -> bool
    ensures { result ≡ is_lt (position_cmp (root_at first.now.start first.now.pick) (root_at start pick.now)) }
{
    first.start.get() < start.get()
        || (first.start.get() == start.get() && precedes(&first.pick, pick))
}

/// The first that was least so far, or this root's where that comes before it.
fn earlier(least: Option<First>, root: &Root) -> Option<First>
    ensures { (roots : _) → IsLeastRoot roots least → IsLeastRoot (roots ++ root.now ∷ []) result }
{
    match root.next {
        Next::At(next) => match least {
            Some(first) => {
                if root_precedes(&first, next, &root.pick) {
                    Some(first)
                } else {
                    Some(First {
                        start: next,
                        pick: root.pick,
                    })
                }
            }
            None => Some(First {
                start: next,
                pick: root.pick,
            }),
        },
        Next::Never => least,
        Next::Unasked => least,
    }
}

/// The least of the next starts that are known, and there the least pick.
pub fn least(roots: &[Root]) -> Option<First>
    ensures { IsLeastRoot roots.now result }
{
    let mut least = None;
    for root in roots {
        least = earlier(least, root);
    }
    least
}

pub fn is_same(first: &Option<ResourceId>, second: &Option<ResourceId>) -> bool
    ensures { result ≡ is_same first.now second.now }
{
    match (first, second) {
        (Some(first), Some(second)) => first.get() == second.get(),
        (None, None) => true,
        (Some(_), None) => false,
        (None, Some(_)) => false,
    }
}

/// The row, of which nothing is known any more where it is that of a pick.
fn forgotten(root: &Root, pick: &Option<ResourceId>) -> Root
    ensures { result ≡ forgotten pick.now root.now }
{
    if is_same(&root.pick, pick) {
        Root {
            pick: root.pick,
            next: Next::Unasked,
        }
    } else {
        *root
    }
}

/// Forgets the start of a pick.
pub fn forget(roots: &mut Vec<Root>, pick: &Option<ResourceId>)
    ensures { roots.new.items ≡ map (forgotten pick.now) roots.old.items }
{
    for root in roots.iter_mut() {
        *root = forgotten(root, pick);
    }
}

fn is_passed(next: &Next, start: Minute) -> bool
    ensures { result ≡ is_passed next.now start }
{
    match next {
        Next::At(next) => next.get() <= start.get(),
        Next::Never => false,
        Next::Unasked => false,
    }
}

/// The row, of which nothing is known any more where its start is not after one.
fn left(root: &Root, start: Minute) -> Root
    ensures { result ≡ left start root.now }
{
    if is_passed(&root.next, start) {
        Root {
            pick: root.pick,
            next: Next::Unasked,
        }
    } else {
        *root
    }
}

/// Forgets the starts up to one.
pub fn leave(roots: &mut Vec<Root>, start: Minute)
    ensures { roots.new.items ≡ map (left start) roots.old.items }
{
    for root in roots.iter_mut() {
        *root = left(root, start);
    }
}
