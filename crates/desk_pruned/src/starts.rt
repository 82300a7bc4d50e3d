//! On from one start to the next. A pick of the first leaf is asked for its start when the search comes to it.
ghost use Rattle.std.specs.Prelude.{◌≡◌, ◌≤◌, ◌+◌, [], Some, None, Contains, false, ◌↔◌, IsTrue, IfOk};
ghost use Rattle.desk_pruned.specs.declared.roots.Next.TheVariants.{Unasked, At, Never};
ghost use Rattle.desk_pruned.specs.Ways.{IsSound, IsNextPick, Comes};
ghost use Rattle.desk_pruned.specs.Cuts.{Cut, cut_at, IsCutBefore};
ghost use Rattle.desk_pruned.specs.Costs.{beside};
ghost use Rattle.desk_pruned.specs.Starts.{AreRoots, IsKnown, IsFirstRoot, low, is_unasked, asking, unasked};
ghost use Rattle.desk_pruned.specs.Counts.{later};
ghost use Rattle.desk_pruned.specs.Trails.{HasGone};

use crate::children::comes;
use crate::explored::Explored;
use crate::roots::{First, Next, Root, forget, least, leave};
use crate::trail::{Trail, push};
use desk_base::{Minute, NoMemory, ResourceId, Steps};
use std::sync::ledger::Ledger;

/// The least start at which the pick is still to come, where those up to one were tried at a start.
fn low(start: Minute, tried: &Option<Option<ResourceId>>, pick: &Option<ResourceId>) -> u32
    ensures { result ≡ low start tried.now pick.now }
{
    if comes(tried, pick) {
        start.get()
    } else {
        start.get() + 1
    }
}

fn is_unasked(next: &Next) -> bool
    ensures { result ≡ is_unasked next.now }
{
    match next {
        Next::Unasked => true,
        Next::At(_) => false,
        Next::Never => false,
    }
}

/// The row with its next start, which is asked for where it is not known.
fn asked<S: Explored<V, L>, V, L: Ledger>(
    space: &S,
    view: &V,
    root: &Root,
    start: Minute,
    tried: &Option<Option<ResourceId>>,
    steps: &mut Steps<L>,
) -> Result<Root, NoMemory>
    requires nothing { (s : _) → S.holds space.now view.now s [] }
    requires offered { Contains ((S.ways space.now).choices 0) root.now.pick }
    ensures pick { IfOk result (λ new. new.pick ≡ root.now.pick) }
    ensures known { IfOk result (λ new. IsKnown (S.ways space.now) (cut_at start [] tried.now) root.now.pick root.now.next → IsKnown (S.ways space.now) (cut_at start [] tried.now) new.pick new.next) }
    ensures asked { IfOk result (λ new. is_unasked new.next ≡ false) }
    ensures steps { IfOk result (λ new. steps.new + asking new ≤ steps.old + asking root.now) }
{
    if !is_unasked(&root.next) {
        return Ok(*root);
    }
    let first = space.first_start(view, &root.pick, low(start, tried, &root.pick), steps)?;
    let next = match first {
        Some(first) => Next::At(first),
        None => Next::Never,
    };
    Ok(Root {
        pick: root.pick,
        next,
    })
}

/// The same for a pick after one. Others stay as they are.
fn asked_after<S: Explored<V, L>, V, L: Ledger>(
    space: &S,
    view: &V,
    root: &Root,
    start: Minute,
    tried: &Option<Option<ResourceId>>,
    steps: &mut Steps<L>,
) -> Result<Root, NoMemory>
    requires nothing { (s : _) → S.holds space.now view.now s [] }
    requires offered { Contains ((S.ways space.now).choices 0) root.now.pick }
    ensures pick { IfOk result (λ new. new.pick ≡ root.now.pick) }
    ensures known { IfOk result (λ new. IsKnown (S.ways space.now) (cut_at start [] tried.now) root.now.pick root.now.next → IsKnown (S.ways space.now) (cut_at start [] tried.now) new.pick new.next) }
    ensures asked { IfOk result (λ new. Comes tried.now root.now.pick → is_unasked new.next ≡ false) }
    ensures steps { IfOk result (λ new. steps.new + asking new ≤ steps.old + asking root.now) }
{
    if comes(tried, &root.pick) {
        let new = asked(space, view, root, start, tried, steps)?;
        return Ok(new);
    }
    Ok(*root)
}

fn is_at(next: &Next, start: Minute) -> bool
    ensures { IsTrue result ↔ (next.now ≡ At start) }
{
    match next {
        Next::At(next) => next.get() == start.get(),
        Next::Never => false,
        Next::Unasked => false,
    }
}

fn is_here(root: &Root, start: Minute, tried: &Option<Option<ResourceId>>) -> bool
    ensures { IsTrue result ↔ (Comes tried.now root.now.pick × (root.now.next ≡ At start)) }
{
    comes(tried, &root.pick) && is_at(&root.next, start)
}

/// The first of the picks after one that is live at a start. Those behind it are not asked.
fn next_here<S: Explored<V, L>, V, L: Ledger>(
    space: &S,
    view: &V,
    roots: &mut Vec<Root>,
    start: Minute,
    tried: &Option<Option<ResourceId>>,
    steps: &mut Steps<L>,
) -> Result<Option<Option<ResourceId>>, NoMemory>
    requires sound { IsSound (S.ways space.now) }
    requires nothing { (s : _) → S.holds space.now view.now s [] }
    requires roots { AreRoots (S.ways space.now) (cut_at start [] tried.now) roots.old.items }
    ensures roots { IfOk result (λ _. AreRoots (S.ways space.now) (cut_at start [] tried.now) roots.new.items) }
    ensures next { IfOk result (IsNextPick (S.ways space.now) start [] tried.now) }
    ensures steps { IfOk result (λ _. steps.new + unasked roots.new.items ≤ steps.old + unasked roots.old.items) }
{
    for root in roots.iter_mut() {
        *root = asked_after(space, view, root, start, tried, steps)?;
        if is_here(root, start, tried) {
            return Ok(Some(root.pick));
        }
    }
    Ok(None)
}

/// Asks for each start that is not known.
fn ask_all<S: Explored<V, L>, V, L: Ledger>(
    space: &S,
    view: &V,
    roots: &mut Vec<Root>,
    start: Minute,
    tried: &Option<Option<ResourceId>>,
    steps: &mut Steps<L>,
) -> Result<(), NoMemory>
    requires nothing { (s : _) → S.holds space.now view.now s [] }
    requires roots { AreRoots (S.ways space.now) (cut_at start [] tried.now) roots.old.items }
    ensures roots { IfOk result (λ _. AreRoots (S.ways space.now) (cut_at start [] tried.now) roots.new.items) }
    ensures asked { IfOk result (λ _. (r : _) → Contains roots.new.items r → is_unasked r.next ≡ false) }
    ensures steps { IfOk result (λ _. steps.new + unasked roots.new.items ≤ steps.old + unasked roots.old.items) }
{
    for root in roots.iter_mut() {
        *root = asked(space, view, root, start, tried, steps)?;
    }
    Ok(())
}

/// The least start of a first pick that is left, where those up to one were tried at a start: there, or else at a later one.
fn first_root<S: Explored<V, L>, V, L: Ledger>(
    space: &S,
    view: &V,
    roots: &mut Vec<Root>,
    start: Minute,
    tried: &Option<Option<ResourceId>>,
    steps: &mut Steps<L>,
) -> Result<Option<First>, NoMemory>
    requires sound { IsSound (S.ways space.now) }
    requires nothing { (s : _) → S.holds space.now view.now s [] }
    requires roots { AreRoots (S.ways space.now) (cut_at start [] tried.now) roots.old.items }
    ensures roots { IfOk result (λ _. AreRoots (S.ways space.now) (cut_at start [] tried.now) roots.new.items) }
    ensures first { IfOk result (IsFirstRoot (S.ways space.now) (cut_at start [] tried.now)) }
    ensures steps { IfOk result (λ _. steps.new + unasked roots.new.items ≤ steps.old + unasked roots.old.items) }
{
    let here = next_here(space, view, roots, start, tried, steps)?;
    match here {
        Some(pick) => Ok(Some(First { start, pick })),
        None => {
            ask_all(space, view, roots, start, tried, steps)?;
            Ok(least(roots.as_slice()))
        }
    }
}

/// Goes on to the least start of a first pick that is left, where those up to one were tried at the trail's start.
pub fn next_root<S: Explored<V, L>, V, L: Ledger>(
    space: &S,
    view: &mut V,
    trail: &mut Trail,
    roots: &mut Vec<Root>,
    tried: &Option<Option<ResourceId>>,
    steps: &mut Steps<L>,
) -> Result<bool, NoMemory>
    requires sound { IsSound (S.ways space.now) }
    requires held { S.holds space.now view.old trail.old.start trail.old.picks.items }
    requires nothing { trail.old.picks.items ≡ [] }
    requires roots { AreRoots (S.ways space.now) (cut_at trail.old.start [] tried.now) roots.old.items }
    ensures held { S.holds space.now view.new trail.new.start trail.new.picks.items }
    ensures gone { IfOk result (λ found. HasGone (S.ways space.now) (cut_at trail.old.start [] tried.now) found trail.new.start trail.new.picks.items roots.new.items) }
    ensures one { IfOk result (λ _. beside (S.ways space.now) trail.new.picks.items ≡ 0) }
    ensures steps { IfOk result (λ _. steps.new + unasked roots.new.items ≤ steps.old + unasked roots.old.items + 1) }
{
    let first = first_root(space, view, roots, trail.start, tried, steps)?;
    match first {
        Some(first) => {
            forget(roots, &first.pick);
            trail.start = first.start;
            push(space, view, trail, &first.pick)?;
            Ok(true)
        }
        None => Ok(false),
    }
}

/// Goes on to the first position after the trail's start.
pub fn skip_start<S: Explored<V, L>, V, L: Ledger>(
    space: &S,
    view: &mut V,
    trail: &mut Trail,
    roots: &mut Vec<Root>,
    steps: &mut Steps<L>,
) -> Result<bool, NoMemory>
    requires sound { IsSound (S.ways space.now) }
    requires held { S.holds space.now view.old trail.old.start trail.old.picks.items }
    requires nothing { trail.old.picks.items ≡ [] }
    requires roots { (c : Cut) × AreRoots (S.ways space.now) c roots.old.items × IsCutBefore (S.ways space.now) c trail.old.start }
    ensures held { S.holds space.now view.new trail.new.start trail.new.picks.items }
    ensures gone { IfOk result (λ found. HasGone (S.ways space.now) (later trail.old.start) found trail.new.start trail.new.picks.items roots.new.items) }
    ensures one { IfOk result (λ _. beside (S.ways space.now) trail.new.picks.items ≡ 0) }
    ensures steps { IfOk result (λ _. steps.new + unasked roots.new.items ≤ steps.old + (S.ways space.now).resources + 1) }
{
    leave(roots, trail.start);
    let last = Some(None);
    let found = next_root(space, view, trail, roots, &last, steps)?;
    Ok(found)
}
