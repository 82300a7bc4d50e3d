//! The resources that serve each leaf.
ghost use Rattle.std.specs.Prelude.{◌≡◌, IfOk};
ghost use Rattle.desk_base.specs.rows.Lookups.{KeysRise};
ghost use Rattle.desk_need.specs.Candidates.{AreCandidates, AreCandidatesOf, serving};

use crate::cases::required::required_candidates;
use crate::serving::first_broken_by;
use desk_base::{Items, Leaf, ResourceId, Resources, Tables};
use std::alloc::{AllocError, Global};

/// Those of all resources that serve the leaf.
fn serving(alloc: Global, tables: &Tables, leaf: &Leaf) -> Result<Vec<ResourceId>, AllocError>
    requires { KeysRise tables.now }
    ensures { IfOk result (λ v. v.items ≡ serving tables.now leaf.now) }
{
    tables
        .resources
        .as_slice()
        .iter()
        .filter(|x| first_broken_by(tables, leaf, x).is_none())
        .map(|x| x.id)
        .collect(alloc)
}

/// The same, as the rising list of those that serve.
fn all_candidates(
    alloc: Global,
    tables: &Tables,
    leaf: &Leaf,
) -> Result<Vec<ResourceId>, AllocError>
    requires { KeysRise tables.now }
    ensures { IfOk result (λ v. AreCandidates tables.now leaf.now v.items) }
{
    let all = serving(alloc, tables, leaf)?;
    Ok(all)
}

/// The resources that serve the leaf, rising. Where the leaf requires some, no other is looked at.
fn candidates(alloc: Global, tables: &Tables, leaf: &Leaf) -> Result<Vec<ResourceId>, AllocError>
    requires { KeysRise tables.now }
    ensures { IfOk result (λ v. AreCandidates tables.now leaf.now v.items) }
{
    if leaf.required.len() == 0 {
        all_candidates(alloc, tables, leaf)
    } else {
        required_candidates(alloc, tables, leaf)
    }
}

/// The resources that serve each of the leaves.
pub(crate) fn candidates_of(
    alloc: Global,
    tables: &Tables,
    leaves: &[Leaf],
) -> Result<Vec<Resources>, AllocError>
    requires { KeysRise tables.now }
    ensures { IfOk result (λ v. AreCandidatesOf tables.now leaves.now v.items) }
{
    let mut out = Vec::new(alloc);
    for leaf in leaves {
        let list = candidates(alloc, tables, leaf)?;
        out.push(Items::from_vec(list))?;
    }
    Ok(out)
}
