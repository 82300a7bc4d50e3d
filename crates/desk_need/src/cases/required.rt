//! The required resources that serve a leaf.
ghost use Rattle.std.specs.Prelude.{◌≡◌, ◌≢◌, ◌++◌, ◌∷◌, [], nat_le, None, length, is_none, IfOk, OnOk, if◌then◌else◌, Option};
ghost use Rattle.desk_base.specs.meaning.Eligible.{first_broken_rule};
ghost use Rattle.desk_base.specs.rows.Lookups.{KeysRise};
ghost use Rattle.desk_need.specs.Candidates.{least_from, lesser, AreCandidates};

use crate::serving::first_broken_rule;
use desk_base::{Leaf, ResourceId, Tables};
use std::alloc::{AllocError, Global};

/// The first of two, where one may be missing.
fn lesser(first: Option<ResourceId>, second: Option<ResourceId>) -> Option<ResourceId>
    ensures { result ≡ lesser first second }
{
    match first {
        None => second,
        Some(a) => match second {
            None => Some(a),
            Some(b) => { if a.get() < b.get() { Some(a) } else { Some(b) } }
        },
    }
}

/// The resource, where it is not below the number.
fn not_below(from: u32, id: ResourceId) -> Option<ResourceId>
    ensures { result ≡ (if nat_le from id then Option.Some id else None) }
{
    if from <= id.get() { Some(id) } else { None }
}

/// The least of the resources that is not below the number.
fn least_from(from: u32, ids: &[ResourceId]) -> Option<ResourceId>
    ensures { result ≡ least_from from ids.now }
{
    match ids {
        [] => None,
        [id, others @ ..] => {
            let first = not_below(from, *id);
            let second = least_from(from, others);
            lesser(first, second)
        }
    }
}

/// Adds the resource where it serves the leaf.
fn push_serving(
    tables: &Tables,
    leaf: &Leaf,
    id: ResourceId,
    out: &mut Vec<ResourceId>,
) -> Result<(), AllocError>
    requires { KeysRise tables.now }
    ensures { OnOk result (out.new.items ≡ out.old.items ++ (if is_none (first_broken_rule tables.now leaf.now id) then id ∷ [] else [])) }
{
    if first_broken_rule(tables, leaf, id).is_none() {
        out.push(id)?;
    }
    Ok(())
}

/// The required resources that serve the leaf, rising. No other resource is looked at.
pub(crate) fn required_candidates(
    alloc: Global,
    tables: &Tables,
    leaf: &Leaf,
) -> Result<Vec<ResourceId>, AllocError>
    requires rise { KeysRise tables.now }
    requires some { length leaf.now.required ≢ 0 }
    ensures { IfOk result (λ v. AreCandidates tables.now leaf.now v.items) }
{
    let required = leaf.required.as_slice();
    let mut out = Vec::new(alloc);
    let mut from = 0;
    'rising: loop {
        match least_from(from, required) {
            None => return Ok(out),
            Some(id) => {
                push_serving(tables, leaf, id, &mut out)?;
                from = id.get() + 1;
            }
        }
    }
}
