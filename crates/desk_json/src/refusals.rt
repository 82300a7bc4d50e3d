//! The JSON of a refusal.
ghost use Rattle.std.specs.Prelude.{◌≡◌, IfOk};
ghost use Rattle.serde_json.specs.View.{view};
ghost use Rattle.desk_json.specs.Refusals.{journal_full_data, old_number_data, skipped_number_data, unknown_data, bad_field_data, bad_tree_data, in_use_data, full_data, not_open_data, not_booked_data, moved_data, off_grid_data, bad_shape_data, not_eligible_data, not_same_data, conflict_data, shown_data, refusal_data};

use crate::moments::moment_value;
use crate::values::key_value;
use crate::words::{field_name, leaf_rule_name, table_name, tree_rule_name};
use desk_base::{
    Clash, Field, GroupId, Key, LeafNo, LeafRule, Minute, NodeNo, Refusal, ResourceId, Shown,
    Table, TreeRule,
};
use serde_json::{Value, json};
use std::alloc::{AllocError, Global};

fn journal_full_value(alloc: Global, revision: u64, entries: u64) -> Result<Value, AllocError>
    ensures { IfOk result (λ value. view value ≡ journal_full_data revision entries) }
{
    json!(in alloc; {"entries": entries, "refused": "journal_full", "revision": revision})
}

fn old_number_value(alloc: Global, revision: u64, last: u32) -> Result<Value, AllocError>
    ensures { IfOk result (λ value. view value ≡ old_number_data revision last) }
{
    json!(in alloc; {"last": last, "refused": "old_number", "revision": revision})
}

fn skipped_number_value(alloc: Global, revision: u64, last: u32) -> Result<Value, AllocError>
    ensures { IfOk result (λ value. view value ≡ skipped_number_data revision last) }
{
    json!(in alloc; {"last": last, "refused": "skipped_number", "revision": revision})
}

fn unknown_value(alloc: Global, revision: u64, key: &Key) -> Result<Value, AllocError>
    ensures { IfOk result (λ value. view value ≡ unknown_data revision key.now) }
{
    let numbers = key_value(alloc, key)?;
    let table = table_name(key.table);
    json!(in alloc; {"key": numbers, "refused": "unknown", "revision": revision, "table": table})
}

fn bad_field_value(alloc: Global, revision: u64, field: Field) -> Result<Value, AllocError>
    ensures { IfOk result (λ value. view value ≡ bad_field_data revision field) }
{
    let name = field_name(field);
    json!(in alloc; {"field": name, "refused": "bad_field", "revision": revision})
}

fn bad_tree_value(
    alloc: Global,
    revision: u64,
    rule: TreeRule,
    node: NodeNo,
) -> Result<Value, AllocError>
    ensures { IfOk result (λ value. view value ≡ bad_tree_data revision rule node) }
{
    let name = tree_rule_name(rule);
    json!(in alloc; {"node": node, "refused": "bad_tree", "revision": revision, "rule": name})
}

fn in_use_value(alloc: Global, revision: u64, key: &Key, by: &Key) -> Result<Value, AllocError>
    ensures { IfOk result (λ value. view value ≡ in_use_data revision key.now by.now) }
{
    let numbers = key_value(alloc, key)?;
    let by_numbers = key_value(alloc, by)?;
    let table = table_name(key.table);
    let by_table = table_name(by.table);
    json!(in alloc; {"by_key": by_numbers, "by_table": by_table, "key": numbers, "refused": "in_use", "revision": revision, "table": table})
}

fn full_value(alloc: Global, revision: u64, table: Table) -> Result<Value, AllocError>
    ensures { IfOk result (λ value. view value ≡ full_data revision table) }
{
    let name = table_name(table);
    json!(in alloc; {"refused": "full", "revision": revision, "table": name})
}

fn not_open_value(alloc: Global, revision: u64, group: GroupId) -> Result<Value, AllocError>
    ensures { IfOk result (λ value. view value ≡ not_open_data revision group) }
{
    let number = group.get();
    json!(in alloc; {"group": number, "refused": "not_open", "revision": revision})
}

fn not_booked_value(alloc: Global, revision: u64, group: GroupId) -> Result<Value, AllocError>
    ensures { IfOk result (λ value. view value ≡ not_booked_data revision group) }
{
    let number = group.get();
    json!(in alloc; {"group": number, "refused": "not_booked", "revision": revision})
}

fn moved_value(alloc: Global, revision: u64, shown: u64, now: u64) -> Result<Value, AllocError>
    ensures { IfOk result (λ value. view value ≡ moved_data revision shown now) }
{
    json!(in alloc; {"now": now, "refused": "moved", "revision": revision, "shown": shown})
}

fn off_grid_value(alloc: Global, revision: u64, start: Minute) -> Result<Value, AllocError>
    ensures { IfOk result (λ value. view value ≡ off_grid_data revision start) }
{
    let moment = moment_value(alloc, start)?;
    json!(in alloc; {"refused": "off_grid", "revision": revision, "start": moment})
}

fn bad_shape_value(alloc: Global, revision: u64, leaf: LeafNo) -> Result<Value, AllocError>
    ensures { IfOk result (λ value. view value ≡ bad_shape_data revision leaf) }
{
    json!(in alloc; {"leaf": leaf, "refused": "bad_shape", "revision": revision})
}

fn not_eligible_value(
    alloc: Global,
    revision: u64,
    leaf: LeafNo,
    resource: ResourceId,
    rule: LeafRule,
) -> Result<Value, AllocError>
    ensures { IfOk result (λ value. view value ≡ not_eligible_data revision leaf resource rule) }
{
    let name = leaf_rule_name(rule);
    let number = resource.get();
    json!(in alloc; {"leaf": leaf, "refused": "not_eligible", "resource": number, "revision": revision, "rule": name})
}

fn not_same_value(alloc: Global, revision: u64, node: NodeNo) -> Result<Value, AllocError>
    ensures { IfOk result (λ value. view value ≡ not_same_data revision node) }
{
    json!(in alloc; {"node": node, "refused": "not_same", "revision": revision})
}

fn shown_value(shown: Shown) -> Value
    ensures { view result ≡ shown_data shown }
{
    match shown {
        Shown::Booking(booking) => Value::from(booking.get()),
        Shown::Gap => Value::Null,
    }
}

fn conflict_value(alloc: Global, revision: u64, clash: &Clash) -> Result<Value, AllocError>
    ensures { IfOk result (λ value. view value ≡ conflict_data revision clash.now) }
{
    let booking = shown_value(clash.shown);
    let minute = moment_value(alloc, clash.minute)?;
    let resource = clash.resource.get();
    json!(in alloc; {"asked": clash.asked, "booking": booking, "capacity": clash.capacity, "minute": minute, "refused": "conflict", "resource": resource, "revision": revision, "standing": clash.standing})
}

/// The object of a refusal over a revision.
pub(crate) fn refusal_value(
    alloc: Global,
    revision: u64,
    refusal: &Refusal,
) -> Result<Value, AllocError>
    ensures { IfOk result (λ value. view value ≡ refusal_data revision refusal.now) }
{
    match refusal {
        Refusal::JournalFull(entries) => journal_full_value(alloc, revision, *entries),
        Refusal::OldNumber(last) => old_number_value(alloc, revision, *last),
        Refusal::SkippedNumber(last) => skipped_number_value(alloc, revision, *last),
        Refusal::UnknownId(key) => unknown_value(alloc, revision, key),
        Refusal::BadField(field) => bad_field_value(alloc, revision, *field),
        Refusal::BadTree(rule, node) => bad_tree_value(alloc, revision, *rule, *node),
        Refusal::InUse(key, by) => in_use_value(alloc, revision, key, by),
        Refusal::Full(table) => full_value(alloc, revision, *table),
        Refusal::NotOpen(group) => not_open_value(alloc, revision, *group),
        Refusal::NotBooked(group) => not_booked_value(alloc, revision, *group),
        Refusal::Moved(shown, now) => moved_value(alloc, revision, *shown, *now),
        Refusal::OffGrid(start) => off_grid_value(alloc, revision, *start),
        Refusal::BadShape(leaf) => bad_shape_value(alloc, revision, *leaf),
        Refusal::NotEligible(leaf, resource, rule) => not_eligible_value(
            alloc, revision, *leaf, *resource, *rule,
        ),
        Refusal::NotSame(node) => not_same_value(alloc, revision, *node),
        Refusal::Conflict(clash) => conflict_value(alloc, revision, clash),
    }
}
