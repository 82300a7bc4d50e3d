//! The JSON of what the journal shows of its entries.
ghost use Rattle.std.specs.Prelude.{◌≡◌, ◌++◌, IfOk, string_bytes};
ghost use Rattle.serde_json.specs.View.{view};
ghost use Rattle.desk_json.specs.Journals.{act_name, summary_data, summaries_data, journal_object, journal_data};

use crate::words::table_name;
use desk_base::{ActCode, Summary};
use serde_json::{Value, json, push};
use std::alloc::{AllocError, Global};

fn name_behind(alloc: Global, front: &str, name: &str) -> Result<String, AllocError>
    ensures { IfOk result (λ text. string_bytes text ≡ front.now ++ name.now) }
{
    let mut text = String::from_str(alloc, front)?;
    text.push_str(name)?;
    Ok(text)
}

fn act_name(alloc: Global, act: ActCode) -> Result<String, AllocError>
    ensures { IfOk result (λ text. string_bytes text ≡ act_name act) }
{
    match act {
        ActCode::Put(table) => name_behind(alloc, "put_", table_name(table)),
        ActCode::Remove(table) => name_behind(alloc, "remove_", table_name(table)),
        ActCode::PutGroup => String::from_str(alloc, "put_group"),
        ActCode::DropGroup => String::from_str(alloc, "drop_group"),
        ActCode::BookGroup => String::from_str(alloc, "book_group"),
        ActCode::MoveGroup => String::from_str(alloc, "move_group"),
        ActCode::CancelGroup => String::from_str(alloc, "cancel_group"),
    }
}

fn summary_value(alloc: Global, summary: &Summary) -> Result<Value, AllocError>
    ensures { IfOk result (λ value. view value ≡ summary_data summary.now) }
{
    let act = Value::String(act_name(alloc, summary.act)?);
    let caller = summary.caller.get();
    let number = summary.number.get();
    json!(in alloc; {"act": act, "caller": caller, "number": number, "pass": summary.pass, "revision": summary.revision})
}

fn summaries_value(alloc: Global, summaries: &[Summary]) -> Result<Value, AllocError>
    ensures { IfOk result (λ value. view value ≡ summaries_data summaries.now) }
{
    let mut values = Vec::new(alloc);
    for summary in summaries {
        push(&mut values, summary_value(alloc, summary)?)?;
    }
    Ok(Value::Array(values))
}

fn journal_object(alloc: Global, revision: u64, entries: Value) -> Result<Value, AllocError>
    ensures { IfOk result (λ value. view value ≡ journal_object revision (view entries)) }
{
    json!(in alloc; {"entries": entries, "revision": revision})
}

/// The object of entries of the journal over a revision.
pub(crate) fn journal_value(
    alloc: Global,
    revision: u64,
    summaries: &[Summary],
) -> Result<Value, AllocError>
    ensures { IfOk result (λ value. view value ≡ journal_data revision summaries.now) }
{
    let entries = summaries_value(alloc, summaries)?;
    journal_object(alloc, revision, entries)
}
