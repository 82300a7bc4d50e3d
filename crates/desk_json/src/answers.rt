//! The JSON text of an answer.
ghost use Rattle.std.specs.Prelude.{◌≡◌, IfOk, OnOk};
ghost use Rattle.serde_json.specs.View.{view};
ghost use Rattle.desk_base.specs.declared.asked.answers.Outcome.TheVariants.{Done};
ghost use Rattle.desk_json.specs.AnsweredPages.{ShowsPlaces};
ghost use Rattle.desk_json.specs.Answers.{revision_data, reply_data, error_data, answer_data, answer_text};

use crate::journals::journal_value;
use crate::pages::page_value;
use crate::receipts::receipt_value;
use crate::refusals::refusal_value;
use desk_base::{Answer, Bytes, NoMemory, Outcome, Reply};
use serde_json::{Value, json};
use std::alloc::{AllocError, Global};

fn revision_value(alloc: Global, revision: u64) -> Result<Value, AllocError>
    ensures { IfOk result (λ value. view value ≡ revision_data revision) }
{
    json!(in alloc; {"revision": revision})
}

fn error_value(alloc: Global, name: &str) -> Result<Value, AllocError>
    ensures { IfOk result (λ value. view value ≡ error_data name.now) }
{
    json!(in alloc; {"error": name})
}

fn reply_value(alloc: Global, revision: u64, reply: &Reply) -> Result<Value, NoMemory>
    ensures value { IfOk result (λ value. view value ≡ reply_data revision reply.now) }
    ensures places { OnOk result (ShowsPlaces (Done reply.now)) }
{
    match reply {
        Reply::Change(receipt) => Ok(receipt_value(alloc, false, revision, receipt)?),
        Reply::Rows(page) => page_value(alloc, revision, page),
        Reply::Journal(summaries) => Ok(journal_value(alloc, revision, summaries.as_slice())?),
        Reply::Revision => Ok(revision_value(alloc, revision)?),
    }
}

fn answer_value(alloc: Global, answer: &Answer) -> Result<Value, NoMemory>
    ensures value { IfOk result (λ value. view value ≡ answer_data answer.now) }
    ensures places { OnOk result (ShowsPlaces answer.now.outcome) }
{
    let revision = answer.revision;
    match &answer.outcome {
        Outcome::Done(reply) => reply_value(alloc, revision, reply),
        Outcome::Repeated(receipt) => Ok(receipt_value(alloc, true, revision, receipt)?),
        Outcome::Refused(refusal) => Ok(refusal_value(alloc, revision, refusal)?),
        Outcome::NoMemory => Ok(error_value(alloc, "no_memory")?),
    }
}

/// The JSON text of an answer (RFC 8259): compact, with the names of each object in the order of their bytes. Whatever page is
/// written has its places in the horizon, and its picks are ids, since their types say so.
#[tactic(auto, unfolding(crate::specs::Answers::answer_text))]
pub fn answer_text(alloc: Global, answer: &Answer) -> Result<Bytes, NoMemory>
    ensures text { IfOk result (λ text. text ≡ answer_text answer.now) }
    ensures places { OnOk result (ShowsPlaces answer.now.outcome) }
{
    let value = answer_value(alloc, answer)?;
    Ok(Bytes::from_vec(value.to_vec(alloc)?))
}
