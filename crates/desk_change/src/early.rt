//! The refusals that the rows alone show, in the order in which they are judged.
ghost use Rattle.std.specs.Prelude.{◌≡◌};
ghost use Rattle.std.specs.Option.{option_or};
ghost use Rattle.desk_base.specs.asked.Callers.{last_number};
ghost use Rattle.desk_base.specs.asked.Refusing.{cited_by, early_refusal, refused_booked, refused_entry, refused_field, refused_number, refused_open, refused_place, refused_removal, refused_tree, unknown_among};
ghost use Rattle.desk_base.specs.rules.Sound.{IsSound};
ghost use Rattle.desk_change.specs.Served.{IsServed};
ghost use Rattle.desk_load.specs.Index.{IsIndexOf};

use crate::callers::{last_number, refused_number};
use crate::citing::unknown;
use crate::fields::{refused_field, refused_tree};
use crate::in_use::refused_removal;
use crate::places::refused_place;
use crate::standing::refused_standing;
use desk_base::limits::{JOURNAL_LIMIT, REVISION_LIMIT};
use desk_base::{Act, Call, Entry, Refusal, Tables};
use desk_load::LoadIndex;

/// Why no change can be entered.
fn refused_entry(tables: &Tables, journal: &[Entry]) -> Option<Refusal>
    ensures { result ≡ refused_entry tables.now journal.now }
{
    let entries = journal.len();
    if JOURNAL_LIMIT <= entries || tables.revision == REVISION_LIMIT {
        Some(Refusal::JournalFull(entries as u64))
    } else {
        None
    }
}

/// Why no change of this number can be entered.
fn refused_call(tables: &Tables, journal: &[Entry], call: &Call) -> Option<Refusal>
    requires { IsSound tables.now }
    ensures { result ≡ option_or (refused_entry tables.now journal.now) (refused_number (last_number tables.now call.now.caller) call.now.number) }
{
    match refused_entry(tables, journal) {
        Some(why) => Some(why),
        None => refused_number(last_number(tables, call.caller), call.number.get()),
    }
}

/// Why a field or the tree of the act is wrong.
fn refused_form(tables: &Tables, index: &LoadIndex, act: &Act) -> Option<Refusal>
    requires sound { IsSound tables.now }
    requires index { IsIndexOf tables.now index.now }
    ensures { result ≡ option_or (refused_field tables.now act.now) (refused_tree act.now) }
{
    match refused_field(tables, index, act) {
        Some(why) => Some(why),
        None => refused_tree(act),
    }
}

/// Why what the act says is wrong.
fn refused_content(tables: &Tables, index: &LoadIndex, act: &Act) -> Option<Refusal>
    requires sound { IsSound tables.now }
    requires index { IsIndexOf tables.now index.now }
    ensures { result ≡ option_or (unknown_among tables.now (cited_by act.now)) (option_or (refused_field tables.now act.now) (refused_tree act.now)) }
{
    match unknown(tables, act) {
        Some(why) => Some(why),
        None => refused_form(tables, index, act),
    }
}

/// Why there is no place for what the act makes, or its group does not stand as it asks.
fn refused_beside(tables: &Tables, index: &LoadIndex, call: &Call, act: &Act) -> Option<Refusal>
    requires sound { IsSound tables.now }
    requires index { IsIndexOf tables.now index.now }
    ensures { result ≡ option_or (refused_place tables.now call.now act.now) (option_or (refused_booked tables.now act.now) (refused_open tables.now act.now)) }
{
    match refused_place(tables, index, call, act) {
        Some(why) => Some(why),
        None => refused_standing(tables, index, act),
    }
}

/// Why the act does not go with what stands.
fn refused_among(tables: &Tables, index: &LoadIndex, call: &Call, act: &Act) -> Option<Refusal>
    requires sound { IsSound tables.now }
    requires index { IsIndexOf tables.now index.now }
    requires served { IsServed act.now }
    ensures { result ≡ option_or (refused_removal tables.now act.now) (option_or (refused_place tables.now call.now act.now) (option_or (refused_booked tables.now act.now) (refused_open tables.now act.now))) }
{
    match refused_removal(tables, index, act) {
        Some(why) => Some(why),
        None => refused_beside(tables, index, call, act),
    }
}

/// The first refusal of a change that the rows alone show, in the order in which they are judged.
#[tactic(auto, using(crate::proofs::EarlyParts::early_parts))]
pub fn early_refusal(
    tables: &Tables,
    index: &LoadIndex,
    journal: &[Entry],
    call: &Call,
    act: &Act,
) -> Option<Refusal>
    requires sound { IsSound tables.now }
    requires index { IsIndexOf tables.now index.now }
    requires served { IsServed act.now }
    ensures { result ≡ early_refusal tables.now journal.now call.now act.now }
{
    match refused_call(tables, journal, call) {
        Some(why) => Some(why),
        None => match refused_content(tables, index, act) {
            Some(why) => Some(why),
            None => refused_among(tables, index, call, act),
        },
    }
}
