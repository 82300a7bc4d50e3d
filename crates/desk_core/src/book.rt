//! A schedule with the journal of its changes. A book is always sound, its index is that of its tables, its journal is
//! legal over the tables that it was opened with, and its tables are those after its journal: no call can lose that.
ghost use Rattle.std.specs.Prelude.{◌≡◌, [], map, IfOk, IfErr};
ghost use Rattle.desk_base.specs.asked.Histories.{IsLegal, after_journal};
ghost use Rattle.desk_base.specs.rules.Sound.{IsSound};
ghost use Rattle.desk_base.specs.asked.Steps.{IsTurn, IsUnchanged};
ghost use Rattle.desk_base.specs.meaning.Load.{Fits, ask_of};
ghost use Rattle.desk_base.specs.declared.asked.answers.Command.TheVariants.{Change};
ghost use Rattle.desk_change.specs.Served.{IsServed};
ghost use Rattle.desk_load.specs.Index.{IsIndexOf};
ghost use Rattle.desk_core.specs.Answering.{IsAnswerOrNone};
ghost use Rattle.desk_core.specs.Built.{IsBuilt};
ghost use Rattle.desk_core.specs.Promises.{AreBookedWhole, IsFirstReason, IsNothingDone};

use crate::answering::answer;
use crate::changing::carry_out;
use crate::entering::outcome_of;
use crate::view::View;
use desk_base::{Act, Answer, Call, Command, Duplicate, Entry, NoMemory, Outcome, Query, Tables};
use desk_change::kept_receipt;
use desk_load::LoadIndex;
use std::alloc::Global;
use std::marker::Model;
use std::snapshot::Snapshot;

/// A schedule, and what was changed in it since it was opened.
#[derive(Drop)]
pub struct Book {
    view: View,
    journal: Vec<Entry>,
    opened: Snapshot<Tables>,
}

impl Model for Book {
    ghost use Rattle.desk_load.specs.Index.{IsIndexOf};
    ghost use Rattle.desk_core.specs.Books.{BookState, IsKept};

    ghost Value = { BookState };

    ghost view = { λ b. record { opened = b.opened.value; tables = b.view.tables; journal = b.journal.items } };

    ghost invariant = { λ b. IsKept b.opened.value b.view.tables b.journal.items × IsIndexOf b.view.tables b.view.index };
}

impl Book {
    /// A book over sound tables, with an empty journal, or the tables again where the memory for their index is not found.
    pub fn over(alloc: Global, tables: Tables) -> Result<Book, Tables>
        requires { IsSound tables }
        ensures book { IfOk result (λ b. b ≡ record { opened = tables; tables = tables; journal = [] }) }
        ensures unchanged { IfErr result (λ t. t ≡ tables) }
    {
        let opened = Snapshot::of(&tables);
        match View::of(alloc, tables) {
            Ok(view) => Ok(Book {
                view,
                journal: Vec::new(alloc),
                opened,
            }),
            Err(tables) => Err(tables),
        }
    }

    /// The schedule as it is. As it is sound, its bookings fit, and each group is booked whole or not at all.
    pub fn tables(&self) -> &Tables
        ensures value { result.now ≡ self.now.tables }
        ensures sound { IsSound result.now }
        ensures after { result.now ≡ after_journal self.now.opened self.now.journal }
    {
        &self.view.tables
    }

    /// The changes that were accepted since the opening, in order.
    pub fn journal(&self) -> &[Entry]
        ensures value { result.now ≡ self.now.journal }
        ensures legal { IsLegal self.now.opened result.now }
    {
        self.journal.as_slice()
    }

    /// The schedule as it is and an index of it, without its journal.
    pub fn copy(&self, alloc: Global) -> Result<View, NoMemory>
        ensures tables { IfOk result (λ v. v.tables ≡ self.now.tables) }
        ensures index { IfOk result (λ v. IsIndexOf v.tables v.index) }
    {
        let tables = self.view.tables.copy(alloc)?;
        let index = LoadIndex::build(alloc, &tables)?;
        Ok(View { tables, index })
    }

    /// What a change comes to.
    #[tactic(none)]
    fn change(&mut self, alloc: Global, pass: u64, call: &Call, act: &Act) -> Outcome
        requires { IsServed act.now }
        ensures turn { IsTurn self.old.tables self.old.journal pass (Change call.now act.now) result self.new.tables self.new.journal }
        ensures opened { self.new.opened ≡ self.old.opened }
    {
        match kept_receipt(&self.view.tables, call) {
            Some(receipt) => Outcome::Repeated(receipt),
            None => outcome_of(carry_out(
                alloc,
                &mut self.view,
                &mut self.journal,
                pass,
                call,
                act,
            )),
        }
    }

    /// What a question comes to.
    fn told(&self, alloc: Global, query: &Query) -> Outcome
        ensures { IsAnswerOrNone self.now.tables self.now.journal query.now result }
    {
        answer(alloc, &self.view, self.journal.as_slice(), query)
    }

    /// An outcome with the revision as it is now.
    fn answered(&self, outcome: Outcome) -> Answer
        ensures outcome { result.outcome ≡ outcome }
        ensures revision { result.revision ≡ self.now.tables.revision }
        ensures sound { IsSound self.now.tables }
    {
        Answer {
            revision: self.tables().revision,
            outcome,
        }
    }

    /// One step of the one-thread scheduler: what a command comes to, with the revision after it. `pass` is the number of the
    /// connection that asks. All memory is taken before anything changes: where it is not found, after a refusal, and where a
    /// change is repeated, the book is as before. After each step a group is booked whole or not at all, and at no minute is a
    /// resource above its room.
    #[tactic(none)]
    pub fn step(&mut self, alloc: Global, pass: u64, command: &Command) -> Answer
        requires { IsBuilt command.now }
        ensures step { IsTurn self.old.tables self.old.journal pass command.now result.outcome self.new.tables self.new.journal }
        ensures revision { result.revision ≡ self.new.tables.revision }
        ensures opened { self.new.opened ≡ self.old.opened }
        ensures first_reason { IsFirstReason self.old.tables self.old.journal command.now result.outcome }
        ensures nothing_done { IsNothingDone result.outcome → IsUnchanged self.old.tables self.old.journal self.new.tables self.new.journal }
        ensures booked_whole { AreBookedWhole self.new.tables }
        ensures within_room { Fits self.new.tables (map ask_of self.new.tables.bookings) }
    {
        match command {
            Command::Change(call, act) => {
                let outcome = self.change(alloc, pass, call, act);
                self.answered(outcome)
            }
            Command::Ask(query) => {
                let outcome = self.told(alloc, query);
                self.answered(outcome)
            }
        }
    }
}
