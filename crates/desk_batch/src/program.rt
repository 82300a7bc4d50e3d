//! The top call of the program.
ghost use Rattle.std.specs.Prelude.{◌≡◌, ◌⊎◌, ◌<◌, ◌≤◌, ◌^◌, ℕ, List, length, IfOk, Some};
ghost use Rattle.desk_io.specs.Counts.{Rose};
ghost use Rattle.desk_wire.specs.Requests.{Requests, clean};
ghost use Rattle.desk_wire.specs.declared.rules.Request.{Request};
ghost use Rattle.desk_route.specs.Exchanges.{Exchanged, IsStopped};
ghost use Rattle.desk_base.specs.rules.Sound.{IsSound};
ghost use Rattle.desk_batch.specs.Runs.{status_of, HoldsOver, JoinsPages, SendsUsage};
ghost use Rattle.desk_talk.specs.Sessions.{Session};
ghost use Rattle.desk_batch.specs.Turns.{opened_over, OwnTurn, NeverSpent};
ghost use Rattle.desk_batch.specs.Words.{words_for, tables_of, IsCommand};

use crate::turns::Alone;
use crate::words::{Store, Word, store_of, usage};
use desk_base::{NoMemory, Tables};
use desk_core::Book;
use desk_io::{Sink, Source};
use desk_route::{Routes, Serving};
use desk_talk::{SessionEnd, converse};
use std::alloc::Global;

/// The exit status of a conversation's end.
fn status(end: SessionEnd) -> u8
    ensures { result ≡ status_of end }
{
    match end {
        SessionEnd::Closed => 0,
        SessionEnd::Truncated => 3,
        SessionEnd::BadHead(_) => 4,
        SessionEnd::TooLarge(_) => 5,
        SessionEnd::ReadFault => 6,
        SessionEnd::WriteFault => 7,
        SessionEnd::BudgetEnd => 5,
        SessionEnd::NoMemory => 10,
        SessionEnd::Spent => 10,
    }
}

/// Writes the usage line.
fn write_usage<W: Sink>(sink: &mut W) -> u8
    ensures sends { SendsUsage (W.held sink.old) (W.held sink.new) result }
    ensures write_fault { result ≡ 7 → Rose (W.fault_count sink.old) (W.fault_count sink.new) }
    ensures rising { W.fault_count sink.old ≤ W.fault_count sink.new }
{
    match sink.give(usage()) {
        Ok(()) => 2,
        Err(_) => 7,
    }
}

/// The tables of a store at the opening.
fn tables_of(alloc: Global, store: Store) -> Result<Tables, NoMemory>
    ensures { IfOk result (λ tables. tables ≡ tables_of store) }
{
    match store {
        Store::Trial => Tables::trial(alloc),
        Store::Empty => Ok(Tables::empty(alloc)),
    }
}

/// Opens a book over a store, and makes the routes.
fn open(alloc: Global, store: Store) -> Result<(Routes, Book), NoMemory>
    ensures { IfOk result (λ made. made.1 ≡ opened_over (tables_of store)) }
{
    let routes = Routes::new(alloc)?;
    let tables = tables_of(alloc, store)?;
    match Book::over(alloc, tables) {
        Ok(book) => Ok((routes, book)),
        Err(_tables) => Err(NoMemory),
    }
}

/// Serves the source as one connection over a book that was just opened.
fn serve<S: Source, W: Sink>(
    alloc: Global,
    source: &mut S,
    sink: &mut W,
    routes: Routes,
    book: Book,
) -> (Book, SessionEnd)
    requires opened { book ≡ opened_over book.opened }
    requires sound { IsSound book.opened }
    ensures session { Session (Exchanged OwnTurn) (IsStopped OwnTurn NeverSpent) (JoinsPages book.opened) (S.left source.old) (S.left source.new) (W.held sink.old) (W.held sink.new) book result.0 result.1 }
    ensures read_fault { result.1 ≡ SessionEnd.ReadFault → Rose (S.fault_count source.old) (S.fault_count source.new) }
    ensures write_fault { result.1 ≡ SessionEnd.WriteFault → Rose (W.fault_count sink.old) (W.fault_count sink.new) }
    ensures source { S.fault_count source.old ≤ S.fault_count source.new }
    ensures sink { W.fault_count sink.old ≤ W.fault_count sink.new }
{
    let engine = Serving {
        taker: Alone { book },
        routes,
    };
    let (engine, end) = converse(alloc, source, sink, engine);
    let Serving { taker, routes: _ } = engine;
    let Alone { book } = taker;
    (book, end)
}

/// Serves the source as one connection over a store.
fn batch<S: Source, W: Sink>(alloc: Global, store: Store, source: &mut S, sink: &mut W) -> u8
    ensures conversation { HoldsOver (tables_of store) (S.left source.old) (S.left source.new) (W.held sink.old) (W.held sink.new) result }
    ensures read_fault { result ≡ 6 → Rose (S.fault_count source.old) (S.fault_count source.new) }
    ensures write_fault { result ≡ 7 → Rose (W.fault_count sink.old) (W.fault_count sink.new) }
    ensures source { S.fault_count source.old ≤ S.fault_count source.new }
    ensures sink { W.fault_count sink.old ≤ W.fault_count sink.new }
    ensures complete { (all : List ℕ) (qs : List Request) → S.left source.old ≡ Some all → Requests all qs clean → length all < 2 ^ 32
        → ¬ (Rose (S.fault_count source.old) (S.fault_count source.new)) → ¬ (Rose (W.fault_count sink.old) (W.fault_count sink.new))
        → (result ≡ 0) ⊎ (result ≡ 10) }
{
    let Ok((routes, book)) = open(alloc, store) else {
        return 10;
    };
    let (book, end) = serve(alloc, source, sink, routes, book);
    let _ = book;
    status(end)
}

/// Runs `desk` with these words, and gives the exit status. It always returns.
///
/// Status 0: the input was read to its end at a request's border, and all is answered. 2: the words are neither `batch trial`
/// nor `batch empty`. 3: the input ended inside a request. 4: the rest is no request that is served. 5: 2^32 bytes were taken.
/// 6: the source failed. 7: the sink failed. 10: memory was not found.
pub fn run<S: Source, W: Sink>(alloc: Global, words: &[Word], source: &mut S, sink: &mut W) -> u8
    // With the words of a store: the requests that were taken, a turn for each, from a book over the tables of the store on,
    // and the bytes that were sent, by status. Among the responses that were sent, the pages of one search over one revision, each
    // resumed from the last, are together the first rows of the listing over the tables of that revision, each once and in
    // order, and all of them where the last says that it is at the end.
    ensures conversation { (store : Store) → words.now ≡ words_for store → HoldsOver (tables_of store) (S.left source.old) (S.left source.new) (W.held sink.old) (W.held sink.new) result }

    // With other words: the usage line, and the source is not read.
    ensures usage { ¬ (IsCommand words.now) → SendsUsage (W.held sink.old) (W.held sink.new) result }
    ensures unread { ¬ (IsCommand words.now) → source.new ≡ source.old }
    ensures usage_only { result ≡ 2 → ¬ (IsCommand words.now) }

    // A fault comes only where the count of that object rose in this call.
    ensures read_fault { result ≡ 6 → Rose (S.fault_count source.old) (S.fault_count source.new) }
    ensures write_fault { result ≡ 7 → Rose (W.fault_count sink.old) (W.fault_count sink.new) }
    ensures source { S.fault_count source.old ≤ S.fault_count source.new }
    ensures sink { W.fault_count sink.old ≤ W.fault_count sink.new }

    // An input of whole requests is answered to its end, but for want of memory.
    ensures complete { (all : List ℕ) (qs : List Request) → IsCommand words.now → S.left source.old ≡ Some all → Requests all qs clean → length all < 2 ^ 32
        → ¬ (Rose (S.fault_count source.old) (S.fault_count source.new)) → ¬ (Rose (W.fault_count sink.old) (W.fault_count sink.new))
        → (result ≡ 0) ⊎ (result ≡ 10) }
{
    match store_of(words) {
        Some(store) => batch(alloc, store, source, sink),
        None => write_usage(sink),
    }
}
