//! Turns over a book that nobody else changes.
ghost use Rattle.std.specs.Prelude.{◌≡◌, ⊤};
ghost use Rattle.desk_core.specs.Built.{IsBuilt};
ghost use Rattle.desk_route.specs.Exchanges.{IsRequested};
ghost use Rattle.desk_batch.specs.Runs.{JoinsPages};
ghost use Rattle.desk_batch.specs.Turns.{OwnTurn, NeverSpent};

use desk_base::{Answer, Command};
use desk_core::Book;
use desk_route::Taker;
use std::alloc::Global;

/// Has the book to itself, so each turn begins where the last ended.
#[derive(Drop)]
pub struct Alone {
    pub book: Book,
}

/// The number of the connection in the journal, where there is only one.
const ONLY_PASS: u64 = 0;

/// A step of the book.
fn stepped(alloc: Global, book: Book, command: &Command) -> (Book, Answer)
    requires { IsRequested command.now }
    ensures { OwnTurn book command.now result.1 result.0 }
{
    let mut book = book;
    let answer = book.step(alloc, ONLY_PASS, command);
    // what every book keeps
    let _ = book.tables();
    let _ = book.journal();
    (book, answer)
}

impl Taker for Alone {
    ghost turn = { λ s command answer t. OwnTurn s.book command answer t.book };

    ghost spent = { λ s t. NeverSpent s.book t.book };

    ghost ready = { λ s. ⊤ };

    ghost knows = { λ s exchanges. JoinsPages s.book.opened exchanges };

    fn take_turn(self, alloc: Global, command: &Command) -> (Self, Option<Answer>) {
        let Alone { book } = self;
        let (book, answer) = stepped(alloc, book, command);
        (Alone { book }, Some(answer))
    }
}
