//! Books over the trial tables.
ghost use Rattle.std.specs.Prelude.{IfOk};
ghost use Rattle.desk_base.specs.rules.Sound.{IsSound};

use desk_base::laws::trial_is_sound;
use desk_base::{NoMemory, Tables};
use desk_core::Book;
use std::alloc::Global;

fn trial(alloc: Global) -> Result<Tables, NoMemory>
    ensures { IfOk result IsSound }
{
    trial_is_sound();
    let tables = Tables::trial(alloc)?;
    Ok(tables)
}

/// A book over the trial tables.
pub(crate) fn opened(alloc: Global) -> Result<Book, NoMemory> {
    match Book::over(alloc, trial(alloc)?) {
        Ok(book) => Ok(book),
        Err(_tables) => Err(NoMemory),
    }
}

/// Lets a book go.
pub(crate) fn discard(book: Book) {
    let _ = book;
}
