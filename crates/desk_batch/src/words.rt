//! The words that a program is started with.
ghost use Rattle.std.specs.Prelude.{◌≡◌, ◌↔◌, [], ◌∷◌, codes, IsTrue};
ghost use Rattle.desk_batch.specs.Words.{Finds, words_for, usage_line};

use desk_io::Bytes;

/// A word, as bytes. The program's own name is no word.
pub type Word = Bytes;

const USAGE: &str =
    "usage: desk batch STORE | import STORE CALLER FIRST | board STORE FROM TO | demo --seed N | serve STORE [--port N] [--workers N] [--connections N]\n";

/// The line that says which words there are.
pub fn usage() -> &'static [u8]
    ensures { result.now ≡ usage_line }
{
    USAGE.as_bytes()
}

fn is_word(word: &Word, wanted: &[u8]) -> bool
    ensures { IsTrue result ↔ (word.now ≡ wanted.now) }
{
    word.as_slice() == wanted
}

/// The tables that the program opens.
#[derive(Clone, Copy, Debug)]
pub enum Store {
    Trial,
    Empty,
}

fn store_named(word: &Word) -> Option<Store>
    ensures { Finds (λ store. codes "batch" ∷ word.now ∷ [] ≡ words_for store) result }
{
    if is_word(word, b"trial") {
        Some(Store::Trial)
    } else if is_word(word, b"empty") {
        Some(Store::Empty)
    } else {
        None
    }
}

/// The store that is served with these words.
pub(crate) fn store_of(words: &[Word]) -> Option<Store>
    ensures { Finds (λ store. words.now ≡ words_for store) result }
{
    match words {
        [first, second] => {
            if is_word(first, b"batch") {
                store_named(second)
            } else {
                None
            }
        }
        _ => None,
    }
}
