//! The tests of keepers and openers, through their public calls alone: rows of calls and what each answers, and that a book beside
//! any keeper stays what the keeper tells.
#![tactic(auto)]

pub mod beside;
#[cfg(test)]
mod keeping;
#[cfg(test)]
mod opening;
