//! Tests of kept bodies: texts byte for byte, and what is read of them.
#![tactic(auto)]

#[cfg(test)]
mod callers;
#[cfg(test)]
mod stores;
#[cfg(test)]
mod texts;
