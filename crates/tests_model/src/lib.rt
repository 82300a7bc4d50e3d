//! The tests of the crates that hold the model, through their public calls alone: worked rows, and that each call succeeds
//! where memory is ample. There is a module for each crate that is tested.
#![tactic(auto)]

#[cfg(test)]
mod base;
#[cfg(test)]
mod changes;
#[cfg(test)]
mod spans;
#[cfg(test)]
mod time;
