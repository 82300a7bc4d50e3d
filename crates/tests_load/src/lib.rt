//! The tests of the crates that say what is free and what is taken, through their public calls alone: worked rows, and that each
//! call succeeds where memory is ample. There is a module for each crate that is tested.
#![tactic(auto)]

#[cfg(test)]
mod calendar;
#[cfg(test)]
mod load;
#[cfg(test)]
mod member;
#[cfg(test)]
mod schedules;
#[cfg(test)]
mod teams;
