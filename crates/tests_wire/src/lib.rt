//! The tests of the crates that carry bytes, through their public calls alone: exact bytes in and out, and that each call
//! succeeds where memory is ample. There is a module for each subject.
#![tactic(auto)]

#[cfg(test)]
mod conversations;
#[cfg(test)]
mod cuts;
#[cfg(test)]
mod heads;
#[cfg(test)]
mod io;
#[cfg(test)]
mod responses;
