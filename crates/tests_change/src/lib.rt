//! The tests of `desk_change`, through its public calls alone: what a change of the trial tables meets.
#![tactic(auto)]

#[cfg(test)]
mod refusals;
