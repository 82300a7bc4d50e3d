//! Tests of the view of what is free, and of what is feasible over it, through public calls alone. Each goes over a book of the trial tables that has taken a few
//! changes, and asks the same question of each of its rows. What is expected was worked out by hand.
#![tactic(auto)]

#[cfg(test)]
mod acts;
#[cfg(test)]
mod books;
#[cfg(test)]
mod fits;
#[cfg(test)]
mod layers;
#[cfg(test)]
mod lists;
#[cfg(test)]
mod probes;
#[cfg(test)]
mod questions;
#[cfg(test)]
mod schedules;
#[cfg(test)]
mod verdicts;
