//! Tests of the one-thread core through its public calls, as tables of rows: what is asked, and what is answered.
#![tactic(auto)]

#[cfg(test)]
mod books;
#[cfg(test)]
mod changes;
#[cfg(test)]
mod groups;
#[cfg(test)]
mod limits;
#[cfg(test)]
mod lines;
#[cfg(test)]
mod refusals;
#[cfg(test)]
mod steps;
#[cfg(test)]
mod worked;
