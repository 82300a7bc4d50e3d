//! The tests of `desk_rules`, through its public calls alone: tables that keep every rule, and tables that break one.
#![tactic(auto)]

#[cfg(test)]
mod faults;
#[cfg(test)]
mod rows;
#[cfg(test)]
mod tests;
