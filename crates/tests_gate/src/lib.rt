//! Tests of `desk_gate`, through its public calls, with a ledger as the shared value.
#![tactic(auto)]

#[cfg(test)]
mod callers;
#[cfg(test)]
mod ledger;
#[cfg(test)]
mod parts;
#[cfg(test)]
mod tests;
