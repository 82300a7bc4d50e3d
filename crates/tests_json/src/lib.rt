//! Tests of the JSON of the interface through its public calls: bodies, answers and cursors, byte for byte.
#![tactic(auto)]

#[cfg(test)]
mod answers;
#[cfg(test)]
mod bodies;
#[cfg(test)]
mod cursors;
#[cfg(test)]
mod leaves;
#[cfg(test)]
mod rows;
#[cfg(test)]
mod shown;
#[cfg(test)]
mod trees;
