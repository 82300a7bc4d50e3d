//! The tests of `desk_need`, through its public calls alone: tree rules, shapes, part-of-same, and who serves a leaf.
#![tactic(auto)]

#[cfg(test)]
mod fixtures;
#[cfg(test)]
mod parts;
#[cfg(test)]
mod serving;
#[cfg(test)]
mod shapes;
#[cfg(test)]
mod trees;
