//! The tests of the program: what no clause of its top call says, through that call alone. They are bytes that were worked out by
//! hand, that memory can be found, and that the program waits for nothing but its client.
#![tactic(auto)]

#[cfg(test)]
mod acts;
#[cfg(test)]
mod bodies;
#[cfg(test)]
mod changes;
#[cfg(test)]
mod clients;
#[cfg(test)]
mod ends;
#[cfg(test)]
mod errors;
#[cfg(test)]
mod heads;
#[cfg(test)]
mod pages;
#[cfg(test)]
mod runs;
#[cfg(test)]
mod trees;
