//! Tests of `desk_pages`, through its public call alone: pages over the trial tables with more rows, which are proved fit for a
//! search at run time.
#![tactic(auto)]

#[cfg(test)]
mod booked;
#[cfg(test)]
mod crews;
#[cfg(test)]
mod fixtures;
#[cfg(test)]
mod listings;
#[cfg(test)]
mod many;
#[cfg(test)]
mod rows;
#[cfg(test)]
mod searches;
#[cfg(test)]
mod trees;
#[cfg(test)]
mod wanted;
