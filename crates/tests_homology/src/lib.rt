//! Tests of the order complex, of its reduction to critical chains, and of Betti numbers.
//!
//! They show what no clause says: that calls succeed where there is memory, at each field too, and worked
//! examples.
#![tactic(auto)]

#[cfg(test)]
mod chains;
#[cfg(test)]
mod classes;
#[cfg(test)]
mod critical;
#[cfg(test)]
mod flags;
#[cfg(test)]
mod laws;
#[cfg(test)]
mod numbers;
#[cfg(test)]
mod stages;
#[cfg(test)]
mod values;
#[cfg(test)]
mod worked;
