//! Tests of spaces, of what makes them, and of fields of pairs.
//!
//! They show what no clause says: that calls succeed where there is memory, and worked examples.
#![tactic(auto)]

#[cfg(test)]
mod arrays;
#[cfg(test)]
mod complexes;
#[cfg(test)]
mod pairs;
#[cfg(test)]
mod regular;
#[cfg(test)]
mod spaces;
#[cfg(test)]
mod worked;
