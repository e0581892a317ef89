//! Tests of the lines of certificates.
//!
//! They show what no clause says: that calls succeed where there is memory, and worked examples.
#![tactic(auto)]

#[cfg(test)]
mod lines;
#[cfg(test)]
mod texts;
