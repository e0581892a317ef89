//! Tests of the base and of the texts: lists and rows of small numbers, fields, matrices, what is outside,
//! nested lists and sheet tables.
//!
//! They show what no clause says: that calls succeed where there is memory, at each field too, and worked
//! examples.
#![tactic(auto)]

#[cfg(test)]
mod fields;
#[cfg(test)]
mod lanes;
#[cfg(test)]
mod lists;
#[cfg(test)]
mod matrices;
#[cfg(test)]
mod outside;
#[cfg(test)]
mod tables;
#[cfg(test)]
mod texts;
