//! Tests of fields of pairs with more pairs, of chosen fields, of the parts of a space and their groups, of collapses, of
//! signs, of words and labels, of the laws of covers, of least tables, of searches for covers, and of total spaces.
//!
//! They show what no clause says: that calls succeed where there is memory, and worked examples.
#![tactic(auto)]

#[cfg(test)]
mod chosen;
#[cfg(test)]
mod collapses;
#[cfg(test)]
mod filling;
#[cfg(test)]
mod groups;
#[cfg(test)]
mod laws;
#[cfg(test)]
mod leasts;
#[cfg(test)]
mod listings;
#[cfg(test)]
mod parts;
#[cfg(test)]
mod searches;
#[cfg(test)]
mod signs;
#[cfg(test)]
mod totals;
#[cfg(test)]
mod words;
#[cfg(test)]
mod worked;
