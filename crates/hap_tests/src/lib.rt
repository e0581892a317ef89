//! Tests of the whole program, through its one public call, and of the words of the command line.
//!
//! They show what no clause says: that runs succeed where there is memory, and the texts of worked examples.
#![tactic(auto)]

#[cfg(test)]
mod arrays;
#[cfg(test)]
mod betti;
#[cfg(test)]
mod cells;
#[cfg(test)]
mod check;
#[cfg(test)]
mod commands;
#[cfg(test)]
mod cover;
#[cfg(test)]
mod covers;
#[cfg(test)]
mod facets;
#[cfg(test)]
mod group;
#[cfg(test)]
mod make;
#[cfg(test)]
mod outside;
#[cfg(test)]
mod running;
#[cfg(test)]
mod words;
#[cfg(test)]
mod worked;
