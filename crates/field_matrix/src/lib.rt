//! Rows and matrices over a small field, by elimination.
//!
//! [`Matrix`] holds its rows one after the other as bytes. Its calls are proved for every
//! [`small_field::Field`], from the laws of the field alone: the reduced row echelon form, its rank
//! and pivots, solutions of linear equations, kernels, and rows that complete a basis.
#![tactic(auto)]

mod complement;
mod flat;
mod history;
mod joined;
mod matrix;
mod places;
mod reduce;
mod row;
mod solve;
mod zero_rows;

pub use history::Elimination;
pub use matrix::Matrix;
pub use places::Places;
pub use row::Row;
