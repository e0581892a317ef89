use face_poset::Pair;
use sheet_tables::Table;
use small_field::Sparse;

/// A line of rank, or a class with its dual cycle. The number is that of the line in the text, counted
/// from 1. Positions are those of chains, counted from 1.
#[derive(Drop)]
pub struct Line {
    pub number: u32,
    pub left: Sparse,
    pub right: Sparse,
}

/// The product of class `a` of degree `i` with class `b` of degree `j`, classes counted from 1: its
/// coefficients by class of degree `i + j`, and a bounding cochain of one degree less.
#[derive(Drop)]
pub struct ProductLine {
    pub number: u32,
    pub i: u8,
    pub a: u32,
    pub j: u8,
    pub b: u32,
    pub coefficients: Sparse,
    pub bound: Sparse,
}

/// A pair of the field of pairs.
#[derive(Clone, Copy, PartialEq, Eq, Debug)]
pub struct PairLine {
    pub number: u32,
    pub pair: Pair,
}

/// A cover by its sheet table.
#[derive(Drop)]
pub struct CoverLine {
    pub number: u32,
    pub table: Table,
}
