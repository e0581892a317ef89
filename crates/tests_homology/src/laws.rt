// The laws of splits, asked of each field.
use small_field::{Field, Gf4, Gf9, Gfp};
use split_laws::{
    bases_extend, betti_by_reduced_ranks, cocycles_are_extensions, extensions_commute,
    extensions_pair, fields_split, flows_commute, reduced_is_closed, reduced_rows_are_coboundaries,
    solutions_are_one, substitution_solves,
};

/// Each law, asked of a field that is known by its bound alone.
fn ask<F: Field>() {
    fields_split::<F>();
    substitution_solves::<F>();
    solutions_are_one::<F>();
    extensions_pair::<F>();
    reduced_rows_are_coboundaries::<F>();
    extensions_commute::<F>();
    reduced_is_closed::<F>();
    flows_commute::<F>();
    cocycles_are_extensions::<F>();
    bases_extend::<F>();
    betti_by_reduced_ranks::<F>();
}

#[test]
fn the_laws_of_splits_hold_over_each_field() {
    ask::<Gfp<2>>();
    ask::<Gfp<3>>();
    ask::<Gf4>();
    ask::<Gfp<5>>();
    ask::<Gfp<7>>();
    ask::<Gf9>();
    ask::<Gfp<11>>();
    ask::<Gfp<13>>();
}
