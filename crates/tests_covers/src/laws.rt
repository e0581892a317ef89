// The laws of covers, asked once each.
use cover_laws::{
    columns_are_few, each_class_once, isomorphic_lifts_are_renumbered, labellings_are_gauged,
    listed_are_covers,
};

#[test]
fn the_laws_of_covers_hold() {
    labellings_are_gauged();
    isomorphic_lifts_are_renumbered();
    listed_are_covers();
    each_class_once();
    columns_are_few();
}
