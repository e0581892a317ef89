// Least tables, by hand.
use least_tables::{is_least, is_least_table};
use sheet_tables::Table;
use std::test::Fail;

// The last one, begun at its third sheet, has a lesser first cell.
#[test]
fn tables_are_least_or_not(rt: HostRuntime) -> Result<(), Fail> {
    assert!(rt; is_least(3, 1, &[2, 3, 1]));
    assert!(rt; is_least(2, 2, &[1, 2, 2, 1]));
    assert!(rt; !is_least(3, 2, &[2, 1, 1, 3, 3, 2]));
    Ok(())
}

#[test]
fn three_sheets_round_a_circle_are_least(rt: HostRuntime) -> Result<(), Fail> {
    let table = Table::from_cells(rt.alloc(), 3, 1, &[2, 3, 1])?;
    assert!(rt; is_least_table(&table));
    Ok(())
}
