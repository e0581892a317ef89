// Sheet tables, and positions and spots as texts and as what they hold.
use sheet_tables::{Position, PositionFault, Spot, Table};
use std::alloc::{AllocError, Global};
use std::test::Fail;

#[test]
fn a_position_is_read(rt: HostRuntime) -> Result<(), Fail> {
    let position = Position::parse(rt.alloc(), "3:2,3")?;
    assert!(rt; position.sheets() == 3 && position.cells() == [2u8, 3].as_slice());
    Ok(())
}

#[test]
fn other_texts_are_no_positions(rt: HostRuntime) {
    for text in [
        "", "-", "3", "3:", "0:1", "9:1", "3:2,", "3:0", "3:9", "3:2;3", "3: 2", "33:2",
    ] {
        let fault = Position::parse(rt.alloc(), text).err();
        assert_eq!(rt; fault, Some(PositionFault::Form), "{text}");
    }
}

/// A position with room for four cells, which holds two.
fn refilled(alloc: Global) -> Result<Position, AllocError> {
    let mut position = Position::with_room(alloc, 4)?;
    position.refill(2, &[1, 2]);
    Ok(position)
}

#[test]
fn a_position_is_filled_again(rt: HostRuntime) -> Result<(), Fail> {
    let position = refilled(rt.alloc())?;
    let other = Position::from_cells(rt.alloc(), 2, &[1, 2])?;
    assert!(rt; position.cells() == other.cells() && position.room() == 4);
    Ok(())
}

#[test]
fn a_spot_is_read(rt: HostRuntime) -> Result<(), Fail> {
    for (text, component) in [("3:2,3", 1u32), ("2/3:2,3", 2), ("60000/3:2,3", 60_000)] {
        let spot = Spot::parse(rt.alloc(), text)?;
        let cells = spot.position().cells();
        assert!(rt;
            spot.component() == component && cells == [2u8, 3].as_slice(),
            "{text}"
        );
    }
    Ok(())
}

#[test]
fn other_texts_are_no_spots(rt: HostRuntime) {
    for text in [
        "",
        "-",
        "1/3:2",
        "0/3:2",
        "02/3:2",
        "60001/3:2",
        "/3:2",
        "2/",
        "2/-",
        "2/3:0",
        "2//3:2",
        "2:3:2",
    ] {
        let fault = Spot::parse(rt.alloc(), text).err();
        assert_eq!(rt; fault, Some(PositionFault::Form), "{text}");
    }
}

/// Two sheets over two columns: the first column changes them, the second leaves them.
fn two_sheets(alloc: Global) -> Result<Table, AllocError> {
    Table::from_cells(alloc, 2, 2, &[2, 1, 1, 2])
}

/// The same, put into a table with room for three sheets.
fn refilled_table(alloc: Global) -> Result<Table, AllocError> {
    let mut table = Table::with_room(alloc, 3, 2)?;
    table.refill(2, &[2, 1, 1, 2]);
    Ok(table)
}

#[test]
fn a_table_is_filled_again(rt: HostRuntime) -> Result<(), Fail> {
    let table = refilled_table(rt.alloc())?;
    let other = two_sheets(rt.alloc())?;
    assert!(rt; table.cells() == other.cells() && table.room() == 3);
    Ok(())
}
