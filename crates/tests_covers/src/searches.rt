// Searches over small presentations, by hand: two circles joined, the projective plane, and a point.
use crate::worked::{PLANE, read};
use chosen_field::tree_field;
use cover_search::{Search, SearchFault, Turn};
use edge_words::{Presentation, WordFault, present};
use regular_check::check;
use sheet_tables::Position;
use std::alloc::Global;
use std::test::Fail;

/// Two vertices and three edges between them: two generators and no relator.
pub const WEDGE: &str = "[[[1,0],[1,0]],[[2,1,2],[2,1,2],[2,1,2]]]";

/// The presentation of a space; want of memory stands for a space that has none here.
pub fn presented(alloc: Global, text: &str) -> Result<Presentation, WordFault> {
    let space = read(alloc, text).map_err(|_| WordFault::Memory)?;
    let regular = check(alloc, &space).map_err(|_| WordFault::Memory)?;
    let components = regular.components(alloc)?;
    if components.count() != 1 {
        return Err(WordFault::Memory);
    }
    let field = tree_field(alloc, &regular)?;
    present(alloc, &regular, &field)
}

/// What stands in a list for the end of a search, and for a budget that is spent.
const DONE: u8 = 100;

const SPENT: u8 = 101;

/// The sheets and cells of each table that is found, how the search ends, and the position where it stands then.
fn listed(
    alloc: Global,
    presentation: &Presentation,
    sheets: u8,
    from: &Position,
    budget: u64,
) -> Result<Vec<u8>, SearchFault> {
    if sheets == 0 || sheets > 8 {
        return Err(SearchFault::Memory);
    }
    let mut left = budget;
    let mut search = Search::new(alloc, presentation, sheets, from)?;
    let mut list = Vec::new(alloc);
    for _ in 0..20 {
        match search.next(&mut left) {
            Turn::Found => {
                list.push(search.table().sheets())?;
                list.extend_from_slice(search.table().cells())?;
            }
            Turn::Done => {
                list.push(DONE)?;
                break;
            }
            Turn::Spent => {
                list.push(SPENT)?;
                break;
            }
        }
    }
    list.push(search.position().sheets())?;
    list.extend_from_slice(search.position().cells())?;
    Ok(list)
}

// There are fourteen live partial tables of at most two sheets.
#[test]
fn a_wedge_has_four_covers_of_at_most_two_sheets(rt: HostRuntime) -> Result<(), Fail> {
    let wedge = presented(rt.alloc(), WEDGE)?;
    let start = Position::start(rt.alloc());
    let list = listed(rt.alloc(), &wedge, 2, &start, 14)?;
    let wanted = [
        1u8, 1, 1, 2, 1, 2, 2, 1, 2, 2, 1, 1, 2, 2, 2, 2, 1, 1, DONE, 2, 2, 2, 1, 1,
    ];
    assert_eq!(rt; list.as_slice(), wanted.as_slice());
    Ok(())
}

#[test]
fn a_search_stops_where_its_budget_is_spent(rt: HostRuntime) -> Result<(), Fail> {
    let wedge = presented(rt.alloc(), WEDGE)?;
    let start = Position::start(rt.alloc());
    let list = listed(rt.alloc(), &wedge, 2, &start, 5)?;
    assert_eq!(rt; list.as_slice(), [1u8, 1, 1, SPENT, 2, 1, 2].as_slice());
    Ok(())
}

#[test]
fn a_search_goes_on_at_a_position(rt: HostRuntime) -> Result<(), Fail> {
    let wedge = presented(rt.alloc(), WEDGE)?;
    let position = Position::parse(rt.alloc(), "2:1,2")?;
    let list = listed(rt.alloc(), &wedge, 2, &position, 9)?;
    let wanted = [
        2u8, 1, 2, 2, 1, 2, 2, 1, 1, 2, 2, 2, 2, 1, 1, DONE, 2, 2, 2, 1, 1,
    ];
    assert_eq!(rt; list.as_slice(), wanted.as_slice());
    Ok(())
}

// In the second row the first sheet would stand twice in its column.
#[test]
fn positions_that_are_not_live_are_refused(rt: HostRuntime) -> Result<(), Fail> {
    let wedge = presented(rt.alloc(), WEDGE)?;
    let position = Position::parse(rt.alloc(), "2:1,1,1")?;
    let list = listed(rt.alloc(), &wedge, 2, &position, 14);
    assert_eq!(rt; list.err(), Some(SearchFault::BadPosition));
    Ok(())
}

// The relator is the generator twice.
#[test]
fn the_plane_has_two_covers(rt: HostRuntime) -> Result<(), Fail> {
    let plane = presented(rt.alloc(), PLANE)?;
    let start = Position::start(rt.alloc());
    let list = listed(rt.alloc(), &plane, 3, &start, 7)?;
    assert_eq!(rt;
        list.as_slice(),
        [1u8, 1, 2, 2, 1, DONE, 3, 2, 1].as_slice()
    );
    Ok(())
}

#[test]
fn a_point_has_one_cover_for_no_unit(rt: HostRuntime) -> Result<(), Fail> {
    let point = presented(rt.alloc(), "[[[1,0]]]")?;
    let start = Position::start(rt.alloc());
    let list = listed(rt.alloc(), &point, 3, &start, 0)?;
    assert_eq!(rt; list.as_slice(), [1u8, DONE, 0].as_slice());
    Ok(())
}
