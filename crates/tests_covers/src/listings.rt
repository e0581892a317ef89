// One cover by its number, and where a listing over components may begin.
use crate::searches::{WEDGE, presented};
use cover_listing::{Listing, Nth, nth_cover};
use cover_search::{Search, SearchFault};
use edge_words::Presentation;
use sheet_tables::{Position, Spot};
use std::alloc::Global;
use std::test::Fail;

/// Goes on to a cover of at most two sheets, and says what became of it and which table the search then has.
fn numbered(
    alloc: Global,
    presentation: &Presentation,
    index: u32,
    budget: u64,
) -> Result<(Nth, Vec<u8>), SearchFault> {
    if index == 0 {
        return Err(SearchFault::Memory);
    }
    let start = Position::start(alloc);
    let mut search = Search::new(alloc, presentation, 2, &start)?;
    let nth = nth_cover(&mut search, index, budget);
    let mut cells = Vec::new(alloc);
    cells.extend_from_slice(search.table().cells())?;
    Ok((nth, cells))
}

/// Begins a listing over one component.
fn begun(alloc: Global, presentations: &[Presentation], from: &Spot) -> Result<(), SearchFault> {
    if from.component() > 60000 || presentations.len() != 1 {
        return Err(SearchFault::Memory);
    }
    Listing::new(alloc, presentations, 2, from).map(|_| ())
}

// The fourth cover is found for the last of the fourteen units.
#[test]
fn the_covers_of_a_wedge_have_numbers(rt: HostRuntime) -> Result<(), Fail> {
    let wedge = presented(rt.alloc(), WEDGE)?;
    for (index, budget, nth, cells) in [
        (1, 2, Nth::Found, [1u8, 1].as_slice()),
        (3, 14, Nth::Found, [2, 1, 1, 2].as_slice()),
        (4, 14, Nth::Found, [2, 2, 1, 1].as_slice()),
    ] {
        let (found, table) = numbered(rt.alloc(), &wedge, index, budget)?;
        assert_eq!(rt; found, nth);
        assert_eq!(rt; table.as_slice(), cells);
    }
    Ok(())
}

#[test]
fn a_wedge_has_no_fifth_cover(rt: HostRuntime) -> Result<(), Fail> {
    let wedge = presented(rt.alloc(), WEDGE)?;
    for (index, budget, nth) in [(5, 14, Nth::Only(4)), (2, 6, Nth::Spent)] {
        let (found, _) = numbered(rt.alloc(), &wedge, index, budget)?;
        assert_eq!(rt; found, nth);
    }
    Ok(())
}

#[test]
fn listings_begin_where_a_table_is_live(rt: HostRuntime) -> Result<(), Fail> {
    let wedge = presented(rt.alloc(), WEDGE)?;
    let mut one = Vec::new(rt.alloc());
    one.push(wedge)?;
    let live = Spot::parse(rt.alloc(), "2:1,2")?;
    assert_eq!(rt; begun(rt.alloc(), &one, &live), Ok(()));
    let dead = Spot::parse(rt.alloc(), "2:1,1,1")?;
    assert_eq!(rt;
        begun(rt.alloc(), &one, &dead),
        Err(SearchFault::BadPosition)
    );
    Ok(())
}
