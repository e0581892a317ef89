// One table of a search by its number.
ghost use Rattle.std.specs.Prelude.{◌≡◌, ◌≤◌};
ghost use Rattle.cover_search.specs.Searches.{begun};
ghost use Rattle.cover_listing.specs.Nths.{IsNth};

use cover_search::{Search, Turn};

/// What became of the search for one table.
#[derive(Clone, Copy, PartialEq, Eq, Debug)]
pub enum Nth {
    /// It was found.
    Found,
    /// There are only so many.
    Only(u32),
    /// No unit was left before it.
    Spent,
}

/// Goes on to the table with this number, counted from 1, of those that a search finds which has not begun.
/// The table is then that of the search; where the budget is spent, the search stands at the live partial
/// table that took the last unit. It takes no memory.
pub fn nth_cover(search: &mut Search<'_>, index: u32, budget: u64) -> Nth
    requires first { 1 ≤ index }
    requires fresh { search.old ≡ begun search.old.relations search.old.most search.old.position }
    ensures { IsNth search.old search.new budget index result }
{
    if search.table().columns() == 0 {
        return if index == 1 { Nth::Found } else { Nth::Only(1) };
    }
    let mut left = budget;
    seek(search, index, &mut left)
}

/// The same, where there is a generator.
fn seek(search: &mut Search<'_>, index: u32, budget: &mut u64) -> Nth
    requires first { 1 ≤ index }
    requires some { 1 ≤ search.old.relations.generators }
    ensures { IsNth search.old search.new budget.old index result }
{
    let mut count: u32 = 0;
    'turns: loop {
        match search.next(budget) {
            Turn::Found => {
                count += 1;
                if count == index {
                    return Nth::Found;
                }
            }
            Turn::Done => return Nth::Only(count),
            Turn::Spent => return Nth::Spent,
        }
    }
}
