// Words, relators and labels by hand: a torus of four squares, and a triangle with a second edge beside one of its
// three.
ghost use Rattle.std.specs.Prelude.{◌≡◌, [], length, IfOk};
ghost use Rattle.face_poset.specs.Poset.{count};

use crate::worked::read;
use chosen_field::tree_field;
use edge_words::{Labels, Presentation, WordFault, labels, present};
use face_poset::{Graded, Space};
use regular_check::{Regular, check};
use sheet_tables::Table;
use std::alloc::{AllocError, Global};
use std::test::Fail;

const TORUS: &str =
    "[[[1,0],[1,0],[1,0],[1,0]],[[2,1,2],[2,1,2],[2,1,3],[2,2,4],[2,3,4],[2,3,4],[2,1,3],[2,2,4]],[[4,1,3,4,5],[4,2,3,4,6],[4,1,5,7,8],[4,2,6,7,8]]]";

/// Edge 1 is paired with the triangle, edges 2 and 3 with vertices, and edge 4 is the generator: round the triangle
/// edge 1 goes where edge 4 comes from.
const TRIANGLE: &str = "[[[1,0],[1,0],[1,0]],[[2,1,2],[2,1,2],[2,1,3],[2,2,3]],[[3,1,3,4]]]";

/// The presentation by the chosen field; want of memory stands for a space with several components.
fn presented(alloc: Global, regular: &Regular<'_>) -> Result<Presentation, WordFault>
    ensures { IfOk result (λ p. length p.words ≡ count regular.now 1) }
{
    let components = regular.components(alloc)?;
    if components.count() != 1 {
        return Err(WordFault::Memory);
    }
    let field = tree_field(alloc, regular)?;
    present(alloc, regular, &field)
}

/// The words of all edges, with a 0 after each.
fn words(alloc: Global, space: &Space) -> Result<Vec<i32>, WordFault> {
    let regular = check(alloc, space).map_err(|_| WordFault::Memory)?;
    let presentation = presented(alloc, &regular)?;
    let mut letters = Vec::new(alloc);
    for index in 0..space.cells(1) {
        letters.extend_from_slice(presentation.word(index + 1))?;
        letters.push(0)?;
    }
    Ok(letters)
}

#[test]
fn edges_have_words(rt: HostRuntime) -> Result<(), Fail> {
    let torus = [-2, 0, 1, -2, 0, 1, -2, -1, 0, 0, 0, 1, 0, 0, 2, 0];
    for (text, wanted) in [(TORUS, torus.as_slice()), (TRIANGLE, &[-1, 0, 0, 0, 1, 0])] {
        let space = read(rt.alloc(), text)?;
        let found = words(rt.alloc(), &space)?;
        assert_eq!(rt; found.as_slice(), wanted, "{text}");
    }
    Ok(())
}

/// The generators, and the letters of the relators, with a 0 after each.
fn relations(alloc: Global, space: &Space) -> Result<(Vec<u32>, Vec<i32>), WordFault> {
    let regular = check(alloc, space).map_err(|_| WordFault::Memory)?;
    let presentation = presented(alloc, &regular)?.without_words(alloc);
    let mut letters = Vec::new(alloc);
    for index in 0..presentation.relators() {
        letters.extend_from_slice(presentation.relator(index))?;
        letters.push(0)?;
    }
    Ok((Vec::from_slice(alloc, presentation.generators())?, letters))
}

#[test]
fn critical_cells_present_the_group(rt: HostRuntime) -> Result<(), Fail> {
    for (text, edges, wanted) in [
        (TORUS, [6u32, 8].as_slice(), [-2, 1, 2, -1, 0].as_slice()),
        (TRIANGLE, &[4], &[]),
    ] {
        let space = read(rt.alloc(), text)?;
        let (generators, letters) = relations(rt.alloc(), &space)?;
        assert_eq!(rt; generators.as_slice(), edges, "{text}");
        assert_eq!(rt; letters.as_slice(), wanted, "{text}");
    }
    Ok(())
}

/// For each edge the sheets where it leads from three sheets that the generator turns round; want of memory stands for
/// several generators, and for relators.
fn turned(alloc: Global, space: &Space) -> Result<Vec<u8>, WordFault> {
    let regular = check(alloc, space).map_err(|_| WordFault::Memory)?;
    let presentation = presented(alloc, &regular)?;
    if presentation.generators().len() != 1 || presentation.relators() != 0 {
        return Err(WordFault::Memory);
    }
    let labels = three_sheets(alloc, &presentation)?;
    let mut sheets = Vec::new(alloc);
    for index in 0..space.cells(1) {
        for sheet in 0..labels.sheets() {
            sheets.push(labels.of(index + 1, sheet + 1))?;
        }
    }
    Ok(sheets)
}

/// The labels of three sheets that the one generator turns round.
fn three_sheets(alloc: Global, presentation: &Presentation) -> Result<Labels, AllocError>
    requires generators { length presentation.now.generators ≡ 1 }
    requires relators { presentation.now.relators ≡ [] }
    ensures { IfOk result (λ l. length l.labels ≡ length presentation.now.words) }
{
    let table = Table::from_cells(alloc, 3, 1, &[2, 3, 1])?;
    labels(alloc, presentation, &table)
}

// Edge 1 leads back where edge 4 leads on.
#[test]
fn edges_lead_from_sheet_to_sheet(rt: HostRuntime) -> Result<(), Fail> {
    let space = read(rt.alloc(), TRIANGLE)?;
    let found = turned(rt.alloc(), &space)?;
    let wanted = [3u8, 1, 2, 1, 2, 3, 1, 2, 3, 2, 3, 1];
    assert_eq!(rt; found.as_slice(), wanted.as_slice());
    Ok(())
}
