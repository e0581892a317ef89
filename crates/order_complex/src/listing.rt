// The listing of chains, degree by degree.
ghost use Rattle.std.specs.Prelude.{◌≡◌, ◌≤◌, ◌<◌, ◌∷◌, ◌++◌, [], map, length, slice_index_or, IfOk, OnOk};
ghost use Rattle.std.specs.List.{flat_map};
ghost use Rattle.face_poset.specs.Words.{upto};
ghost use Rattle.order_complex.specs.Listing.{extensions, AreWalks};

use number_lists::Lists;
use std::alloc::{AllocError, Global};
use std::marker::Model;

/// Chains of degrees 0 to 3, each as the list of its ids, which contracts see as four lists of chains.
#[derive(Drop)]
pub struct ChainLists {
    points: Vec<[u32; 1]>,
    edges: Vec<[u32; 2]>,
    triangles: Vec<[u32; 3]>,
    tetrahedra: Vec<[u32; 4]>,
}

impl Model for ChainLists {
    ghost use Rattle.std.specs.Prelude.{◌∷◌, [], List, ℕ};
    ghost use Rattle.face_poset.specs.Poset.{Layers};

    ghost Value = { Layers };

    ghost view = { λ s. s.points.items ∷ s.edges.items ∷ s.triangles.items ∷ s.tetrahedra.items ∷ [] };
}

impl ChainLists {
    pub fn new(
        points: Vec<[u32; 1]>,
        edges: Vec<[u32; 2]>,
        triangles: Vec<[u32; 3]>,
        tetrahedra: Vec<[u32; 4]>,
    ) -> ChainLists
        ensures { result ≡ points.items ∷ edges.items ∷ triangles.items ∷ tetrahedra.items ∷ [] }
    {
        ChainLists {
            points,
            edges,
            triangles,
            tetrahedra,
        }
    }

    /// How many chains of a degree there are.
    pub fn len(&self, degree: u8) -> usize
        requires { degree ≤ 3 }
        ensures { result ≡ length (slice_index_or self.now degree []) }
    {
        match degree {
            0 => self.points.len(),
            1 => self.edges.len(),
            2 => self.triangles.len(),
            _ => self.tetrahedra.len(),
        }
    }

    /// The chain of a degree at an index, counted from 0.
    pub fn get(&self, degree: u8, index: usize) -> &[u32]
        requires degree { degree ≤ 3 }
        requires index { index < length (slice_index_or self.now degree []) }
        ensures { result.now ≡ slice_index_or (slice_index_or self.now degree []) index [] }
    {
        match degree {
            0 => &self.points[index],
            1 => &self.edges[index],
            2 => &self.triangles[index],
            _ => &self.tetrahedra[index],
        }
    }

    /// The chains of one cell.
    pub fn points(&self) -> &[[u32; 1]]
        ensures { result.now ≡ slice_index_or self.now 0 [] }
    {
        &self.points
    }

    /// The chains of two cells.
    pub fn edges(&self) -> &[[u32; 2]]
        ensures { result.now ≡ slice_index_or self.now 1 [] }
    {
        &self.edges
    }

    /// The chains of three cells.
    pub fn triangles(&self) -> &[[u32; 3]]
        ensures { result.now ≡ slice_index_or self.now 2 [] }
    {
        &self.triangles
    }
}

/// The chains of one cell each.
pub fn list_points(alloc: Global, cells: usize) -> Result<Vec<[u32; 1]>, AllocError>
    requires { cells ≤ 60000 }
    ensures { IfOk result (λ points. points.items ≡ map (λ cell. cell ∷ []) (upto cells)) }
{
    let mut points = Vec::new(alloc);
    for index in 0..cells {
        points.push([index as u32 + 1])?;
    }
    Ok(points)
}

/// The chains of two cells, from those of one, where `uppers` lists the cells above each cell.
pub fn list_edges(
    alloc: Global,
    points: &[[u32; 1]],
    uppers: &Lists,
) -> Result<Vec<[u32; 2]>, AllocError>
    requires { AreWalks uppers.now points.now }
    ensures { IfOk result (λ edges. edges.items ≡ flat_map (extensions uppers.now) points.now) }
{
    let mut edges = Vec::new(alloc);
    for index in 0..points.len() {
        let chain: &[u32] = &points[index];
        let last = chain[chain.len() - 1];
        push_edges(&mut edges, points, index, uppers.get(last as usize - 1))?;
    }
    Ok(edges)
}

/// Puts the chain at an index with each of the cells at its end last.
fn push_edges(
    edges: &mut Vec<[u32; 2]>,
    points: &[[u32; 1]],
    index: usize,
    uppers: &[u32],
) -> Result<(), AllocError>
    requires { index < length points.now }
    ensures { OnOk result
        (edges.new.items
        ≡ edges.old.items
        ++ map (λ upper. slice_index_or points.now index [] ++ upper ∷ []) uppers.now) }
{
    let [first] = points[index];
    for upper in uppers {
        edges.push([first, *upper])?;
    }
    Ok(())
}

/// The chains of three cells, from those of two.
pub fn list_triangles(
    alloc: Global,
    edges: &[[u32; 2]],
    uppers: &Lists,
) -> Result<Vec<[u32; 3]>, AllocError>
    requires { AreWalks uppers.now edges.now }
    ensures { IfOk result (λ triangles. triangles.items ≡ flat_map (extensions uppers.now) edges.now) }
{
    let mut triangles = Vec::new(alloc);
    for index in 0..edges.len() {
        let chain: &[u32] = &edges[index];
        let last = chain[chain.len() - 1];
        push_triangles(&mut triangles, edges, index, uppers.get(last as usize - 1))?;
    }
    Ok(triangles)
}

/// Puts the chain at an index with each of the cells at its end last.
fn push_triangles(
    triangles: &mut Vec<[u32; 3]>,
    edges: &[[u32; 2]],
    index: usize,
    uppers: &[u32],
) -> Result<(), AllocError>
    requires { index < length edges.now }
    ensures { OnOk result
        (triangles.new.items
        ≡ triangles.old.items
        ++ map (λ upper. slice_index_or edges.now index [] ++ upper ∷ []) uppers.now) }
{
    let [first, second] = edges[index];
    for upper in uppers {
        triangles.push([first, second, *upper])?;
    }
    Ok(())
}

/// The chains of four cells, from those of three.
pub fn list_tetrahedra(
    alloc: Global,
    triangles: &[[u32; 3]],
    uppers: &Lists,
) -> Result<Vec<[u32; 4]>, AllocError>
    requires { AreWalks uppers.now triangles.now }
    ensures { IfOk result (λ tetrahedra. tetrahedra.items ≡ flat_map (extensions uppers.now) triangles.now) }
{
    let mut tetrahedra = Vec::new(alloc);
    for index in 0..triangles.len() {
        let chain: &[u32] = &triangles[index];
        let last = chain[chain.len() - 1];
        push_tetrahedra(
            &mut tetrahedra,
            triangles,
            index,
            uppers.get(last as usize - 1),
        )?;
    }
    Ok(tetrahedra)
}

/// Puts the chain at an index with each of the cells at its end last.
fn push_tetrahedra(
    tetrahedra: &mut Vec<[u32; 4]>,
    triangles: &[[u32; 3]],
    index: usize,
    uppers: &[u32],
) -> Result<(), AllocError>
    requires { index < length triangles.now }
    ensures { OnOk result
        (tetrahedra.new.items
        ≡ tetrahedra.old.items
        ++ map (λ upper. slice_index_or triangles.now index [] ++ upper ∷ []) uppers.now) }
{
    let [first, second, third] = triangles[index];
    for upper in uppers {
        tetrahedra.push([first, second, third, *upper])?;
    }
    Ok(())
}
