ghost use Rattle.std.specs.Prelude.{◌≡◌, ◌<◌, ◌≤◌, ◌++◌, ◌∷◌, [], length, slice_index_or, slice_set, OnOk, OnErr};
ghost use Rattle.certificates.specs.Degrees.{at};

use crate::lines::{CoverLine, Line, PairLine, ProductLine};
use std::alloc::{AllocError, Global};
use std::marker::Model;

/// Product lines, which contracts see as a list. It has at most 2^32 - 1 of them.
#[derive(Drop)]
pub struct ProductLines {
    items: Vec<ProductLine>,
}

impl Model for ProductLines {
    ghost use Rattle.std.specs.Prelude.{List, ◌≤◌, length};
    ghost use Rattle.certificates.specs.declared.lines.ProductLine.{ProductLine};

    ghost Value = { List ProductLine };

    ghost view = { λ s. s.items.items };

    ghost invariant = { λ s. length s.items.items ≤ 4294967295 };
}

impl ProductLines {
    /// The empty list.
    pub fn new(alloc: Global) -> ProductLines
        ensures { result ≡ [] }
    {
        ProductLines {
            items: Vec::new(alloc),
        }
    }

    /// How many there are.
    pub fn len(&self) -> u32
        ensures { result ≡ length self.now }
    {
        self.items.len() as u32
    }

    /// The item at an index, counted from 0.
    pub fn get(&self, index: u32) -> &ProductLine
        requires { index < length self.now }
        ensures { result.now ≡ slice_index_or self.now index result.now }
    {
        &self.items[index as usize]
    }

    /// Puts an item last. On an error the list stays as it was.
    pub fn push(&mut self, item: ProductLine) -> Result<(), AllocError>
        ensures pushed { OnOk result (self.new ≡ self.old ++ item ∷ []) }
        ensures kept { OnErr result (self.new ≡ self.old) }
    {
        if self.items.len() == u32::MAX as usize {
            return Err(AllocError);
        }
        self.items.push(item)?;
        Ok(())
    }
}

/// Pairs, which contracts see as a list. It has at most 2^32 - 1 of them.
#[derive(Drop)]
pub struct PairLines {
    items: Vec<PairLine>,
}

impl Model for PairLines {
    ghost use Rattle.std.specs.Prelude.{List, ◌≤◌, length};
    ghost use Rattle.certificates.specs.declared.lines.PairLine.{PairLine};

    ghost Value = { List PairLine };

    ghost view = { λ s. s.items.items };

    ghost invariant = { λ s. length s.items.items ≤ 4294967295 };
}

impl PairLines {
    /// The empty list.
    pub fn new(alloc: Global) -> PairLines
        ensures { result ≡ [] }
    {
        PairLines {
            items: Vec::new(alloc),
        }
    }

    /// How many there are.
    pub fn len(&self) -> u32
        ensures { result ≡ length self.now }
    {
        self.items.len() as u32
    }

    /// The item at an index, counted from 0.
    pub fn get(&self, index: u32) -> &PairLine
        requires { index < length self.now }
        ensures { result.now ≡ slice_index_or self.now index result.now }
    {
        &self.items[index as usize]
    }

    /// Puts an item last. On an error the list stays as it was.
    pub fn push(&mut self, item: PairLine) -> Result<(), AllocError>
        ensures pushed { OnOk result (self.new ≡ self.old ++ item ∷ []) }
        ensures kept { OnErr result (self.new ≡ self.old) }
    {
        if self.items.len() == u32::MAX as usize {
            return Err(AllocError);
        }
        self.items.push(item)?;
        Ok(())
    }
}

/// Covers, which contracts see as a list. It has at most 2^32 - 1 of them.
#[derive(Drop)]
pub struct CoverLines {
    items: Vec<CoverLine>,
}

impl Model for CoverLines {
    ghost use Rattle.std.specs.Prelude.{List, ◌≤◌, length};
    ghost use Rattle.certificates.specs.declared.lines.CoverLine.{CoverLine};

    ghost Value = { List CoverLine };

    ghost view = { λ s. s.items.items };

    ghost invariant = { λ s. length s.items.items ≤ 4294967295 };
}

impl CoverLines {
    /// The empty list.
    pub fn new(alloc: Global) -> CoverLines
        ensures { result ≡ [] }
    {
        CoverLines {
            items: Vec::new(alloc),
        }
    }

    /// How many there are.
    pub fn len(&self) -> u32
        ensures { result ≡ length self.now }
    {
        self.items.len() as u32
    }

    /// The item at an index, counted from 0.
    pub fn get(&self, index: u32) -> &CoverLine
        requires { index < length self.now }
        ensures { result.now ≡ slice_index_or self.now index result.now }
    {
        &self.items[index as usize]
    }

    /// Puts an item last. On an error the list stays as it was.
    pub fn push(&mut self, item: CoverLine) -> Result<(), AllocError>
        ensures pushed { OnOk result (self.new ≡ self.old ++ item ∷ []) }
        ensures kept { OnErr result (self.new ≡ self.old) }
    {
        if self.items.len() == u32::MAX as usize {
            return Err(AllocError);
        }
        self.items.push(item)?;
        Ok(())
    }
}

/// The lines of one degree, which contracts see as a list. It has at most 2^32 - 1 of them.
#[derive(Drop)]
pub(crate) struct DegreeLines {
    items: Vec<Line>,
}

impl Model for DegreeLines {
    ghost use Rattle.std.specs.Prelude.{List, ◌≤◌, length};
    ghost use Rattle.certificates.specs.declared.lines.Line.{Line};

    ghost Value = { List Line };

    ghost view = { λ s. s.items.items };

    ghost invariant = { λ s. length s.items.items ≤ 4294967295 };
}

impl DegreeLines {
    /// The empty list.
    pub(crate) fn new(alloc: Global) -> DegreeLines
        ensures { result ≡ [] }
    {
        DegreeLines {
            items: Vec::new(alloc),
        }
    }

    /// How many there are.
    pub(crate) fn len(&self) -> u32
        ensures { result ≡ length self.now }
    {
        self.items.len() as u32
    }

    /// The item at an index, counted from 0.
    pub(crate) fn get(&self, index: u32) -> &Line
        requires { index < length self.now }
        ensures { result.now ≡ slice_index_or self.now index result.now }
    {
        &self.items[index as usize]
    }

    /// Puts an item last. On an error the list stays as it was.
    pub(crate) fn push(&mut self, item: Line) -> Result<(), AllocError>
        ensures pushed { OnOk result (self.new ≡ self.old ++ item ∷ []) }
        ensures kept { OnErr result (self.new ≡ self.old) }
    {
        if self.items.len() == u32::MAX as usize {
            return Err(AllocError);
        }
        self.items.push(item)?;
        Ok(())
    }
}

/// Lines of rank or of classes by their degree, from 0 to 3. Contracts see a list of four lists.
#[derive(Drop)]
pub struct LinesByDegree {
    degrees: [DegreeLines; 4],
}

impl Model for LinesByDegree {
    ghost use Rattle.std.specs.Prelude.{List, ◌≡◌, length};
    ghost use Rattle.certificates.specs.declared.lines.Line.{Line};

    ghost Value = { List (List Line) };

    ghost view = { λ s. s.degrees };

    ghost invariant = { λ s. length s.degrees ≡ 4 };
}

impl LinesByDegree {
    /// No line of any degree.
    pub fn new(alloc: Global) -> LinesByDegree
        ensures { result ≡ [] ∷ [] ∷ [] ∷ [] ∷ [] }
    {
        LinesByDegree {
            degrees: [
                DegreeLines::new(alloc),
                DegreeLines::new(alloc),
                DegreeLines::new(alloc),
                DegreeLines::new(alloc),
            ],
        }
    }

    /// How many lines of a degree there are.
    pub fn len(&self, degree: u8) -> u32
        requires { degree ≤ 3 }
        ensures { result ≡ length (at self.now degree) }
    {
        self.degrees[degree as usize].len()
    }

    /// The line of a degree at an index, counted from 0.
    pub fn get(&self, degree: u8, index: u32) -> &Line
        requires degree { degree ≤ 3 }
        requires index { index < length (at self.now degree) }
        ensures { result.now ≡ slice_index_or (at self.now degree) index result.now }
    {
        self.degrees[degree as usize].get(index)
    }

    /// Puts a line last in a degree. On an error all stays as it was.
    pub fn push(&mut self, degree: u8, item: Line) -> Result<(), AllocError>
        requires { degree ≤ 3 }
        ensures pushed { OnOk result (self.new ≡ slice_set self.old degree (at self.old degree ++ item ∷ [])) }
        ensures kept { OnErr result (self.new ≡ self.old) }
    {
        self.degrees[degree as usize].push(item)
    }
}
