ghost use Rattle.std.specs.Prelude.{◌≡◌, ◌<◌, ◌≤◌, ◌++◌, ◌∷◌, [], length, slice_index_or, OnOk, OnErr};

use crate::lists::{CoverLines, LinesByDegree, PairLines, ProductLines};
use face_poset::Space;
use sheet_tables::Spot;
use std::alloc::{AllocError, Global};
use std::marker::Model;

/// How the search for covers ended.
#[derive(Drop)]
pub enum Ending {
    Done,
    /// The budget was spent at this spot.
    Spent(Spot),
}

/// The covers of one component, components counted from 1. The number is that of the line `covers` in
/// the text, or in version 1 of the line `sheets`.
#[derive(Drop)]
pub struct Section {
    pub number: u32,
    pub component: u32,
    pub covers: CoverLines,
}

/// The field of pairs and the listing of covers: the pairs in the field's order, the number of the line
/// `critical` and the numbers of critical cells by dimension, the critical edges of each component, the
/// most sheets, and from where the covers are listed.
#[derive(Drop)]
pub struct CoverPart {
    pub pairs: PairLines,
    pub critical_line: u32,
    pub critical: [u32; 4],
    pub columns: Numbers,
    pub sheets: u8,
    pub from: Spot,
    pub sections: Sections,
    pub ending: Ending,
}

/// A certificate. `chains` are the numbers of chains by degree from 0 to 3; lines of rank, classes and
/// products are over the field with `modulus` elements.
#[derive(Drop)]
pub struct Certificate {
    pub version: u8,
    pub modulus: u8,
    pub space: Space,
    pub chains: [u32; 4],
    pub ranks: LinesByDegree,
    pub classes: LinesByDegree,
    pub products: ProductLines,
    pub cover: Option<CoverPart>,
}

/// Sections, which contracts see as a list. It has at most 2^32 - 1 of them.
#[derive(Drop)]
pub struct Sections {
    items: Vec<Section>,
}

impl Model for Sections {
    ghost use Rattle.std.specs.Prelude.{List, ◌≤◌, length};
    ghost use Rattle.certificates.specs.declared.certificate.Section.{Section};

    ghost Value = { List Section };

    ghost view = { λ s. s.items.items };

    ghost invariant = { λ s. length s.items.items ≤ 4294967295 };
}

impl Sections {
    /// The empty list.
    pub fn new(alloc: Global) -> Sections
        ensures { result ≡ [] }
    {
        Sections {
            items: Vec::new(alloc),
        }
    }

    /// How many there are.
    pub fn len(&self) -> u32
        ensures { result ≡ length self.now }
    {
        self.items.len() as u32
    }

    /// The item at an index, counted from 0.
    pub fn get(&self, index: u32) -> &Section
        requires { index < length self.now }
        ensures { result.now ≡ slice_index_or self.now index result.now }
    {
        &self.items[index as usize]
    }

    /// Puts an item last. On an error the list stays as it was.
    pub fn push(&mut self, item: Section) -> Result<(), AllocError>
        ensures pushed { OnOk result (self.new ≡ self.old ++ item ∷ []) }
        ensures kept { OnErr result (self.new ≡ self.old) }
    {
        if self.items.len() == u32::MAX as usize {
            return Err(AllocError);
        }
        self.items.push(item)?;
        Ok(())
    }
}

/// Numbers, which contracts see as a list. It has at most 2^32 - 1 of them.
#[derive(Drop)]
pub struct Numbers {
    items: Vec<u32>,
}

impl Model for Numbers {
    ghost use Rattle.std.specs.Prelude.{List, ℕ, ◌≤◌, length};

    ghost Value = { List ℕ };

    ghost view = { λ s. s.items.items };

    ghost invariant = { λ s. length s.items.items ≤ 4294967295 };
}

impl Numbers {
    /// The empty list.
    pub fn new(alloc: Global) -> Numbers
        ensures { result ≡ [] }
    {
        Numbers {
            items: Vec::new(alloc),
        }
    }

    /// How many there are.
    pub fn len(&self) -> u32
        ensures { result ≡ length self.now }
    {
        self.items.len() as u32
    }

    /// The number at an index, counted from 0.
    pub fn get(&self, index: u32) -> u32
        requires { index < length self.now }
        ensures { result ≡ slice_index_or self.now index 0 }
    {
        self.items[index as usize]
    }

    /// Puts a number last. On an error the list stays as it was.
    pub fn push(&mut self, item: u32) -> Result<(), AllocError>
        ensures pushed { OnOk result (self.new ≡ self.old ++ item ∷ []) }
        ensures kept { OnErr result (self.new ≡ self.old) }
    {
        if self.items.len() == u32::MAX as usize {
            return Err(AllocError);
        }
        self.items.push(item)?;
        Ok(())
    }
}
