// Bases of cocycles with dual cycles, and the rank lines, degree by degree.
ghost use Rattle.std.specs.Prelude.{◌≡◌, ◌<◌, ◌≤◌, true, length, IfOk};
ghost use Rattle.chain_laws.specs.AllLines.{lines_of, homology_holds};
ghost use Rattle.cohomology.specs.Bases.{line_at, lists_in, AreCocycleBases, AreExtended, AreFlowed, AreOfCritical};
ghost use Rattle.cohomology.specs.Bases.{HaveDualCycles, HaveSidesInRange};
ghost use Rattle.cohomology.specs.Bases.{AreAllClasses};
ghost use Rattle.cohomology.specs.Echelons.{AreEchelons, AreRowsOf};
ghost use Rattle.cohomology.specs.RankLines.{AreAllRanks};

use crate::classes::class_lines;
use crate::echelons::Echelons;
use crate::line::Line;
use crate::lists::{ClassLines, Lines, RankLines};
use crate::ranks::rank_lines;
use chain_laws::equations_are_tests;
use critical_complex::Reduced;
use field_matrix::Matrix;
use order_complex::{Chains, betti_is_one_number};
use small_field::{Field, Sparse};
use split_laws::{
    bases_extend, betti_by_reduced_ranks, cells_are_counted, extensions_commute, extensions_pair,
    flows_commute, solutions_are_one, solutions_combine,
};
use std::alloc::{AllocError, Global};
use std::marker::Model;

/// In each degree from 0 to 3 a basis of the cocycles modulo coboundaries, with dual cycles, and the rank lines that
/// show that there are no more of them. Contracts see the lines by degree: a class line has a cocycle on its left side
/// and its dual cycle on the right; the coboundary of the left side of a rank line is not zero on its own right side,
/// and zero on those of the rank lines before.
#[derive(Drop)]
pub struct Bases {
    lines: Lines,
}

impl Model for Bases {
    ghost use Rattle.cohomology.specs.Bases.{lists_in, HomologyLines};

    ghost Value = { HomologyLines };

    ghost view = { λ s. lists_in s.lines };
}

impl Bases {
    /// Bases of the cocycles on the chains of a space modulo coboundaries, with cycles that are dual to them:
    /// extensions of bases of the reduced cocycles, and flows of dual vectors. The rank lines of a degree are first
    /// those of the units, in their order, and then one for each row with a pivot of the echelon form. Only memory may
    /// be wanting. (Cohomology of a complex over a field, by elimination; textbook.)
    pub fn new<F: Field>(
        alloc: Global,
        chains: &Chains<'_>,
        reduced: &Reduced<F>,
        echelons: &Echelons<F>,
    ) -> Result<Bases, AllocError>
        requires echelons { AreEchelons F.ops reduced.now echelons.now }
        requires rows { AreRowsOf F.ops reduced.now chains.now }
        ensures lines { IfOk result (λ b. homology_holds F.ops chains.now b.ranks b.classes ≡ true) }
        ensures basis { IfOk result (λ b. AreCocycleBases F.ops chains.now b.classes) }
        ensures duals { IfOk result (λ b. HaveDualCycles F.ops chains.now b.classes) }
        ensures entries { IfOk result (HaveSidesInRange F.ops chains.now) }
        ensures extensions { IfOk result (λ b. AreExtended F.ops reduced.now b.classes) }
        ensures flows { IfOk result (λ b. AreFlowed F.ops reduced.now b.classes) }
        ensures critical { IfOk result (λ b. AreOfCritical F.ops reduced.now b.classes) }
    {
        solutions_are_one::<F>();
        solutions_combine::<F>();
        bases_extend::<F>();
        extensions_pair::<F>();
        flows_commute::<F>();
        extensions_commute::<F>();
        cells_are_counted::<F>();
        betti_by_reduced_ranks::<F>();
        betti_is_one_number::<F>();
        equations_are_tests::<F>();
        let ranks = all_ranks(alloc, reduced, echelons)?;
        let classes = all_classes(alloc, reduced, echelons)?;
        Ok(Bases {
            lines: Lines { ranks, classes },
        })
    }

    /// The rank lines of a degree from 0 to 2.
    pub fn ranks(&self, degree: u8) -> &[Line]
        requires { degree ≤ 2 }
        ensures { result.now ≡ lines_of self.now.ranks degree }
    {
        self.lines.ranks.of(degree)
    }

    /// The class lines of a degree from 0 to 3.
    pub fn classes(&self, degree: u8) -> &[Line]
        requires { degree ≤ 3 }
        ensures { result.now ≡ lines_of self.now.classes degree }
    {
        self.lines.classes.of(degree)
    }

    /// The cocycle of a degree at an index, which counts from 0.
    pub fn cocycle(&self, degree: u8, index: u32) -> &Sparse
        requires degree { degree ≤ 3 }
        requires index { index < length (lines_of self.now.classes degree) }
        ensures { result.now ≡ (line_at self.now.classes degree index).left }
    {
        self.classes(degree)[index as usize].left()
    }

    /// The dual cycle of a degree at an index, which counts from 0.
    pub fn dual(&self, degree: u8, index: u32) -> &Sparse
        requires degree { degree ≤ 3 }
        requires index { index < length (lines_of self.now.classes degree) }
        ensures { result.now ≡ (line_at self.now.classes degree index).right }
    {
        self.classes(degree)[index as usize].right()
    }

    /// The lines, without a copy.
    pub fn into_lines(self) -> Lines
        ensures { lists_in result ≡ self }
    {
        self.lines
    }
}

/// The rank lines of all degrees.
fn all_ranks<F: Field>(
    alloc: Global,
    reduced: &Reduced<F>,
    echelons: &Echelons<F>,
) -> Result<RankLines, AllocError>
    requires { AreEchelons F.ops reduced.now echelons.now }
    ensures { IfOk result (AreAllRanks F.ops reduced.now echelons.now) }
{
    Ok(RankLines {
        zero: rank_lines(alloc, reduced, 0, &echelons.first)?,
        one: rank_lines(alloc, reduced, 1, &echelons.second)?,
        two: rank_lines(alloc, reduced, 2, &echelons.third)?,
    })
}

/// The class lines of all degrees.
fn all_classes<F: Field>(
    alloc: Global,
    reduced: &Reduced<F>,
    echelons: &Echelons<F>,
) -> Result<ClassLines, AllocError>
    requires { AreEchelons F.ops reduced.now echelons.now }
    ensures { IfOk result (AreAllClasses F.ops reduced.now) }
{
    let cells = reduced.criticals(0);
    let none = Matrix::new(alloc, 0, cells)?;
    Ok(ClassLines {
        zero: class_lines(alloc, reduced, 0, &none)?,
        one: class_lines(alloc, reduced, 1, &echelons.first.reduced)?,
        two: class_lines(alloc, reduced, 2, &echelons.second.reduced)?,
        three: class_lines(alloc, reduced, 3, &echelons.third.reduced)?,
    })
}
