// The lines of a certificate up to its cover part.
ghost use Rattle.std.specs.Prelude.{◌≡◌, ◌≤◌, ◌∷◌, [], ℕ, length};
ghost use Rattle.std.specs.List.{flat_map};
ghost use Rattle.hap_outside.specs.Causes.{HasCause};
ghost use Rattle.hap_outside.specs.Gathers.{Gathers};
ghost use Rattle.certificates.specs.declared.kind.Kind.TheVariants as kind;
ghost use Rattle.certificates.specs.Degrees.{at};
ghost use Rattle.certificates.specs.Written.{numbered_line, cells_line, four_line, face_text, faces_text};
ghost use Rattle.certificates.specs.Written.{side_line, block_text, blocks_text, product_text, products_text};
ghost use Rattle.certificates.specs.Written.{opening_text, space_text, homology_text};

use crate::certificate::Certificate;
use crate::kind::Kind;
use crate::lines::ProductLine;
use crate::lists::{LinesByDegree, ProductLines};
use crate::put::{put_line, put_listed_line, put_longer_line};
use face_poset::{Graded, Space};
use hap_outside::{Failed, Held, Sink};

/// Puts the version, the modulus and the numbers of cells.
pub(crate) fn put_opening<K: Sink>(
    sink: &mut K,
    held: &mut Held,
    cert: &Certificate,
) -> Result<(), Failed>
    ensures bytes { Gathers (K.written sink.old) (K.written sink.new) held.old held.new
        (opening_text cert.now.version cert.now.modulus cert.now.space) result }
    ensures cause { HasCause (K.faults sink.old) (K.faults sink.new) result }
{
    put_small(sink, held, Kind::Version, cert.version)?;
    put_small(sink, held, Kind::Modulus, cert.modulus)?;
    put_cells(sink, held, &cert.space)
}

/// Puts the faces and the numbers of chains.
pub(crate) fn put_space<K: Sink>(
    sink: &mut K,
    held: &mut Held,
    space: &Space,
    chains: &[u32; 4],
) -> Result<(), Failed>
    ensures bytes { Gathers (K.written sink.old) (K.written sink.new) held.old held.new
        (space_text space.now chains.now) result }
    ensures cause { HasCause (K.faults sink.old) (K.faults sink.new) result }
{
    put_faces(sink, held, space, 1)?;
    put_faces(sink, held, space, 2)?;
    put_faces(sink, held, space, 3)?;
    put_four(sink, held, Kind::Chains, chains)
}

/// Puts the lines of rank, the classes and the products.
pub(crate) fn put_homology<K: Sink>(
    sink: &mut K,
    held: &mut Held,
    ranks: &LinesByDegree,
    classes: &LinesByDegree,
    products: &ProductLines,
) -> Result<(), Failed>
    ensures bytes { Gathers (K.written sink.old) (K.written sink.new) held.old held.new
        (homology_text ranks.now classes.now products.now) result }
    ensures cause { HasCause (K.faults sink.old) (K.faults sink.new) result }
{
    put_blocks(sink, held, Kind::Rank, Kind::RankLine, ranks, 3)?;
    put_blocks(sink, held, Kind::Classes, Kind::ClassLine, classes, 4)?;
    put_products(sink, held, products)
}

/// Puts a line of four numbers.
pub(crate) fn put_four<K: Sink>(
    sink: &mut K,
    held: &mut Held,
    kind: Kind,
    numbers: &[u32; 4],
) -> Result<(), Failed>
    ensures bytes { Gathers (K.written sink.old) (K.written sink.new) held.old held.new
        (four_line kind numbers.now) result }
    ensures cause { HasCause (K.faults sink.old) (K.faults sink.new) result }
{
    put_line(
        sink,
        held,
        kind,
        &[numbers[0], numbers[1], numbers[2], numbers[3]],
    )
}

/// Puts a line of one number.
fn put_small<K: Sink>(sink: &mut K, held: &mut Held, kind: Kind, number: u8) -> Result<(), Failed>
    ensures bytes { Gathers (K.written sink.old) (K.written sink.new) held.old held.new
        (numbered_line kind (number ∷ [])) result }
    ensures cause { HasCause (K.faults sink.old) (K.faults sink.new) result }
{
    put_line(sink, held, kind, &[u32::from(number)])
}

fn put_cells<K: Sink>(sink: &mut K, held: &mut Held, space: &Space) -> Result<(), Failed>
    ensures bytes { Gathers (K.written sink.old) (K.written sink.new) held.old held.new
        (cells_line space.now) result }
    ensures cause { HasCause (K.faults sink.old) (K.faults sink.new) result }
{
    put_line(
        sink,
        held,
        Kind::Cells,
        &[
            space.cells(0),
            space.cells(1),
            space.cells(2),
            space.cells(3),
        ],
    )
}

/// Puts the faces of a dimension from 1 to 3.
fn put_faces<K: Sink>(sink: &mut K, held: &mut Held, space: &Space, dim: u8) -> Result<(), Failed>
    ensures bytes { Gathers (K.written sink.old) (K.written sink.new) held.old held.new
        (faces_text space.now dim) result }
    ensures cause { HasCause (K.faults sink.old) (K.faults sink.new) result }
{
    for index in 0..space.cells(dim) {
        let facets = space.facets(dim, index + 1);
        put_face(sink, held, dim, facets)?;
    }
    Ok(())
}

fn put_face<K: Sink>(sink: &mut K, held: &mut Held, dim: u8, facets: &[u32]) -> Result<(), Failed>
    ensures bytes { Gathers (K.written sink.old) (K.written sink.new) held.old held.new
        (face_text dim facets.now) result }
    ensures cause { HasCause (K.faults sink.old) (K.faults sink.new) result }
{
    put_longer_line(sink, held, Kind::Face, u32::from(dim), facets)
}

/// Puts the lines of the degrees below one, each degree behind a line with their number.
fn put_blocks<K: Sink>(
    sink: &mut K,
    held: &mut Held,
    head: Kind,
    each: Kind,
    lines: &LinesByDegree,
    degrees: u8,
) -> Result<(), Failed>
    requires { degrees ≤ 4 }
    ensures bytes { Gathers (K.written sink.old) (K.written sink.new) held.old held.new
        (blocks_text head each lines.now degrees) result }
    ensures cause { HasCause (K.faults sink.old) (K.faults sink.new) result }
{
    for degree in 0..degrees {
        put_block(sink, held, head, each, lines, degree)?;
    }
    Ok(())
}

/// Puts the lines of a degree behind a line with their number.
fn put_block<K: Sink>(
    sink: &mut K,
    held: &mut Held,
    head: Kind,
    each: Kind,
    lines: &LinesByDegree,
    degree: u8,
) -> Result<(), Failed>
    requires { degree ≤ 3 }
    ensures bytes { Gathers (K.written sink.old) (K.written sink.new) held.old held.new
        (block_text head each lines.now degree) result }
    ensures cause { HasCause (K.faults sink.old) (K.faults sink.new) result }
{
    put_block_head(sink, held, head, lines, degree)?;
    put_degree(sink, held, each, lines, degree)
}

/// Puts the line with the number of the lines of a degree.
fn put_block_head<K: Sink>(
    sink: &mut K,
    held: &mut Held,
    kind: Kind,
    lines: &LinesByDegree,
    degree: u8,
) -> Result<(), Failed>
    requires { degree ≤ 3 }
    ensures bytes { Gathers (K.written sink.old) (K.written sink.new) held.old held.new
        (numbered_line kind (degree ∷ length (at lines.now degree) ∷ [])) result }
    ensures cause { HasCause (K.faults sink.old) (K.faults sink.new) result }
{
    put_line(sink, held, kind, &[u32::from(degree), lines.len(degree)])
}

/// Puts the lines of a degree.
fn put_degree<K: Sink>(
    sink: &mut K,
    held: &mut Held,
    kind: Kind,
    lines: &LinesByDegree,
    degree: u8,
) -> Result<(), Failed>
    requires { degree ≤ 3 }
    ensures bytes { Gathers (K.written sink.old) (K.written sink.new) held.old held.new
        (flat_map (side_line kind) (at lines.now degree)) result }
    ensures cause { HasCause (K.faults sink.old) (K.faults sink.new) result }
{
    for index in 0..lines.len(degree) {
        let line = lines.get(degree, index);
        put_listed_line(sink, held, kind, &[], &line.left, &line.right)?;
    }
    Ok(())
}

/// Puts the products behind a line with their number.
fn put_products<K: Sink>(
    sink: &mut K,
    held: &mut Held,
    products: &ProductLines,
) -> Result<(), Failed>
    ensures bytes { Gathers (K.written sink.old) (K.written sink.new) held.old held.new
        (products_text products.now) result }
    ensures cause { HasCause (K.faults sink.old) (K.faults sink.new) result }
{
    put_products_head(sink, held, products)?;
    put_each_product(sink, held, products)
}

fn put_products_head<K: Sink>(
    sink: &mut K,
    held: &mut Held,
    products: &ProductLines,
) -> Result<(), Failed>
    ensures bytes { Gathers (K.written sink.old) (K.written sink.new) held.old held.new
        (numbered_line kind.Products (length products.now ∷ [])) result }
    ensures cause { HasCause (K.faults sink.old) (K.faults sink.new) result }
{
    put_line(sink, held, Kind::Products, &[products.len()])
}

fn put_each_product<K: Sink>(
    sink: &mut K,
    held: &mut Held,
    products: &ProductLines,
) -> Result<(), Failed>
    ensures bytes { Gathers (K.written sink.old) (K.written sink.new) held.old held.new
        (flat_map product_text products.now) result }
    ensures cause { HasCause (K.faults sink.old) (K.faults sink.new) result }
{
    for index in 0..products.len() {
        put_product(sink, held, products.get(index))?;
    }
    Ok(())
}

fn put_product<K: Sink>(sink: &mut K, held: &mut Held, line: &ProductLine) -> Result<(), Failed>
    ensures bytes { Gathers (K.written sink.old) (K.written sink.new) held.old held.new (product_text line.now) result }
    ensures cause { HasCause (K.faults sink.old) (K.faults sink.new) result }
{
    let numbers = [u32::from(line.i), line.a, u32::from(line.j), line.b];
    put_listed_line(
        sink,
        held,
        Kind::ProductLine,
        &numbers,
        &line.coefficients,
        &line.bound,
    )
}
