ghost use Rattle.std.specs.Prelude.{◌≡◌, ◌==◌, ◌≤◌, ◌+◌, length, map};
ghost use Rattle.std.specs.List.{range_with_len};
ghost use Rattle.certificates.specs.WellFormed.{product_order, places};
ghost use Rattle.cert_lines.specs.Readers.{each};
ghost use Rattle.cert_text.specs.Reading as reading;
ghost use Rattle.cert_lines.specs.Taken.{Reads};
ghost use Rattle.cert_text.specs.Taking.{onto, place_of, quadruple};

use cert_lines::{
    CertFault, LineKind, Lines, entries_at, entries_behind_bar, first_numbers, take, take_numbers,
};
use certificates::{Kind, LinesByDegree, ProductLine, ProductLines};
use std::alloc::Global;

/// What the lines of products are read with.
#[derive(Clone, Copy)]
struct ProductFrame<'a> {
    version: u8,
    modulus: u8,
    chains: [u32; 4],
    classes: &'a LinesByDegree,
}

/// Which product: class `a` of degree `i` with class `b` of degree `j`, classes counted from 1.
#[derive(Clone, Copy)]
pub struct Place {
    i: u8,
    a: u32,
    j: u8,
    b: u32,
}

/// The products, in their order.
pub fn read_products(
    alloc: Global,
    lines: &mut Lines<'_>,
    version: u8,
    modulus: u8,
    chains: [u32; 4],
    classes: &LinesByDegree,
) -> Result<ProductLines, CertFault>
    ensures { Reads (λ products. products)
        (reading.read_products version modulus chains classes.now lines.old) lines.new result }
{
    let number = lines.number();
    let stated = take_numbers(lines, version, Kind::Products)?[0];
    let ones = classes.len(1);
    let twos = classes.len(2);
    if !is_count(stated, ones, twos) {
        return Err(CertFault::OutOfRange(number));
    }
    let frame = ProductFrame {
        version,
        modulus,
        chains,
        classes,
    };
    read_all(alloc, lines, frame, ones, twos)
}

/// Whether there are so many products, where there are so many classes of degrees 1 and 2.
fn is_count(stated: u64, ones: u32, twos: u32) -> bool
    ensures { result ≡ (stated == length (product_order ones twos)) }
{
    u128::from(stated) == u128::from(ones) * (u128::from(ones) + 2 * u128::from(twos))
}

/// All products, degrees (1, 1), (1, 2) and (2, 1) one after another.
fn read_all(
    alloc: Global,
    lines: &mut Lines<'_>,
    frame: ProductFrame<'_>,
    ones: u32,
    twos: u32,
) -> Result<ProductLines, CertFault>
    ensures { Reads (λ products. products)
        (each (reading.read_product frame.entry.version frame.entry.modulus frame.entry.chains frame.entry.classes.now)
        (product_order ones twos) lines.old)
        lines.new result }
{
    let mut products = ProductLines::new(alloc);
    read_degrees(alloc, lines, frame, 1, ones, 1, ones, &mut products)?;
    read_degrees(alloc, lines, frame, 1, ones, 2, twos, &mut products)?;
    read_degrees(alloc, lines, frame, 2, twos, 1, ones, &mut products)?;
    Ok(products)
}

/// The products of so many classes of degree `i` with so many of degree `j`.
fn read_degrees(
    alloc: Global,
    lines: &mut Lines<'_>,
    frame: ProductFrame<'_>,
    i: u8,
    firsts: u32,
    j: u8,
    seconds: u32,
    products: &mut ProductLines,
) -> Result<(), CertFault>
    requires some { 1 ≤ i }
    requires high { i + j ≤ 3 }
    ensures { Reads (λ _. products.new)
        (onto products.old
        (each (reading.read_product frame.entry.version frame.entry.modulus frame.entry.chains frame.entry.classes.now)
        (places i firsts j seconds) lines.old))
        lines.new result }
{
    let mut done: u32 = 0;
    'firsts: while done < firsts {
        read_row(alloc, lines, frame, i, done + 1, j, seconds, products)?;
        done += 1;
    }
    Ok(())
}

/// The products of one class of degree `i` with so many of degree `j`.
fn read_row(
    alloc: Global,
    lines: &mut Lines<'_>,
    frame: ProductFrame<'_>,
    i: u8,
    a: u32,
    j: u8,
    seconds: u32,
    products: &mut ProductLines,
) -> Result<(), CertFault>
    requires some { 1 ≤ i }
    requires high { i + j ≤ 3 }
    ensures { Reads (λ _. products.new)
        (onto products.old
        (each (reading.read_product frame.entry.version frame.entry.modulus frame.entry.chains frame.entry.classes.now)
        (map (λ b. (i, a, j, b)) (range_with_len 1 seconds)) lines.old))
        lines.new result }
{
    let mut done: u32 = 0;
    'seconds: while done < seconds {
        let place = Place {
            i,
            a,
            j,
            b: done + 1,
        };
        let product = read_product(alloc, lines, frame, place)?;
        products.push(product)?;
        done += 1;
    }
    Ok(())
}

/// The product at a place.
fn read_product(
    alloc: Global,
    lines: &mut Lines<'_>,
    frame: ProductFrame<'_>,
    place: Place,
) -> Result<ProductLine, CertFault>
    requires some { 1 ≤ place.i }
    requires high { place.i + place.j ≤ 3 }
    ensures { Reads (λ product. product)
        (reading.read_product frame.entry.version frame.entry.modulus frame.entry.chains frame.entry.classes.now (place_of place)
        lines.old)
        lines.new result }
{
    let number = lines.number();
    let line = take(lines, frame.version, LineKind::Plain(Kind::ProductLine))?;
    if !is_at(first_numbers(line), place) {
        return Err(CertFault::OutOfRange(number));
    }
    let degree = place.i + place.j;
    match entries_at(alloc, line, 4, frame.modulus, frame.classes.len(degree))? {
        None => Err(CertFault::OutOfRange(number)),
        Some(coefficients) => {
            let most = frame.chains[degree as usize - 1];
            match entries_behind_bar(alloc, line, frame.modulus, most)? {
                None => Err(CertFault::OutOfRange(number)),
                Some(bound) => Ok(ProductLine {
                    number,
                    i: place.i,
                    a: place.a,
                    j: place.j,
                    b: place.b,
                    coefficients,
                    bound,
                }),
            }
        }
    }
}

fn is_at(numbers: [u64; 4], place: Place) -> bool
    ensures { result ≡ reading.same_place (quadruple numbers) (place_of place) }
{
    let [i, a, j, b] = numbers;
    i == u64::from(place.i)
        && a == u64::from(place.a)
        && j == u64::from(place.j)
        && b == u64::from(place.b)
}
