// The multiples of a factor.
ghost use Rattle.std.specs.Prelude.{◌≡◌, ◌+◌, ◌*◌, ◌%◌, ◌<◌, ◌≤◌};
ghost use Rattle.lane_rows.specs.Lanes.{multiples_of};

/// The multiples of a factor modulo `p`. No division is left where the compiler knows `p`.
pub(crate) fn multiples(factor: u8, p: u8) -> [u8; 16]
    requires modulus { 1 < p }
    requires small { p ≤ 13 }
    requires factor { factor < p }
    ensures { result ≡ multiples_of p factor }
{
    match p {
        2 => multiples_by(factor, 2),
        3 => multiples_by(factor, 3),
        5 => multiples_by(factor, 5),
        7 => multiples_by(factor, 7),
        11 => multiples_by(factor, 11),
        13 => multiples_by(factor, 13),
        _ => multiples_by(factor, p),
    }
}

#[inline(always)]
fn multiples_by(factor: u8, p: u8) -> [u8; 16]
    requires modulus { 1 < p }
    requires small { p ≤ 13 }
    requires factor { factor < p }
    ensures { result ≡ multiples_of p factor }
{
    let mut products = [0; 16];
    for i in 0..16 {
        products[i] = factor * i as u8 % p;
    }
    products
}
