// That the signs of a signed set cancel.
ghost use Rattle.std.specs.Prelude.{◌≡◌, ◌≤◌, true, false};
ghost use Rattle.face_poset.specs.Poset.{count, IsSpace};
ghost use Rattle.face_poset.specs.Signs.{SignsCancel};

use face_poset::Signed;

/// Asks for one sign, where there is one over two steps: what a sign says of itself holds for all of them.
pub(crate) fn ask_signs<G: Signed>(graded: &G)
    ensures valid { IsSpace (G.space graded.now) }
    ensures cancel { SignsCancel (G.space graded.now) (G.negative graded.now) }
{
    if ask_sign(graded, 2) {
        return;
    }
    let _above = ask_sign(graded, 3);
}

/// Asks for the sign of the first facet of the first cell of a dimension, and answers whether there is one.
fn ask_sign<G: Signed>(graded: &G, dim: u8) -> bool
    requires { 1 ≤ dim }
    ensures valid { IsSpace (G.space graded.now) }
    ensures cancel { result ≡ true → SignsCancel (G.space graded.now) (G.negative graded.now) }
    ensures none { result ≡ false → count (G.space graded.now) dim ≡ 0 }
{
    if graded.cells(dim) == 0 {
        return false;
    }
    let facets = graded.facets(dim, 1);
    let _sign = graded.sign(dim, 1, facets[0]);
    true
}
