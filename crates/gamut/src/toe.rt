// The toe, which takes Oklab's lightness to that of Okhsl and Okhsv, and its inverse.
ghost use Rattle.std.specs.Prelude.{◌≡◌};
ghost use Rattle.number.specs.Ops.{basic};
ghost use Rattle.rational.specs.Toe.{k3 as ratio, toe_u, toe_square};
ghost use Rattle.gamut.specs.Toe.{toe as toe_of, toe_inv};

use number::{Literal, Number, Stage, square};

// (1 + k1) ÷ (1 + k2), which takes 1 to 1.
fn k3<N: Number>() -> N
    ensures { result ≡ ratio (basic N.ops) }
{
    let one = N::whole(1);
    let k1 = N::literal(Literal::Toe1);
    let k2 = N::literal(Literal::Toe2);
    one.add(k1).div(one.add(k2))
}

// u = k3 L − k1
fn toe_u<N: Number>(lightness: N) -> N
    ensures { result ≡ toe_u (basic N.ops) lightness }
{
    let k3: N = k3();
    k3.mul(lightness).sub(N::literal(Literal::Toe1))
}

// u² + 4 k2 k3 L, which stands below the root.
fn toe_square<N: Number>(lightness: N) -> N
    ensures { result ≡ toe_square (basic N.ops) lightness }
{
    let k2 = N::literal(Literal::Toe2);
    square(toe_u(lightness)).add(N::whole(4).mul(k2).mul(k3()).mul(lightness))
}

/// The lightness of Okhsl, relative to the white of sRGB, of a lightness of Oklab. Inverse of `toe_inv`.
pub fn toe<N: Number>(lightness: N) -> N
    ensures value { result ≡ toe_of N.ops lightness }
    ensures meaning { N.means result ≡ toe_of N.arith (N.means lightness) }
{
    let root = toe_square(lightness).sqrt();
    N::literal(Literal::Half)
        .mul(toe_u(lightness).add(root))
        .mark(Stage::Toe)
}

/// The lightness of Oklab of a lightness of Okhsl. Inverse of `toe`.
pub fn toe_inv<N: Number>(lightness: N) -> N
    ensures value { result ≡ toe_inv N.ops lightness }
    ensures meaning { N.means result ≡ toe_inv N.arith (N.means lightness) }
{
    let k1 = N::literal(Literal::Toe1);
    let k2 = N::literal(Literal::Toe2);
    let k3: N = k3();
    square(lightness)
        .add(k1.mul(lightness))
        .div(k3.mul(lightness.add(k2)))
        .mark(Stage::Toe)
}
