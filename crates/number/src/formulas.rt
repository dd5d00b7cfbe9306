// Formulas that every kind shares.
ghost use Rattle.std.specs.Prelude.{◌≡◌};
ghost use Rattle.number.specs.Formulas.{square as square_of, cube as cube_of, size as size_of, lengthened as lengthened_by, hypot as hypot_of, hypot_of_sizes};

use crate::kind::Number;

/// x × x
pub fn square<N: Number>(x: N) -> N
    ensures { result ≡ square_of N.ops x }
{
    x.mul(x)
}

/// (x × x) × x
pub fn cube<N: Number>(x: N) -> N
    ensures { result ≡ cube_of N.ops x }
{
    square(x).mul(x)
}

/// x without its sign
pub fn size<N: Number>(x: N) -> N
    ensures { result ≡ size_of N.ops x }
{
    if x.lt(N::whole(0)) { x.neg() } else { x }
}

// m × root of (1 + q × q)
fn lengthened<N: Number>(m: N, q: N) -> N
    ensures { result ≡ lengthened_by N.ops m q }
{
    m.mul(N::whole(1).add(square(q)).sqrt())
}

fn hypot_of_sizes<N: Number>(a: N, b: N) -> N
    ensures { result ≡ hypot_of_sizes N.ops a b }
{
    if a.lt(b) {
        lengthened(b, a.div(b))
    } else {
        lengthened(a, b.div(a))
    }
}

/// The length of (a, b): 0 if both are 0, else m × root of (1 + q × q), where m is the larger size and q the smaller divided by m.
pub fn hypot<N: Number>(a: N, b: N) -> N
    ensures { result ≡ hypot_of N.ops a b }
{
    let zero = N::whole(0);
    if a.eq(zero) && b.eq(zero) {
        return zero;
    }
    hypot_of_sizes(size(a), size(b))
}
