// The cones' responses LMS: sums over them, and how fast their cube roots change.
ghost use Rattle.std.specs.Prelude.{◌≡◌};
ghost use Rattle.srgb_gamut.specs.Jet.{dot as dot_of, slopes_by};

use gamut::direction::Direction;
use gamut::lms::Lms;
use number::{Literal, Number};

// A function at each of L, M and S, as `Lms::map`, which is not public: it requires something of the function.
pub(crate) fn each<A: Copy, B, F: Fn(A) -> B>(c: Lms<A>, f: F) -> Lms<B>
    requires { F.IsAlwaysCallable f }
    ensures l { F.post f c.l result.l }
    ensures m { F.post f c.m result.m }
    ensures s { F.post f c.s result.s }
{
    Lms {
        l: f(c.l),
        m: f(c.m),
        s: f(c.s),
    }
}

// As `gamut`'s product of vectors, which is private there.
pub(crate) fn dot<N: Number>(w: Lms<N>, c: Lms<N>) -> N
    ensures { result ≡ dot_of N.ops w c }
{
    w.l.mul(c.l).add(w.m.mul(c.m)).add(w.s.mul(c.s))
}

// How fast the cube roots of LMS change with the chroma: `medium` and `short` are the factors of a in M and S,
// negative constants in one caller and negated ones in the other.
pub(crate) fn slopes_by<N: Number>(medium: N, short: N, h: Direction<N>) -> Lms<N>
    ensures { result ≡ slopes_by N.ops medium short h }
{
    let l = N::literal(Literal::LongA)
        .mul(h.a)
        .add(N::literal(Literal::LongB).mul(h.b));
    let m = medium.mul(h.a).sub(N::literal(Literal::MediumB).mul(h.b));
    let s = short.mul(h.a).sub(N::literal(Literal::ShortB).mul(h.b));
    Lms { l, m, s }
}
