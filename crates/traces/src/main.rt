// Refusals with the traces that they hold, over traced kinds: each line names a call, the refusal, and the cause and stage of the
// first spoiled number.
#![tactic(auto)]

use boundary::Srgb;
use fault::NumberFault;
use fraction::Fraction;
use gamut::{Direction, LinSrgb, Oklab, Xyz};
use number::{Number, Traced};
use oklab::{
    Okhsl, Okhsv, Okhwb, Oklch, linear_srgb_to_oklab, okhsl_to_oklab, okhsv_to_okhwb,
    okhsv_to_oklab, okhwb_to_okhsv, oklab_to_linear_srgb, oklab_to_okhsl, oklab_to_okhsv,
    oklab_to_oklch, oklab_to_xyz, oklch_to_oklab, xyz_to_oklab,
};
use std::io;
use std::io::{BufWriter, Write};

type TracedFraction = Traced<Fraction>;

type TracedF32 = Traced<f32>;

fn report<W: Write>(out: &mut W, call: &str, fault: Option<NumberFault>) -> io::Result<()> {
    let Some(fault) = fault else {
        return writeln!(out, "{call}: accepted");
    };
    match fault.refusal().trace {
        Some((cause, stage)) => writeln!(out, "{call}: {fault}, cause {cause}, stage {stage}"),
        None => writeln!(out, "{call}: {fault}, no trace"),
    }
}

fn ratio<N: Number>(numerator: i64, denominator: i64) -> N {
    N::whole(numerator).div(N::whole(denominator))
}

fn half<N: Number>() -> N {
    ratio(1, 2)
}

fn halves<N: Number>() -> Oklab<N> {
    Oklab {
        l: half(),
        a: half(),
        b: half(),
    }
}

fn expansion<N: Number>() -> Direction<N> {
    Direction {
        a: ratio(3, 5),
        b: ratio(4, 5),
    }
}

// The gamut of sRGB takes cubes of ten-digit decimals: over fractions its cusp is lost.
fn over_srgb<N: Number>() -> Option<NumberFault> {
    let color = Okhsl {
        hue: expansion(),
        saturation: ratio(2, 5),
        lightness: half::<N>(),
    };
    okhsl_to_oklab(color, &mut Srgb::new()).err()
}

fn to_okhsl<N: Number>(color: Oklab<N>) -> Option<NumberFault> {
    oklab_to_okhsl(color, &mut Srgb::new()).err()
}

fn grey<N: Number>() -> Oklab<N> {
    Oklab {
        l: half(),
        a: N::whole(0),
        b: N::whole(0),
    }
}

fn overflow<N: Number>() -> Oklab<N> {
    let large = (0..7).fold(N::whole(3), |large, _| large.mul(N::whole(1 << 18)));
    Oklab {
        l: half(),
        a: large,
        b: large,
    }
}

fn quotient<N: Number>() -> Option<NumberFault> {
    let lost: N = ratio(1, 0);
    Some(NumberFault::Lost(lost.trace()))
}

// Small numbers whose product has a denominator that is too large.
fn small<N: Number>() -> Okhsv<N> {
    Okhsv {
        hue: expansion(),
        saturation: ratio(1, 1 << 40),
        value: ratio(1, 1 << 40),
    }
}

// Each builds a colour of its own type for the conversion of that type.

fn from_xyz<N: Number>() -> Option<NumberFault> {
    xyz_to_oklab(Xyz::<N> {
        x: half(),
        y: half(),
        z: half(),
    })
    .err()
}

fn from_rgb<N: Number>() -> Option<NumberFault> {
    linear_srgb_to_oklab(LinSrgb::<N> {
        red: half(),
        green: half(),
        blue: half(),
    })
    .err()
}

fn from_okhsv<N: Number>() -> Option<NumberFault> {
    okhsv_to_oklab(Okhsv::<N> {
        hue: expansion(),
        saturation: half(),
        value: half(),
    })
    .err()
}

fn from_okhwb<N: Number>() -> Option<NumberFault> {
    okhwb_to_okhsv(Okhwb::<N> {
        hue: expansion(),
        whiteness: ratio(1, 1 << 40),
        blackness: ratio(1, 3486784401),
    })
    .err()
}

fn from_oklch<N: Number>() -> Option<NumberFault> {
    oklch_to_oklab(Oklch::<N> {
        l: half(),
        chroma: ratio(1, 2305843009213693951),
        hue: expansion(),
    })
    .err()
}

fn report_all<W: Write>(out: &mut W, calls: &[(&str, Option<NumberFault>)]) -> io::Result<()> {
    for (call, fault) in calls {
        report(out, call, *fault)?;
    }
    Ok(())
}

fn main(rt: HostRuntime) -> io::Result<()> {
    let mut out = BufWriter::new(rt.alloc(), rt.stdout())?;
    report_all(
        &mut out,
        &[
            (
                "Okhsl over sRGB, traced fractions",
                over_srgb::<TracedFraction>(),
            ),
            ("Okhsl over sRGB, fractions", over_srgb::<Fraction>()),
            ("Okhsl over sRGB, traced f32", over_srgb::<TracedF32>()),
            (
                "a grey to Okhsl, traced fractions",
                to_okhsl(grey::<TracedFraction>()),
            ),
            ("a grey to Okhsl, traced f32", to_okhsl(grey::<TracedF32>())),
            (
                "a diagonal to Okhsl, traced fractions",
                to_okhsl(halves::<TracedFraction>()),
            ),
            (
                "an overflow to Okhsl, traced f32",
                to_okhsl(overflow::<TracedF32>()),
            ),
            (
                "to XYZ, traced fractions",
                oklab_to_xyz(halves::<TracedFraction>()).err(),
            ),
            (
                "a quotient by 0, traced fractions",
                quotient::<TracedFraction>(),
            ),
            (
                "a quotient by 0, twice traced f32",
                quotient::<Traced<TracedF32>>(),
            ),
            ("from XYZ, traced fractions", from_xyz::<TracedFraction>()),
            (
                "to linear sRGB, traced fractions",
                oklab_to_linear_srgb(halves::<TracedFraction>()).err(),
            ),
            (
                "from linear sRGB, traced fractions",
                from_rgb::<TracedFraction>(),
            ),
            (
                "to Okhsv, traced fractions",
                oklab_to_okhsv(halves::<TracedFraction>()).err(),
            ),
            (
                "from Okhsv, traced fractions",
                from_okhsv::<TracedFraction>(),
            ),
            (
                "to Okhwb, traced fractions",
                okhsv_to_okhwb(small::<TracedFraction>()).err(),
            ),
            (
                "from Okhwb, traced fractions",
                from_okhwb::<TracedFraction>(),
            ),
            (
                "to Oklch, traced fractions",
                oklab_to_oklch(halves::<TracedFraction>()).err(),
            ),
            (
                "from Oklch, traced fractions",
                from_oklch::<TracedFraction>(),
            ),
        ],
    )?;
    out.flush()
}
