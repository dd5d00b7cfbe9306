// Guesses at the whole part of roots, by floats. Nothing but a bound is proved of a guess: who
// takes one checks it.
ghost use Rattle.std.specs.Prelude.{◌+◌, ◌^◌, ◌<◌, ◌≤◌};

/// A number from 1 up to below 2, by its 53 binary digits: `digits` * 2^-52.
#[derive(Clone, Copy)]
pub(crate) struct Leading {
    pub(crate) digits: u64,
    ghost low: { 2 ^ 52 ≤ digits },
    ghost high: { digits < 2 ^ 53 },
}

// The roots of 1, 2 and 4, a little too large: a guess has to lie over a root that is whole.
static SQUARE_SCALES: [f64; 2] = [1.000000000002, 1.4142135623759236];

static CUBE_SCALES: [f64; 3] = [1.000000000002, 1.259921049897393, 1.5874010519713742];

// The whole part of c * 2^k, for a c from 1 up to below 2.
fn whole_part(c: f64, k: u64) -> u64
    requires { k < 53 }
    ensures { result < 2 ^ (k + 1) }
{
    if c.is_nan() {
        return 0;
    }
    (c.to_bits() % 0x10_0000_0000_0000 + 0x10_0000_0000_0000) >> (52 - k)
}

impl Leading {
    // The number as a float.
    fn value(self) -> f64 {
        std::num::f64_from_bits_with_nan(self.digits + 0x3fe0_0000_0000_0000)
    }

    // A guess at the square root of the number times 2^up, times 2^k: four terms, then one step of
    // Halley's method. For about one in 20,000 of the floats of 24 digits it is wrong in the 25th.
    pub(crate) fn square_root(self, up: u64, k: u64) -> u64
        requires scale { up < 2 }
        requires power { k < 32 }
        ensures { result < 2 ^ 32 }
    {
        let t = self.value();
        let g = 0.373313 + t * 0.7808 + t * t * (t * 0.023851 - 0.17786);
        let gg = g * g;
        whole_part(
            g * SQUARE_SCALES[up as usize] * (gg + 3.0 * t) / (3.0 * gg + t),
            k,
        )
    }

    // A guess at the cube root of the number times 2^up, times 2^k, in the same way.
    pub(crate) fn cube_root(self, up: u64, k: u64) -> u64
        requires scale { up < 3 }
        requires power { k < 25 }
        ensures { result < 2 ^ 25 }
    {
        let t = self.value();
        let g = 0.555791 + t * 0.580826 + t * t * (t * 0.022149 - 0.158662);
        let ggg = g * g * g;
        whole_part(
            g * CUBE_SCALES[up as usize] * (ggg + 2.0 * t) / (2.0 * ggg + t),
            k,
        )
    }
}
