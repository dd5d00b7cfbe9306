// The whole parts of roots of whole numbers: a guess where it is right, else found by halving.
ghost use Rattle.std.specs.Prelude.{◌≡◌, ◌+◌, ◌*◌, ◌^◌, ◌<◌, ◌≤◌};

// The whole part of the square root.
pub(crate) fn square_root(n: u64, guess: u64) -> u64
    requires { guess < 2 ^ 32 }
    ensures { (result * result ≤ n) × (n < (result + 1) * (result + 1)) }
{
    let square = guess * guess;
    if square <= n && n - square <= 2 * guess {
        return guess;
    }
    n.isqrt()
}

// The whole part of the cube root. The promise is written out wherever a root is answered: it is what is known of the result.
pub(crate) fn cube_root(n: u128, guess: u64) -> u64
    requires { (n < 2 ^ 75) × (guess < 2 ^ 25) }
    ensures { (result * result * result ≤ n) × (n < (result + 1) * (result + 1) * (result + 1)) }
{
    if cube(guess) <= n && n < cube(guess + 1) {
        return guess;
    }
    cube_root_by_halving(n)
}

fn cube(r: u64) -> u128
    requires { r ≤ 2 ^ 25 }
    ensures { result ≡ r * r * r }
{
    (r * r) as u128 * r as u128
}

// The root lies from `low` up to below `high`. A loop: no method of std halves an interval of numbers.
fn cube_root_by_halving(n: u128) -> u64
    requires { n < 2 ^ 75 }
    ensures { (result * result * result ≤ n) × (n < (result + 1) * (result + 1) * (result + 1)) }
{
    let mut low: u64 = 0;
    let mut high: u64 = 0x200_0000;
    while low + 1 < high {
        let middle = (low + high) / 2;
        if cube(middle) <= n {
            low = middle;
        } else {
            high = middle;
        }
    }
    low
}
