// The hue of each valve.
ghost use Rattle.std.specs.Prelude.{◌≡◌};
ghost use Rattle.strip.specs.Strip.{ratio as ratio_of, direction_of};
ghost use Rattle.valve_log.specs.Valves.{valve_number};

use gamut::direction::Direction;
use number::Number;
use valve_log::Valve;

/// n ÷ d
pub fn ratio<N: Number>(n: i64, d: u16) -> N
    ensures { result ≡ ratio_of N.ops n d }
{
    N::whole(n).div(N::whole(i64::from(d)))
}

/// The direction of a valve.
pub fn direction_of<N: Number>(valve: Valve) -> Direction<N>
    ensures { result ≡ direction_of (ratio_of N.ops) (valve_number valve) }
{
    let (a, b, length) = match valve {
        Valve::Expansion => (3, 4, 5),
        Valve::FourWay => (-4, 3, 5),
        Valve::Mixing => (5, -12, 13),
    };
    Direction {
        a: ratio(a, length),
        b: ratio(b, length),
    }
}
