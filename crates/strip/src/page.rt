// The page: it reads valve, temperature and opening off colours.
ghost use Rattle.std.specs.Prelude.{◌≡◌, map};
ghost use Rattle.std.specs.Option.{ok_or};
ghost use Rattle.boundary.specs.Model.{Stays};
ghost use Rattle.boundary.specs.Rule.{untold};
ghost use Rattle.gamut.specs.Maps.{map_oklab};
ghost use Rattle.gamut.specs.declared.oklab.Oklab.{Oklab as OklabOf};
ghost use Rattle.number.specs.Meaning.{Meaning};
ghost use Rattle.oklab.specs.Steps.{Follows, run};
ghost use Rattle.strip.specs.Alike.{meant_turn, ending};
ghost use Rattle.strip.specs.Entries.{seen, read_entry};
ghost use Rattle.strip.specs.Fills.{Answering, Fills, Untouched};
ghost use Rattle.strip.specs.Rows.{row};
ghost use Rattle.strip.specs.Strip.{ranged, indicated, direction_of, ratio, along as along_of, opening_of, temperature_of, largest as largest_of, indication_of, read_steps};
ghost use Rattle.strip.specs.declared.indication.Indication.{Indication as IndicationOf};
ghost use Rattle.strip.specs.StripMeans.{read_steps-carried};
ghost use Rattle.valve_log.specs.Valves.{valve_number};

use crate::indication::Indication;
use crate::row::{Turn, fill};
use crate::valve::direction_of;
use boundary::Boundary;
use fault::{NumberFault, RowFault, TurnFault};
use gamut::direction::Direction;
use gamut::oklab::Oklab;
use number::Number;
use oklab::{Okhsl, oklab_to_okhsl, unspoiled};
use valve_log::Valve;

// a × a' + b × b', for a hue and the direction of a valve
fn along<N: Number>(hue: Direction<N>, valve: Valve) -> N
    ensures { result ≡ along_of N.ops hue (direction_of (ratio N.ops) (valve_number valve)) }
{
    let toward = direction_of(valve);
    hue.a.mul(toward.a).add(hue.b.mul(toward.b))
}

// The valve with the largest of the three products, the lowest if equal.
fn largest<N: Number>(first: N, second: N, third: N) -> Valve
    ensures { valve_number result ≡ largest_of N.ops first second third }
{
    if first.lt(second) {
        if second.lt(third) {
            Valve::Mixing
        } else {
            Valve::FourWay
        }
    } else if first.lt(third) {
        Valve::Mixing
    } else {
        Valve::Expansion
    }
}

// A whole number in 0..limit.
fn in_range(limit: u16, n: Option<i32>) -> Result<u16, NumberFault>
    ensures { result ≡ ok_or (ranged limit n) NumberFault.Range }
{
    n.and_then(|k| u16::try_from(k).ok())
        .filter(|k| *k <= limit)
        .ok_or(NumberFault::Range)
}

// The indication of a valve with the nearest whole numbers to its opening and temperature.
fn indicate(
    valve: Valve,
    opening: Option<i32>,
    temperature: Option<i32>,
) -> Result<Indication, NumberFault>
    ensures { result ≡ indicated (valve_number valve) (ranged 1000 opening) (ranged 100 temperature) }
{
    let opening = in_range(1000, opening)?;
    let temperature = in_range(100, temperature)?;
    Ok(Indication {
        valve: if opening == 0 { 0 } else { valve.into() },
        temperature: temperature as u8,
        opening,
    })
}

// 1000 s
fn opening_of<N: Number>(color: Okhsl<N>) -> N
    ensures { result ≡ opening_of N.ops color }
{
    N::whole(1000).mul(color.saturation)
}

// 120 l − 10
fn temperature_of<N: Number>(color: Okhsl<N>) -> N
    ensures { result ≡ temperature_of N.ops color }
{
    N::whole(120).mul(color.lightness).sub(N::whole(10))
}

// What an Okhsl colour indicates.
fn indication<N: Number>(color: Okhsl<N>) -> Result<Indication, NumberFault>
    ensures { result ≡ indication_of N.ops N.traced color }
{
    let opening = opening_of(color);
    let temperature = temperature_of(color);
    let first = along(color.hue, Valve::Expansion);
    let second = along(color.hue, Valve::FourWay);
    let third = along(color.hue, Valve::Mixing);
    // One by one: a slice of numbers of any kind needs a bound on their size in memory.
    unspoiled(opening)?;
    unspoiled(temperature)?;
    unspoiled(first)?;
    unspoiled(second)?;
    unspoiled(third)?;
    indicate(
        largest(first, second, third),
        opening.nearest(),
        temperature.nearest(),
    )
}

/// What one colour indicates: refused as the conversion is, then for a spoiled number, then for an opening or a
/// temperature that is none or out of range.
pub fn read<N: Number, B: Boundary<N>>(
    boundary: &mut B,
    color: Oklab<N>,
) -> Result<Indication, TurnFault>
    ensures value { Follows N.means (B.meaning boundary.old) (read_steps N.ops N.traced color) result }
    ensures meaning { meant_turn (λ i. i) result ≡ run (B.meaning boundary.old) (read_steps N.arith untold (map_oklab N.means color)) }
    ensures stays { Stays B.meaning B.model boundary.old boundary.new }
{
    let shade = oklab_to_okhsl(color, boundary)?;
    let shown = indication(shade)?;
    Ok(shown)
}

// The page's part in a row.
struct Page {}

impl<N: Number> Turn<N> for Page {
    type From = Oklab<N::Plain>;

    type To = Indication;

    ghost Read = { OklabOf Meaning };

    ghost Wrote = { IndicationOf };

    ghost reads = { seen N.means N.back };

    ghost writes = { λ i. i };

    ghost steps = { read_entry N.ops N.traced N.back };

    ghost plainly = { read_steps N.arith untold };

    ghost carried = { λ m x a k. (read_steps-carried N.Number.hom N.Number.traced (map_oklab N.Number.back x)).carries m a k };

    fn turn<B: Boundary<N>>(boundary: &mut B, x: Oklab<N::Plain>) -> Result<Indication, TurnFault> {
        read(boundary, Oklab::from_plain(x))
    }
}

/// Reads a row of colours: each indication is that of its colour, up to the first colour that is refused. Rows of
/// different length are refused.
pub fn read_row<N: Number, B: Boundary<N>>(
    boundary: &mut B,
    colors: &[Oklab<N::Plain>],
    indications: &mut [Indication],
) -> Result<(), RowFault>
    ensures value { Fills (Answering N.means (B.meaning boundary.old) (read_entry N.ops N.traced N.back)) colors.now indications.old result indications.new }
    ensures meaning { row (λ c. run (B.meaning boundary.old) (read_steps N.arith untold c)) (map (seen N.means N.back) colors.now) indications.old ≡ record { ends = ending result; entries = indications.new } }
    ensures untouched { Untouched result indications.old indications.new }
    ensures stays { Stays B.meaning B.model boundary.old boundary.new }
{
    fill::<N, B, Page>(boundary, colors, indications)
}
