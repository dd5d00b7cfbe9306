// The panel: it draws valve readings as colours.
ghost use Rattle.std.specs.Prelude.{◌≡◌, map};
ghost use Rattle.boundary.specs.Model.{Stays};
ghost use Rattle.boundary.specs.Rule.{untold};
ghost use Rattle.gamut.specs.Maps.{map_oklab};
ghost use Rattle.gamut.specs.declared.oklab.Oklab.{Oklab as OklabOf};
ghost use Rattle.number.specs.Meaning.{Meaning};
ghost use Rattle.oklab.specs.Steps.{Follows, run};
ghost use Rattle.valve_log.specs.declared.reading.Reading.{Reading as ReadingOf};
ghost use Rattle.strip.specs.Alike.{meant_turn, ending};
ghost use Rattle.strip.specs.Entries.{seen, draw_entry};
ghost use Rattle.strip.specs.Fills.{Answering, Fills, Untouched};
ghost use Rattle.strip.specs.Rows.{row};
ghost use Rattle.strip.specs.Strip.{shade_of, draw_steps};
ghost use Rattle.strip.specs.StripMeans.{draw_entry-carried};
ghost use Rattle.valve_log.specs.Valves.{valve_number};

use crate::row::{Turn, fill};
use crate::valve::{direction_of, ratio};
use boundary::Boundary;
use fault::{RowFault, TurnFault};
use gamut::oklab::Oklab;
use number::Number;
use oklab::{Okhsl, okhsl_to_oklab};
use valve_log::{Reading, Valve};

// The Okhsl colour of a reading: hue its valve, saturation its opening, lightness its temperature.
fn shade<N: Number>(valve: Valve, reading: Reading) -> Okhsl<N>
    requires { valve_number valve ≡ reading.valve }
    ensures { result ≡ shade_of N.ops reading }
{
    Okhsl {
        hue: direction_of(valve),
        saturation: ratio(i64::from(reading.opening), 1000),
        lightness: ratio(10 + i64::from(reading.temperature), 120),
    }
}

/// The colour of one reading: refused where the reading is out of range, the valve first, and then as the conversion is.
pub fn draw<N: Number, B: Boundary<N>>(
    boundary: &mut B,
    reading: Reading,
) -> Result<Oklab<N>, TurnFault>
    ensures value { Follows N.means (B.meaning boundary.old) (draw_steps N.ops N.traced reading) result }
    ensures meaning { meant_turn (map_oklab N.means) result ≡ run (B.meaning boundary.old) (draw_steps N.arith untold reading) }
    ensures stays { Stays B.meaning B.model boundary.old boundary.new }
{
    let valve = Valve::try_from(reading.valve)?;
    reading.check()?;
    let color = okhsl_to_oklab(shade(valve, reading), boundary)?;
    Ok(color)
}

// The panel's part in a row.
struct Panel {}

impl<N: Number> Turn<N> for Panel {
    type From = Reading;

    type To = Oklab<N::Plain>;

    ghost Read = { ReadingOf };

    ghost Wrote = { OklabOf Meaning };

    ghost reads = { λ r. r };

    ghost writes = { seen N.means N.back };

    ghost steps = { draw_entry N.ops N.traced N.plain };

    ghost plainly = { draw_steps N.arith untold };

    ghost carried = { λ m x a k. (draw_entry-carried N.Number.hom N.Number.traced N.Number.plain N.Number.back N.Number.again x).carries m a k };

    fn turn<B: Boundary<N>>(boundary: &mut B, x: Reading) -> Result<Oklab<N::Plain>, TurnFault> {
        let color: Oklab<N> = draw(boundary, x)?;
        Ok(color.to_plain())
    }
}

// Its twin is the page's `read_row`: `fill` is what they share, and each promises its own.
/// Draws a row of readings: each colour is that of its reading, up to the first reading that is refused. Rows of
/// different length are refused.
pub fn draw_row<N: Number, B: Boundary<N>>(
    boundary: &mut B,
    readings: &[Reading],
    colors: &mut [Oklab<N::Plain>],
) -> Result<(), RowFault>
    ensures value { Fills (Answering N.means (B.meaning boundary.old) (draw_entry N.ops N.traced N.plain)) readings.now colors.old result colors.new }
    ensures meaning { row (λ x. run (B.meaning boundary.old) (draw_steps N.arith untold x)) readings.now (map (seen N.means N.back) colors.old) ≡ record { ends = ending result; entries = map (seen N.means N.back) colors.new } }
    ensures untouched { Untouched result colors.old colors.new }
    ensures stays { Stays B.meaning B.model boundary.old boundary.new }
{
    fill::<N, B, Panel>(boundary, readings, colors)
}
