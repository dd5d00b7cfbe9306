// A row of readings drawn by the panel and read back by the page.
ghost use Rattle.std.specs.Prelude.{◌≡◌};
ghost use Rattle.number.specs.Meaning.{Meaning};
ghost use Rattle.boundary.specs.Model.{Stays};
ghost use Rattle.boundary.specs.declared.query.Query.{Query};
ghost use Rattle.strip.specs.Commission.{DrawnAndRead, Home};
ghost use Rattle.strip.specs.Entries.{draw_entry, read_entry};
ghost use Rattle.strip.specs.Fills.{Answering};

use crate::indication::Indication;
use crate::page::read_row;
use crate::panel::draw_row;
use crate::trip::rows_come_home;
use boundary::Boundary;
use fault::RowFault;
use gamut::oklab::Oklab;
use number::Exact;
use valve_log::Reading;

/// Draws a row of readings with the panel's stack and reads the colours back with the page's, up to the first refusal.
///
/// Where the two stacks give every query the same three numbers and neither refuses, each indication has its reading's
/// opening and temperature, and its valve, or 0 where the opening is 0.
pub fn commission<N: Exact, B: Boundary<N>, C: Boundary<N>>(
    panel: &mut B,
    page: &mut C,
    readings: &[Reading],
    colors: &mut [Oklab<N::Plain>],
    indications: &mut [Indication],
) -> Result<(), RowFault>
    ensures value { DrawnAndRead (Answering N.Number.means (B.Boundary.meaning panel.old) (draw_entry N.Number.ops N.Number.traced N.Number.plain)) (Answering N.Number.means (C.Boundary.meaning page.old) (read_entry N.Number.ops N.Number.traced N.Number.back)) readings.now colors.old colors.new indications.old result indications.new }
    ensures home { ((q : Query Meaning) → B.Boundary.meaning panel.old q ≡ C.Boundary.meaning page.old q) → Home readings.now result indications.new }
    ensures panel { Stays B.Boundary.meaning B.Boundary.model panel.old panel.new }
    ensures page { Stays C.Boundary.meaning C.Boundary.model page.old page.new }
{
    // what an exact kind promises: without it no colour need come home
    rows_come_home::<N>();
    draw_row(panel, readings, colors)?;
    read_row(page, colors, indications)
}
