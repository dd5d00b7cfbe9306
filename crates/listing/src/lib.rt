// The text of the listing, block by block.
#![tactic(auto)]

ghost use Rattle.std.specs.Prelude.{◌≡◌, ◌++◌, pos, string_bytes, IfOk, OnOk};
ghost use Rattle.boundary.specs.Triangles.{triangle_meaning};
ghost use Rattle.fraction.specs.Bounded.{arithmetic, ratio};
ghost use Rattle.fraction.specs.Fractions.{meaning_of};
ghost use Rattle.listing.specs.Answers.{row_text, plain_text};
ghost use Rattle.listing.specs.Cases.{CasesHold};
ghost use Rattle.listing.specs.Listing.{listed, drawn, color_text, start_of, line_of, lines_of, refusal_of, block_text};

use boundary::Triangle;
use fault::{BlockFault, NumberFault, RowFault};
use fraction::{Fraction, PlainFraction};
use gamut::oklab::Oklab;
use std::fmt;
use strip::panel::draw_row;
use valve_log::{READINGS, Reading};

const ZERO: PlainFraction = PlainFraction {
    numerator: 0,
    denominator: 1,
    lost: false,
};

// A colour to be written over.
const BLACK: Oklab<PlainFraction> = Oklab {
    l: ZERO,
    a: ZERO,
    b: ZERO,
};

// Appends the three numbers of a colour.
fn put_color(text: &mut String, color: Oklab<PlainFraction>) -> fmt::Result
    ensures { OnOk result (string_bytes text.new ≡ string_bytes text.old ++ plain_text color) }
{
    let Oklab { l, a, b } = Oklab::<Fraction>::from_plain(color);
    Ok(writeln!(text, "{l} {a} {b}")?)
}

// Appends how a line ends: a colour, or the number of its refusal.
fn put_answer(text: &mut String, answer: Result<Oklab<PlainFraction>, RowFault>) -> fmt::Result
    ensures { OnOk result (string_bytes text.new ≡ string_bytes text.old ++ row_text answer) }
{
    match answer {
        Ok(color) => put_color(text, color),
        Err(fault) => {
            let number = fault.refusal().number;
            Ok(writeln!(text, "refused {number}")?)
        }
    }
}

// Appends how a line starts. The valve is the number that the reading has, in range or not.
fn put_start(text: &mut String, number: u32, i: usize, valve: u8) -> fmt::Result
    ensures { OnOk result (string_bytes text.new ≡ string_bytes text.old ++ start_of number i valve) }
{
    Ok(write!(text, "{number} {i} {valve} ")?)
}

// Appends the line of a refused block, before which there were `place` blocks.
fn put_refusal(text: &mut String, fault: BlockFault, place: u64) -> fmt::Result
    ensures { OnOk result (string_bytes text.new ≡ string_bytes text.old ++ refusal_of fault place) }
{
    let number = fault.refusal().number;
    Ok(writeln!(text, "refused {number} at {place}")?)
}

#[tactic(auto, unfolding(rational::specs::Rational::computes))]
fn half() -> Fraction
    ensures { meaning_of result ≡ ratio (pos 1) 2 }
{
    Fraction::new(1, 2)
}

// The lister of the block with this number.
#[derive(Drop)]
struct Lister {
    boundary: Triangle<Fraction>,
    number: u32,
    ghost as_listed: { triangle_meaning arithmetic meaning_of boundary ≡ listed },
}

impl Lister {
    fn new(number: u32) -> Result<Lister, NumberFault>
        ensures { IfOk result (λ lister. lister.number ≡ number) }
    {
        let boundary = Triangle::new(half(), half())?;
        Ok(Lister { boundary, number })
    }

    // Draws a reading as a row of its own.
    fn draw_alone(&mut self, reading: Reading) -> Result<Oklab<PlainFraction>, RowFault>
        ensures text { row_text result ≡ color_text (drawn reading) }
        ensures same_number { self.new.number ≡ self.old.number }
    {
        let mut colors = [BLACK];
        draw_row::<Fraction, Triangle<Fraction>>(&mut self.boundary, &[reading], &mut colors)?;
        Ok(colors[0])
    }

    // Appends the line of one reading.
    fn put_reading(&mut self, text: &mut String, i: usize, reading: Reading) -> fmt::Result
        ensures text { OnOk result (string_bytes text.new ≡ string_bytes text.old ++ line_of self.old.number i reading) }
        ensures same_number { self.new.number ≡ self.old.number }
    {
        put_start(text, self.number, i, reading.valve)?;
        put_answer(text, self.draw_alone(reading))
    }

    // Appends the lines of a row.
    fn put_row(&mut self, text: &mut String, row: &[Reading]) -> fmt::Result
        ensures { OnOk result (string_bytes text.new ≡ string_bytes text.old ++ lines_of self.old.number 0 row.now) }
    {
        for (i, reading) in row.iter().enumerate() {
            self.put_reading(text, i, *reading)?;
        }
        Ok(())
    }
}

/// Appends the listing of a block, which is the `place`th from 0: a line for each reading, or one for the block's refusal. A short
/// block is refused.
pub fn put_block(text: &mut String, bytes: &[u8], place: u64) -> fmt::Result
    ensures { OnOk result (string_bytes text.new ≡ string_bytes text.old ++ block_text place bytes.now) }
{
    // As many entries as a block can have; a smaller count stands in its head.
    let mut row = [Reading::default(); READINGS];
    match valve_log::read(bytes, &mut row) {
        Ok(head) => {
            let mut lister = Lister::new(head.number).map_err(|_| fmt::Error)?;
            lister.put_row(text, &row[0..usize::from(head.count)])
        }
        Err(fault) => put_refusal(text, fault, place),
    }
}

/// The worked cases of the library, one table proved by computing: the inverse toe of 1/2 and its toe, the line of a reading, roots and
/// sums at the bound, opening 0 read as valve 0, and a block of zeros.
pub fn cases_hold()
    ensures { CasesHold }
{}
