// The word for a colour of Okhsl.
ghost use Rattle.std.specs.Prelude.{◌≡◌, Some};
ghost use Rattle.boundary.specs.Rule.{untold};
ghost use Rattle.oklab.specs.Okhsl.{map_okhsl};
ghost use Rattle.oklab.specs.Word.{word_text, word_within, word_of};

use crate::checks::{Color, check_direction, is_in_unit, refuse_unless};
use crate::okhsl::Okhsl;
use fault::NumberFault;
use number::Number;
use std::fmt;

/// What a colour is called, by how near it is to grey, white or black.
#[derive(Clone, Copy)]
pub enum Word {
    Grey,
    White,
    Black,
    Coloured,
}

impl Word {
    /// The word as it is written.
    pub fn text(self) -> &'static str
        ensures { result.now ≡ word_text self }
    {
        match self {
            Word::Grey => "grey",
            Word::White => "white",
            Word::Black => "black",
            Word::Coloured => "coloured",
        }
    }
}

impl fmt::Display for Word {
    ghost output = { λ w. Some (word_text w) };

    fn fmt<W: fmt::Write>(&self, f: &mut fmt::Formatter<W>) -> fmt::Result {
        f.write_str(self.text())
    }
}

// The word by the threshold alone.
fn word_within<N: Number>(color: Okhsl<N>, threshold: N) -> Word
    ensures { result ≡ word_within N.ops N.traced color threshold }
{
    if color.saturation.le(threshold) {
        Word::Grey
    } else if N::whole(1).sub(color.lightness).le(threshold) {
        Word::White
    } else if color.lightness.le(threshold) {
        Word::Black
    } else {
        Word::Coloured
    }
}

/// The word for a colour: grey where saturation is at most the threshold, else white or black where lightness is that near
/// to 1 or 0, else coloured. It is refused where a number is out of range or spoiled, the threshold too, or the direction
/// is not accepted, in this order.
pub fn okhsl_word<N: Number>(color: Okhsl<N>, threshold: N) -> Result<Word, NumberFault>
    ensures value { result ≡ word_of N.ops N.traced color threshold }
    ensures meaning { result ≡ word_of N.arith untold (map_okhsl N.means color) (N.means threshold) }
{
    refuse_unless(
        color.is_in_range() && is_in_unit(threshold),
        NumberFault::Range,
    )?;
    check_direction(color.hue)?;
    Ok(word_within(color, threshold))
}
