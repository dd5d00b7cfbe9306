// The number of each fault, its word and the values that it holds.
ghost use Rattle.std.specs.Prelude.{◌≡◌, Some, None};
ghost use Rattle.fault.specs.Refusals.{refusal, of_number, of_turn, of_row, of_block, word_of, text_of};

use crate::faults::{BlockFault, NumberFault, RowFault, TurnFault};
use std::fmt::{self, Display};

/// What a fault tells: its number, the index of the entry in its row, and the trace of the spoiled number, its cause
/// and its stage.
#[derive(Clone, Copy)]
pub struct Refusal {
    // A number and not an enum, as the C interface and the listing show it; the kinds are the variants of the four faults.
    pub number: u8,
    pub index: Option<usize>,
    // A pair of numbers, the form that every kind of number gives its trace.
    pub trace: Option<(u8, u8)>,
}

fn numbered(number: u8, trace: Option<(u8, u8)>) -> Refusal
    ensures { result ≡ refusal number trace }
{
    Refusal {
        number,
        index: None,
        trace,
    }
}

impl NumberFault {
    /// The fault's number and values.
    pub fn refusal(self) -> Refusal
        ensures { result ≡ of_number self }
    {
        match self {
            NumberFault::Range => numbered(5, None),
            NumberFault::Direction => numbered(6, None),
            NumberFault::Boundary(trace) => numbered(7, trace),
            NumberFault::Lost(trace) => numbered(8, trace),
        }
    }
}

impl TurnFault {
    /// The fault's number and values.
    pub fn refusal(self) -> Refusal
        ensures { result ≡ of_turn self }
    {
        match self {
            TurnFault::Valve => numbered(4, None),
            TurnFault::Number(f) => f.refusal(),
        }
    }
}

impl RowFault {
    /// The fault's number and values.
    pub fn refusal(self) -> Refusal
        ensures { result ≡ of_row self }
    {
        match self {
            RowFault::Length => numbered(1, None),
            RowFault::Entry(p) => Refusal {
                index: Some(p.index),
                ..p.fault.refusal()
            },
        }
    }
}

impl BlockFault {
    /// The fault's number and values.
    pub fn refusal(self) -> Refusal
        ensures { result ≡ of_block self }
    {
        match self {
            BlockFault::Row(f) => f.refusal(),
            BlockFault::Checksum => numbered(2, None),
            BlockFault::Layout => numbered(3, None),
        }
    }
}

// The word of a refusal's number; another number has none, and is printed with nothing after it. No derive has such texts.
fn word(number: u8) -> &'static str
    ensures { result.now ≡ word_of number }
{
    match number {
        1 => "short pipe",
        2 => "broken seal",
        3 => "wrong plate",
        4 => "strange valve",
        5 => "off scale",
        6 => "off dial",
        7 => "no boundary",
        8 => "lost number",
        _ => "",
    }
}

impl Display for Refusal {
    ghost output = { λ r. Some (text_of r) };

    fn fmt<W: fmt::Write>(&self, f: &mut fmt::Formatter<W>) -> fmt::Result {
        let number = self.number;
        let word = word(number);
        write!(f, "{number} {word}")
    }
}

// Each fault prints as its refusal: one impl a fault, since a trait of std has no impl for every type with a `refusal`.

impl Display for NumberFault {
    ghost output = { λ f. Some (text_of (of_number f)) };

    fn fmt<W: fmt::Write>(&self, f: &mut fmt::Formatter<W>) -> fmt::Result {
        self.refusal().fmt(f)
    }
}

impl Display for TurnFault {
    ghost output = { λ f. Some (text_of (of_turn f)) };

    fn fmt<W: fmt::Write>(&self, f: &mut fmt::Formatter<W>) -> fmt::Result {
        self.refusal().fmt(f)
    }
}

impl Display for RowFault {
    ghost output = { λ f. Some (text_of (of_row f)) };

    fn fmt<W: fmt::Write>(&self, f: &mut fmt::Formatter<W>) -> fmt::Result {
        self.refusal().fmt(f)
    }
}

impl Display for BlockFault {
    ghost output = { λ f. Some (text_of (of_block f)) };

    fn fmt<W: fmt::Write>(&self, f: &mut fmt::Formatter<W>) -> fmt::Result {
        self.refusal().fmt(f)
    }
}
