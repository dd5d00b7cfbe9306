// What a program that replays a table counts.
#![tactic(auto)]

ghost use Rattle.std.specs.Prelude.{◌≡◌, Some};
ghost use Rattle.tally.specs.Tally.{counted, text_of};

use std::fmt;

/// How many rows of a table were checked, and how many of them differ.
#[derive(Clone, Copy, Debug, Default, PartialEq, Eq)]
pub struct Tally {
    pub checked: u32,
    pub mismatches: u32,
}

impl Tally {
    /// Counts a row. A count stays at the largest number.
    pub fn count(&mut self, is_right: bool)
        ensures { self.new ≡ counted is_right self.old }
    {
        self.checked = self.checked.saturating_add(1);
        if !is_right {
            self.mismatches = self.mismatches.saturating_add(1);
        }
    }
}

impl fmt::Display for Tally {
    ghost output = { λ tally. Some (text_of tally) };

    fn fmt<W: fmt::Write>(&self, f: &mut fmt::Formatter<W>) -> fmt::Result {
        let Tally {
            checked,
            mismatches,
        } = self;
        write!(f, "{checked} checked, {mismatches} mismatches")
    }
}
