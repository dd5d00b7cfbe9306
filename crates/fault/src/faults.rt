// The four faults, and the steps from each to the next.
ghost use Rattle.std.specs.Prelude.{◌≡◌};
ghost use Rattle.fault.specs.Refusals.{placed};
ghost use Rattle.fault.specs.declared.faults.TurnFault.TheVariants.{Number as InTurn};
ghost use Rattle.fault.specs.declared.faults.RowFault.TheVariants.{Entry as InRow};
ghost use Rattle.fault.specs.declared.faults.BlockFault.TheVariants.{Row as InBlock};

/// The fault of a conversion. The last two hold the trace of the first spoiled number, its cause and its stage, where
/// the kind of number keeps one.
#[derive(Clone, Copy)]
pub enum NumberFault {
    /// A number is outside its range, or spoiled.
    Range,
    /// The direction is not accepted.
    Direction,
    /// The boundary refuses the query.
    // A trace in the form that every kind of number gives it: a pair of small numbers.
    Boundary(Option<(u8, u8)>),
    /// A number of the answer is spoiled.
    Lost(Option<(u8, u8)>),
}

/// The fault of one entry of a row.
#[derive(Clone, Copy)]
pub enum TurnFault {
    /// No valve has this number.
    Valve,
    /// A conversion is refused.
    Number(NumberFault),
}

/// The fault of one entry, with the entry's index.
#[derive(Clone, Copy)]
pub struct Placed {
    pub index: usize,
    pub fault: TurnFault,
}

/// The fault of a row.
#[derive(Clone, Copy)]
pub enum RowFault {
    /// A row is not as long as it must be.
    Length,
    /// An entry is refused.
    Entry(Placed),
}

/// The fault of a block of the valve log.
#[derive(Clone, Copy)]
pub enum BlockFault {
    /// The block, or the row of its readings, is refused as a row.
    Row(RowFault),
    /// The checksum differs.
    Checksum,
    /// The layout's number, the count or a zero byte differs.
    Layout,
}

// The steps are written out, since the contract of each `?` reads `from_gives`, which no derive writes.

impl From<NumberFault> for TurnFault {
    ghost from_gives = { λ f r. r ≡ InTurn f };

    fn from(f: NumberFault) -> TurnFault {
        TurnFault::Number(f)
    }
}

impl From<Placed> for RowFault {
    ghost from_gives = { λ f r. r ≡ InRow f };

    fn from(f: Placed) -> RowFault {
        RowFault::Entry(f)
    }
}

impl From<RowFault> for BlockFault {
    ghost from_gives = { λ f r. r ≡ InBlock f };

    fn from(f: RowFault) -> BlockFault {
        BlockFault::Row(f)
    }
}

/// Gives the fault of an entry the entry's index.
pub fn at_index<T>(index: usize, answer: Result<T, TurnFault>) -> Result<T, Placed>
    ensures { result ≡ placed index answer }
{
    answer.map_err(|fault| Placed { index, fault })
}
