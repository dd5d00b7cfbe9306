// Replays a table of exact roots from the standard input, a line for each: the root, the bit pattern
// of an `f32` and that of its root, as `sqrt 40800000 = 40000000`. Prints the lines that the
// library's root differs from, and how many it checked.
#![tactic(auto)]

use std::fmt;
use std::io::{BufRead, BufReader};
use std::num::{f32_from_bits_with_nan, f32_to_bits_with_nan};
use std::str::FromStr;
use tally::Tally;

#[derive(Clone, Copy)]
enum Kind {
    Sqrt,
    Cbrt,
}

// No root has this name.
#[derive(Clone, Copy)]
struct UnknownKind;

impl FromStr for Kind {
    type Err = UnknownKind;

    fn from_str(name: &str) -> Result<Kind, UnknownKind> {
        match name {
            "sqrt" => Ok(Kind::Sqrt),
            "cbrt" => Ok(Kind::Cbrt),
            _ => Err(UnknownKind),
        }
    }
}

impl fmt::Display for Kind {
    fn fmt<W: fmt::Write>(&self, f: &mut fmt::Formatter<W>) -> fmt::Result {
        f.write_str(match self {
            Kind::Sqrt => "sqrt",
            Kind::Cbrt => "cbrt",
        })
    }
}

#[derive(Clone, Copy)]
struct Row {
    kind: Kind,
    operand: u32,
    root: u32,
}

fn pattern(word: Option<&str>) -> Option<u32> {
    u32::from_str_radix(word?, 16).ok()
}

fn parse_row(line: &str) -> Option<Row> {
    let mut words = line.split_whitespace();
    let kind = words.next()?.parse().ok()?;
    let operand = pattern(words.next())?;
    if words.next()? != "=" {
        return None;
    }
    let root = pattern(words.next())?;
    if words.next().is_some() {
        return None;
    }
    Some(Row {
        kind,
        operand,
        root,
    })
}

// A match of two kinds is the plainest switch between two functions.
fn root_of(kind: Kind, operand: u32) -> u32 {
    let x = f32_from_bits_with_nan(operand);
    f32_to_bits_with_nan(match kind {
        Kind::Sqrt => roots::sqrt_f32(x),
        Kind::Cbrt => roots::cbrt_f32(x),
    })
}

// Much as in `palette_vectors`: a loop for both would be a library's, and no contract could say what it prints.
fn run(rt: &HostRuntime) -> anyhow::Result<()> {
    // By kind: a map would be one more thing to find no memory for.
    let mut tallies = [Tally::default(); 2];
    for line in BufReader::new(rt.alloc(), rt.stdin())?.lines(rt.alloc()) {
        let line = line?;
        let Some(row) = parse_row(line.as_str()) else {
            println!(rt; "not a row: {line}")?;
            continue;
        };
        let found = root_of(row.kind, row.operand);
        let is_right = found == row.root;
        if !is_right {
            println!(rt; "{line}, but found {found:08x}")?;
        }
        tallies[row.kind as usize].count(is_right);
    }
    for kind in [Kind::Sqrt, Kind::Cbrt] {
        let tally = tallies[kind as usize];
        println!(rt; "{kind}: {tally}")?;
    }
    Ok(())
}

fn main(rt: HostRuntime) -> anyhow::Result<()> {
    run(&rt)
}
