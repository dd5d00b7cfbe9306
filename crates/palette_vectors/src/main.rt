// Replays a table of palette's conversions at f32 from the standard input, a line for each: the conversion's name, the bit
// patterns of its numbers, and those of its answer, as `cusp 3f19999a 3f4ccccd = 3f3b7fb6 3e3e0b21`, or the number of its
// refusal, as `okhsl>oklab 3f19999a 3f4ccccd 3f800000 00000001 = refused 7`. Prints the lines that the library differs
// from, and how many it checked.
#![tactic(auto)]

mod columns;
mod conversion;
mod row;

use conversion::{ALL, Conversion};
use row::Found;
use std::io::{BufRead, BufReader};
use tally::Tally;

// Replays a row: its conversion, and what the library gives where the row expects another answer.
fn replay(line: &str) -> Option<(Conversion, Result<(), Found>)> {
    let mut words = line.split_whitespace().peekable();
    let conversion = words.next()?.parse::<Conversion>().ok()?;
    let outcome = conversion.replay(&mut words)?;
    Some((conversion, outcome))
}

// Much as in `root_vectors`: a loop for both would be a library's, and no contract could say what it prints.
fn run(rt: &HostRuntime) -> anyhow::Result<()> {
    // By conversion: a map would be one more thing to find no memory for.
    let mut tallies = [Tally::default(); 16];
    for line in BufReader::new(rt.alloc(), rt.stdin())?.lines(rt.alloc()) {
        let line = line?;
        let Some((conversion, outcome)) = replay(line.as_str()) else {
            println!(rt; "not a row: {line}")?;
            continue;
        };
        if let Err(found) = outcome {
            println!(rt; "{line}, but found {found}")?;
        }
        tallies[conversion as usize].count(outcome.is_ok());
    }
    for conversion in ALL {
        let tally = tallies[conversion as usize];
        println!(rt; "{conversion}: {tally}")?;
    }
    Ok(())
}

fn main(rt: HostRuntime) -> anyhow::Result<()> {
    run(&rt)
}
