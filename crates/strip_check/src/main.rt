// Commissions a panel and a page on the blocks of a valve log, over fractions: each block's readings are drawn with the panel's
// stack and read back with the page's, and then drawn and read again by a replay on the panel's stack, with a forget between.
#![tactic(auto)]

use blocks::{BLOCK_SIZE, next_block};
use boundary::{Margin, Memo, Triangle};
use fault::NumberFault;
use fraction::{Fraction, PlainFraction};
use gamut::oklab::Oklab;
use number::Number;
use std::alloc::{AllocError, Global};
use std::io;
use std::io::{BufReader, BufWriter, Read, Write};
use strip::{Call, DrawCall, Indication, ReadCall, commission, replay};
use valve_log::{READINGS, Reading};

type Stack = Margin<Fraction, Memo<Fraction, Margin<Fraction, Triangle<Fraction>>>>;

// A margin of 4/5 over a memo over a margin of 9/10 over a triangle, as a site may set them.
fn stack() -> Result<Stack, NumberFault> {
    let base = Triangle::new(Fraction::new(1, 2), Fraction::new(1, 2))?;
    let inner = Margin::new(Fraction::new(9, 10), base)?;
    let outer = Margin::new(Fraction::new(4, 5), Memo::new(inner))?;
    Ok(outer)
}

// Black, a colour to be written over.
fn black() -> Oklab<PlainFraction> {
    let zero = Fraction::whole(0);
    Oklab {
        l: zero,
        a: zero,
        b: zero,
    }
    .to_plain()
}

// What a reading that comes home indicates: its opening and temperature, and its valve, or 0 where the opening is 0.
fn home_of(reading: Reading) -> Indication {
    let Reading {
        valve,
        temperature,
        opening,
        ..
    } = reading;
    Indication {
        valve: if opening == 0 { 0 } else { valve },
        temperature,
        opening,
    }
}

// How many of the readings come home.
fn count_home(readings: &[Reading], seen: &[Indication]) -> usize {
    readings
        .iter()
        .zip(seen)
        .filter(|(reading, seen)| home_of(**reading) == **seen)
        .count()
}

// A site's panel and page, and where it is written how they do.
#[derive(Drop)]
struct Site<W> {
    panel: Stack,
    page: Stack,
    out: W,
    heap: Global,
}

impl<W: Write> Site<W> {
    // Draws a row with the panel's stack and reads it with the page's: its colours, and how many of the readings come home.
    fn commission(
        &mut self,
        readings: &[Reading],
    ) -> Result<(Vec<Oklab<PlainFraction>>, usize), AllocError> {
        let mut colors = vec![in self.heap; black(); readings.len()]?;
        let mut seen = vec![in self.heap; Indication::default(); readings.len()]?;
        let end = commission::<Fraction, Stack, Stack>(
            &mut self.panel,
            &mut self.page,
            readings,
            colors.as_mut_slice(),
            seen.as_mut_slice(),
        );
        let home = match end {
            Ok(()) => count_home(readings, seen.as_slice()),
            // Of a row that is refused none comes home.
            Err(_) => 0,
        };
        Ok((colors, home))
    }

    // How many of a row's readings come home in a replay on the panel's stack: they are drawn, the memos emptied, and the colours read.
    fn replay(
        &mut self,
        readings: &[Reading],
        colors: &[Oklab<PlainFraction>],
    ) -> Result<usize, AllocError> {
        let draw = DrawCall {
            readings: readings.to_vec(self.heap)?,
            colors: vec![in self.heap; black(); readings.len()]?,
            end: Ok(()),
        };
        let read = ReadCall {
            colors: colors.to_vec(self.heap)?,
            indications: vec![in self.heap; Indication::default(); colors.len()]?,
            end: Ok(()),
        };
        let mut calls = [Call::Draw(draw), Call::Forget, Call::Read(read)];
        replay::<Fraction, Stack>(&mut self.panel, &mut calls);
        Ok(match &calls {
            [_, _, Call::Read(read)] => count_home(readings, read.indications.as_slice()),
            _ => 0,
        })
    }

    // Writes a line for each colour: block number, index, l, a and b.
    fn put_colors(&mut self, number: u32, colors: &[Oklab<PlainFraction>]) -> io::Result<()> {
        for (i, color) in colors.iter().enumerate() {
            let Oklab { l, a, b } = Oklab::<Fraction>::from_plain(*color);
            writeln!(self.out, "{number} {i} {l} {a} {b}")?;
        }
        Ok(())
    }

    // Writes a row's colours, and then how many of its readings come home, and how many again in a replay.
    fn check_row(&mut self, number: u32, readings: &[Reading]) -> io::Result<()> {
        let count = readings.len();
        let (colors, home) = self.commission(readings)?;
        self.put_colors(number, colors.as_slice())?;
        let again = self.replay(readings, colors.as_slice())?;
        writeln!(
            self.out,
            "{number}: {count} readings, {home} home, {again} home again"
        )
    }

    // Checks the readings of block after block, up to the end of the input.
    fn check_blocks<R: Read>(&mut self, input: &mut R) -> io::Result<()> {
        let mut block = [0u8; BLOCK_SIZE];
        // Counted, since nothing says that an input ends.
        for _ in 0..u64::MAX {
            let Some(bytes) = next_block(input, &mut block)? else {
                break;
            };
            // As many entries as a block can have; a smaller count stands in its head.
            let mut row = [Reading::default(); READINGS];
            if let Ok(head) = valve_log::read(bytes, &mut row) {
                self.check_row(head.number, &row[0..usize::from(head.count)])?;
            }
        }
        Ok(())
    }
}

fn main(rt: HostRuntime) -> io::Result<()> {
    let mut input = BufReader::new(rt.alloc(), rt.stdin())?;
    let mut out = BufWriter::new(rt.alloc(), rt.stdout())?;
    let (Ok(panel), Ok(page)) = (stack(), stack()) else {
        return out.flush();
    };
    let mut site = Site {
        panel,
        page,
        out,
        heap: rt.alloc(),
    };
    site.check_blocks(&mut input)?;
    site.out.flush()
}
