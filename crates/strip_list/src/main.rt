// Lists the blocks of a valve log from the standard input: a line for each reading, or a line for a refused block.
#![tactic(auto)]

use blocks::{BLOCK_SIZE, next_block};
use listing::put_block;
use std::io;
use std::io::{BufReader, BufWriter, Read, Write};

// Lists block after block, one at a time in memory, up to the end of the input.
fn list<R: Read, W: Write>(input: &mut R, out: &mut W, text: &mut String) -> io::Result<()> {
    let mut block = [0u8; BLOCK_SIZE];
    // Counted, since nothing says that an input ends.
    for place in 0..u64::MAX {
        let Some(bytes) = next_block(input, &mut block)? else {
            break;
        };
        text.clear();
        put_block(text, bytes, place).map_err(|_| io::Error::from(io::ErrorKind::OutOfMemory))?;
        out.write_all(text.as_bytes())?;
    }
    Ok(())
}

fn main(rt: HostRuntime) -> io::Result<()> {
    let mut input = BufReader::new(rt.alloc(), rt.stdin())?;
    let mut out = BufWriter::new(rt.alloc(), rt.stdout())?;
    let mut text = String::new(rt.alloc());
    list(&mut input, &mut out, &mut text)?;
    out.flush()
}
