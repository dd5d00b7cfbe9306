// What stands in a row after the conversion's name, and how it compares with what the library gives.
use crate::columns::Columns;
use fault::NumberFault;
use std::fmt;
use std::iter::Peekable;
use std::num::{f32_from_bits_with_nan, f32_to_bits_with_nan};
use std::str::SplitWhitespace;

/// The words of a row that are still to be read.
pub(crate) type Words<'a> = Peekable<SplitWhitespace<'a>>;

/// The number of a refusal, as the table has it.
#[derive(Clone, Copy, PartialEq, Eq)]
pub(crate) struct Refused(u8);

impl From<NumberFault> for Refused {
    fn from(fault: NumberFault) -> Refused {
        Refused(fault.refusal().number)
    }
}

/// What the library gives for a row: the bit patterns of its numbers, or the number of its refusal. A line of output has four
/// patterns, of which those past the numbers are 0.
#[derive(Clone, Copy)]
pub(crate) struct Found(Result<[u32; 4], Refused>);

impl fmt::Display for Found {
    fn fmt<W: fmt::Write>(&self, f: &mut fmt::Formatter<W>) -> fmt::Result {
        match self.0 {
            Ok(patterns) => {
                let [first, second, third, fourth] = patterns;
                write!(f, "{first:08x} {second:08x} {third:08x} {fourth:08x}")
            }
            Err(Refused(number)) => write!(f, "refused {number}"),
        }
    }
}

/// The bit patterns of up to four numbers, all not-a-numbers alike, and zeros after them.
pub(crate) fn patterns<const N: usize>(numbers: [f32; N]) -> [u32; 4] {
    let mut patterns = [0; 4];
    for (pattern, number) in patterns.iter_mut().zip(&numbers) {
        *pattern = f32_to_bits_with_nan(*number);
    }
    patterns
}

fn parse_number(word: &str) -> Option<f32> {
    let bits = u32::from_str_radix(word, 16).ok()?;
    Some(f32_from_bits_with_nan(bits))
}

/// The next N numbers. None if they are not there.
pub(crate) fn parse_numbers<const N: usize>(words: &mut Words) -> Option<[f32; N]> {
    let mut numbers = [0.0; N];
    for number in &mut numbers {
        *number = parse_number(words.next()?)?;
    }
    Some(numbers)
}

fn parse_expected<B: Columns>(words: &mut Words) -> Option<Result<[u32; 4], Refused>> {
    if words.next_if_eq(&"refused").is_some() {
        let number = words.next()?.parse().ok()?;
        return Some(Err(Refused(number)));
    }
    Some(Ok(B::parse(words)?.patterns()))
}

/// Compares what a row expects with what `convert` gives for its numbers, which is the error where the two differ. None if these
/// are not the words of a row.
pub(crate) fn compare<A: Columns, B: Columns, F: FnOnce(A) -> Result<B, NumberFault>>(
    words: &mut Words,
    convert: F,
) -> Option<Result<(), Found>>
    requires { F.IsAlwaysCallable convert }
{
    let given = A::parse(words)?;
    if words.next()? != "=" {
        return None;
    }
    let expected = parse_expected::<B>(words)?;
    if words.next().is_some() {
        return None;
    }
    let found = convert(given).map(B::patterns).map_err(Refused::from);
    Some(if found == expected {
        Ok(())
    } else {
        Err(Found(found))
    })
}
