// A list of calls on one stack.
ghost use Rattle.std.specs.Prelude.{◌≡◌};
ghost use Rattle.number.specs.Meaning.{Meaning};
ghost use Rattle.boundary.specs.Model.{Stays, modelled, answered};
ghost use Rattle.boundary.specs.declared.query.Query.{Query as QueryOf};
ghost use Rattle.oklab.specs.Steps.{Follows};
ghost use Rattle.strip.specs.Entries.{ask_query};
ghost use Rattle.strip.specs.Fills.{Each};
ghost use Rattle.strip.specs.Runs.{Made, AsModelled, EndsForgetting};
ghost use Rattle.strip.specs.declared.run.Call.TheVariants.{Forget as ForgetCall};

use crate::indication::Indication;
use crate::page::read_row;
use crate::panel::draw_row;
use boundary::{Boundary, Query};
use fault::{NumberFault, RowFault};
use gamut::chroma::ChromaValues;
use gamut::oklab::Oklab;
use number::Number;
use valve_log::Reading;

/// A row of readings to draw, with how it ended.
#[derive(Drop)]
pub struct DrawCall<P> {
    // Two rows as the caller has them, of one length or not, as a refusal tells; the call writes `end`, whatever it was.
    pub readings: Vec<Reading>,
    pub colors: Vec<Oklab<P>>,
    pub end: Result<(), RowFault>,
}

/// A row of colours to read, with how it ended.
#[derive(Drop)]
pub struct ReadCall<P> {
    pub colors: Vec<Oklab<P>>,
    pub indications: Vec<Indication>,
    pub end: Result<(), RowFault>,
}

/// A query to ask, with its answer.
#[derive(Drop)]
pub struct AskCall<P> {
    pub query: Query<P>,
    pub answer: Result<ChromaValues<P>, NumberFault>,
}

/// A call on a stack.
#[derive(Drop)]
pub enum Call<P> {
    /// The panel draws a row.
    Draw(DrawCall<P>),
    /// The page reads a row.
    Read(ReadCall<P>),
    /// A query is asked.
    Ask(AskCall<P>),
    /// The memos are emptied.
    Forget,
}

// Asks a query whose numbers, as those of its answer, lie in their plain form.
fn ask<N: Number, B: Boundary<N>>(
    boundary: &mut B,
    query: Query<N::Plain>,
) -> Result<ChromaValues<N::Plain>, NumberFault>
    ensures value { Follows N.means (B.meaning boundary.old) (ask_query N.ops N.traced N.plain N.back query) result }
    ensures stays { Stays B.meaning B.model boundary.old boundary.new }
{
    let v = boundary.query(&Query::from_plain(query))?;
    Ok(v.to_plain())
}

// Makes one call.
fn make<N: Number, B: Boundary<N>>(boundary: &mut B, call: &mut Call<N::Plain>)
    ensures value { Made N.means N.ops N.traced N.plain N.back (B.meaning boundary.old) call.old call.new }
    ensures emptied { call.old ≡ ForgetCall → B.fresh boundary.new }
    ensures stays { Stays B.meaning B.model boundary.old boundary.new }
{
    match call {
        Call::Draw(c) => {
            c.end = draw_row(boundary, &c.readings, &mut c.colors);
        }
        Call::Read(c) => {
            c.end = read_row(boundary, &c.colors, &mut c.indications);
        }
        Call::Ask(c) => {
            c.answer = ask(boundary, c.query);
        }
        Call::Forget => boundary.forget(),
    }
}

/// Makes a list of calls, in order, and notes how each ended or was answered.
///
/// Whatever the stack's memos kept on the way: each call ends, and leaves its rows, as with the plain model, which holds
/// the base's meaning and the factors for good; a query among the calls, and every query afterwards, is answered or
/// refused as by the model. After a last forget the memos are empty.
pub fn replay<N: Number, B: Boundary<N>>(boundary: &mut B, calls: &mut [Call<N::Plain>])
    ensures value { Each (Made N.means N.ops N.traced N.plain N.back (B.meaning boundary.old)) calls.old calls.new }
    ensures alike { AsModelled N.means N.back N.arith (modelled N.arith (B.model boundary.old)) calls.old calls.new }
    ensures emptied { EndsForgetting calls.old → B.fresh boundary.new }
    ensures queries { (q : QueryOf Meaning) → answered N.arith (B.meaning boundary.new) q ≡ answered N.arith (modelled N.arith (B.model boundary.old)) q }
    ensures stays { Stays B.meaning B.model boundary.old boundary.new }
{
    for call in calls.iter_mut() {
        make(boundary, call);
    }
}
