// The first fault of a traced number: what went wrong, and in which part of a conversion.
ghost use Rattle.std.specs.Prelude.{◌≡◌};
ghost use Rattle.number.specs.Faults.{trace_of, first_fault, marked_fault};

/// Why a number is spoiled.
#[derive(Clone, Copy)]
pub enum Cause {
    ZeroDivisor = 1,
    Root,
    Other,
}

/// The parts of a conversion that mark the numbers that they answer.
#[derive(Clone, Copy)]
pub enum Stage {
    Toe = 1,
    Cusp,
    Intersection,
    ChromaValues,
    Curve,
    Matrix,
}

/// A cause, and the stage in which it arose; no stage until one has marked it.
#[derive(Clone, Copy)]
pub struct Fault {
    pub cause: Cause,
    pub stage: Option<Stage>,
}

// Cause and stage of a fault together, as numbers; stage 0 where none has marked it.
pub fn trace_of(fault: Option<Fault>) -> Option<(u8, u8)>
    ensures { result ≡ trace_of fault }
{
    fault.map(|f| (f.cause as u8, f.stage.map_or(0, |s| s as u8)))
}

// The first operand's fault, else the second's, else a new one if the result is spoiled.
pub fn first_fault(a: Option<Fault>, b: Option<Fault>, spoiled: bool, cause: Cause) -> Option<Fault>
    ensures { result ≡ first_fault a b spoiled cause }
{
    a.or(b).or(spoiled.then_some(Fault { cause, stage: None }))
}

// A mark gives a stage to a fault that has none.
pub fn marked_fault(fault: Option<Fault>, stage: Stage) -> Option<Fault>
    ensures { result ≡ marked_fault stage fault }
{
    fault.map(|f| Fault {
        stage: f.stage.or(Some(stage)),
        ..f
    })
}
