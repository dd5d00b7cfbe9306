// A number of any kind with its first fault.
ghost use Rattle.std.specs.Prelude.{◌≡◌, None};
ghost use Rattle.number.specs.Faults.{result as result_of, trace_of, traced_ops, traced_plain, traced_back};
ghost use Rattle.std.proofs.Common.{inl, inr, ⊎_elim, rules};

use crate::fault::{Cause, Fault, Stage, first_fault, marked_fault, trace_of};
use crate::kind::{Exact, Number};
use crate::literal::Literal;

/// A value of the kind below, and the first fault on the way to it.
#[derive(Clone, Copy)]
pub struct Traced<N> {
    value: N,
    fault: Option<Fault>,
}

/// The plain form of a traced number: the plain value below, and the fault.
#[derive(Clone, Copy)]
pub struct PlainTraced<P> {
    pub value: P,
    pub fault: Option<Fault>,
}

impl<N: Number> Traced<N> {
    /// A value of the kind below, without a fault unless it is spoiled.
    pub fn new(value: N) -> Traced<N>
        ensures { result ≡ result_of N.ops value None None Cause.Other }
    {
        result(value, None, None, Cause::Other)
    }

    /// The value of the kind below.
    pub fn value(self) -> N
        ensures { result ≡ self.value }
    {
        self.value
    }

    // The result of an operation on one value, with the fault of its operand.
    fn unary<F: FnOnce(N) -> N>(self, operation: F, cause: Cause) -> Traced<N>
        requires { F.pre operation self.value }
        ensures { (value : N) × F.post operation self.value value × (result ≡ result_of N.ops value self.fault None cause) }
    {
        result(operation(self.value), self.fault, None, cause)
    }

    // The result of an operation on two values, with the faults of both operands.
    fn binary<F: FnOnce(N, N) -> N>(self, other: Traced<N>, operation: F, cause: Cause) -> Traced<N>
        requires { F.pre operation self.value other.value }
        ensures { (value : N) × F.post operation self.value other.value value × (result ≡ result_of N.ops value self.fault other.fault cause) }
    {
        let value = operation(self.value, other.value);
        result(value, self.fault, other.fault, cause)
    }
}

// A result with the faults of its operands and the cause that a new fault has.
fn result<N: Number>(value: N, a: Option<Fault>, b: Option<Fault>, cause: Cause) -> Traced<N>
    ensures { result ≡ result_of N.ops value a b cause }
{
    Traced {
        value,
        fault: first_fault(a, b, value.is_spoiled(), cause),
    }
}

impl<N: Number> Number for Traced<N> {
    type Plain = PlainTraced<N::Plain>;

    ghost ops = { traced_ops N.Number.ops };

    ghost means = { λ t. N.Number.means t.value };

    ghost arith = { N.Number.arith };

    ghost exact = { N.Number.exact };

    ghost traced = { λ t. trace_of t.fault };

    ghost plain = { traced_plain N.Number.plain };

    ghost back = { traced_back N.Number.back };

    ghost hom = { let below = N.Number.hom in
        record {
          add = λ x y. below.add x.value y.value;
          sub = λ x y. below.sub x.value y.value;
          mul = λ x y. below.mul x.value y.value;
          div = λ x y. below.div x.value y.value;
          neg = λ x. below.neg x.value;
          min = λ x y. below.min x.value y.value;
          max = λ x y. below.max x.value y.value;
          sqrt = λ x. below.sqrt x.value;
          cbrt = λ x. below.cbrt x.value;
          whole = λ z. below.whole z;
          literal = λ d. below.literal d;
          mark = λ s x. below.mark s x.value;
          lt = λ x y. below.lt x.value y.value;
          le = λ x y. below.le x.value y.value;
          eq = λ x y. below.eq x.value y.value;
          same = λ x y. below.same x.value y.value;
          spoiled = λ x. below.spoiled x.value;
          divisor = λ x. below.divisor x.value;
          direction = λ x y. below.direction x.value y.value;
          nearest = λ x. below.nearest x.value;
        } };

    ghost exactness = { Prim.search rules };

    ghost meant = { Prim.search rules };

    ghost alike = { λ x y. N.Number.alike x.value y.value };

    ghost again = { Prim.search rules };

    ghost forms = { λ p. ⊎_elim (λ e. inl (λ i. record { value = e i; fault = p.fault })) inr (N.Number.forms p.value) };

    fn add(self, other: Traced<N>) -> Traced<N> {
        self.binary(other, N::add, Cause::Other)
    }

    fn sub(self, other: Traced<N>) -> Traced<N> {
        self.binary(other, N::sub, Cause::Other)
    }

    fn mul(self, other: Traced<N>) -> Traced<N> {
        self.binary(other, N::mul, Cause::Other)
    }

    fn div(self, other: Traced<N>) -> Traced<N> {
        let cause = if other.value.eq(N::whole(0)) {
            Cause::ZeroDivisor
        } else {
            Cause::Other
        };
        self.binary(other, N::div, cause)
    }

    fn neg(self) -> Traced<N> {
        self.unary(N::neg, Cause::Other)
    }

    fn min(self, other: Traced<N>) -> Traced<N> {
        self.binary(other, N::min, Cause::Other)
    }

    fn max(self, other: Traced<N>) -> Traced<N> {
        self.binary(other, N::max, Cause::Other)
    }

    fn sqrt(self) -> Traced<N> {
        self.unary(N::sqrt, Cause::Root)
    }

    fn cbrt(self) -> Traced<N> {
        self.unary(N::cbrt, Cause::Root)
    }

    fn whole(n: i64) -> Traced<N> {
        Traced::new(N::whole(n))
    }

    fn literal(l: Literal) -> Traced<N> {
        Traced::new(N::literal(l))
    }

    fn mark(self, stage: Stage) -> Traced<N> {
        Traced {
            value: self.value.mark(stage),
            fault: marked_fault(self.fault, stage),
        }
    }

    fn lt(self, other: Traced<N>) -> bool {
        self.value.lt(other.value)
    }

    fn le(self, other: Traced<N>) -> bool {
        self.value.le(other.value)
    }

    fn eq(self, other: Traced<N>) -> bool {
        self.value.eq(other.value)
    }

    fn same(self, other: Traced<N>) -> bool {
        self.value.same(other.value)
    }

    fn is_spoiled(self) -> bool {
        self.value.is_spoiled()
    }

    fn is_valid_divisor(self) -> bool {
        self.value.is_valid_divisor()
    }

    fn is_direction(a: Traced<N>, b: Traced<N>) -> bool {
        N::is_direction(a.value, b.value)
    }

    fn nearest(self) -> Option<i32> {
        self.value.nearest()
    }

    fn trace(self) -> Option<(u8, u8)> {
        trace_of(self.fault)
    }

    fn to_plain(self) -> PlainTraced<N::Plain> {
        PlainTraced {
            value: self.value.to_plain(),
            fault: self.fault,
        }
    }

    fn from_plain(p: PlainTraced<N::Plain>) -> Traced<N> {
        Traced {
            value: N::from_plain(p.value),
            fault: p.fault,
        }
    }
}

impl<N: Exact> Exact for Traced<N> {
    fn is_exact() -> bool {
        N::is_exact()
    }
}
