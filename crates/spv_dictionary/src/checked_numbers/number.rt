// Fractions of 128 bits, seen as the rational numbers that they are.

ghost use Rattle.std.specs.Prelude.{◌≡◌, ◌↔◌, IsTrue, IsOk, IfOk, IfErr, false};
ghost use Rattle.spv_frac.specs.declared.frac.Op.TheVariants.{Add, Sub, Mul, Div, Cmp};
ghost use Rattle.spv_frac.specs.Range as range;
ghost use Rattle.spv_whole.specs.Fraction as fraction;
ghost use Rattle.spv_frac.specs.rational.Rational.{whole, number, plus, times, opposite, is_zero, is_positive, is_negative};
ghost use Rattle.spv_tableau_rules.specs.tableaux.Numbers.{minus, divided, is_less};
ghost use Rattle.spv_tableau_rules.specs.tableaux.Operations.{operation, fits};

use spv_frac::{Frac, Op, TooWide, law_frac};
use std::cmp::Ordering;
use std::marker::Model;

/// A rational number whose fraction in lowest terms has 128 bits for either number.
#[derive(Clone, Copy, Debug)]
pub struct Number {
    frac: Frac,
}

impl Model for Number {
    ghost use Rattle.spv_whole.specs.Fraction.{IsLowest};
    ghost use Rattle.spv_frac.specs.rational.Rational.{Rational, number};

    ghost Value = { Rational };

    ghost view = { λ n. number n.frac };

    ghost invariant = { λ n. IsLowest n.frac };

    ghost inverse = { λ r. record { frac = r.fraction } };

    ghost use Rattle.std.proofs.Common.{ap};
    ghost use Rattle.spv_frac.proofs.rational.Field.{number_is};

    ghost inverse_ok = { λ n h. ap (λ f. record n { frac = f }) (number_is n.frac h) };
}

/// An operation that does not fit, and its operands.
#[derive(Clone, Copy, Debug)]
pub struct Refused {
    op: Op,
    left: Number,
    right: Number,
}

impl Model for Refused {
    ghost use Rattle.spv_tableau_rules.specs.tableaux.Operations.{Operation};

    ghost Value = { Operation };

    ghost view = { λ o. record { op = o.op; left = o.left; right = o.right } };

    ghost inverse = { λ o. record { op = o.op; left = o.left; right = o.right } };

    ghost use Rattle.std.specs.Prelude.{refl};

    ghost inverse_ok = { λ o h. refl };
}

impl Refused {
    /// The operation.
    pub fn op(self) -> Op
        ensures { result ≡ self.op }
    {
        self.op
    }

    /// What stood on its left.
    pub fn left(self) -> Number
        ensures { result ≡ self.left }
    {
        self.left
    }

    /// What stood on its right.
    pub fn right(self) -> Number
        ensures { result ≡ self.right }
    {
        self.right
    }
}

impl Number {
    /// The number of a fraction.
    pub fn of(frac: Frac) -> Number
        ensures { result ≡ number frac }
    {
        law_frac(&frac);
        Number { frac }
    }

    /// The whole number `n`.
    pub fn whole(n: i128) -> Number
        requires { IsTrue (range.fits n) }
        ensures { result ≡ whole n }
    {
        Number::of(fraction_of(n))
    }

    /// Its fraction.
    pub fn frac(self) -> Frac
        ensures { result ≡ self.fraction }
    {
        self.frac
    }

    /// The number with the other sign.
    pub fn neg(self) -> Number
        ensures { result ≡ opposite self }
    {
        Number::of(self.frac().neg())
    }

    /// Whether it is 0.
    pub fn is_zero(self) -> bool
        ensures { result ≡ is_zero self }
    {
        self.frac().num == 0
    }

    /// Whether it is above 0.
    pub fn is_positive(self) -> bool
        ensures { result ≡ is_positive self }
    {
        self.frac().num > 0
    }

    /// Whether it is below 0.
    pub fn is_negative(self) -> bool
        ensures { result ≡ is_negative self }
    {
        self.frac().num < 0
    }

    /// The sum.
    pub fn add(self, other: Number) -> Result<Number, Refused>
        ensures fits { IsOk result ↔ IsTrue (fits (operation Add self other)) }
        ensures refused { IfErr result (λ o. o ≡ operation Add self other) }
        ensures value { IfOk result (λ answer. answer ≡ plus self other) }
    {
        match self.frac().add(other.frac()) {
            Ok(frac) => Ok(Number::of(frac)),
            Err(TooWide) => Err(Refused {
                op: Op::Add,
                left: self,
                right: other,
            }),
        }
    }

    /// The difference.
    pub fn sub(self, other: Number) -> Result<Number, Refused>
        ensures fits { IsOk result ↔ IsTrue (fits (operation Sub self other)) }
        ensures refused { IfErr result (λ o. o ≡ operation Sub self other) }
        ensures value { IfOk result (λ answer. answer ≡ minus self other) }
    {
        match self.frac().sub(other.frac()) {
            Ok(frac) => Ok(Number::of(frac)),
            Err(TooWide) => Err(Refused {
                op: Op::Sub,
                left: self,
                right: other,
            }),
        }
    }

    /// The product.
    pub fn mul(self, other: Number) -> Result<Number, Refused>
        ensures fits { IsOk result ↔ IsTrue (fits (operation Mul self other)) }
        ensures refused { IfErr result (λ o. o ≡ operation Mul self other) }
        ensures value { IfOk result (λ answer. answer ≡ times self other) }
    {
        match self.frac().mul(other.frac()) {
            Ok(frac) => Ok(Number::of(frac)),
            Err(TooWide) => Err(Refused {
                op: Op::Mul,
                left: self,
                right: other,
            }),
        }
    }

    /// The quotient.
    pub fn div(self, other: Number) -> Result<Number, Refused>
        requires { is_zero other ≡ false }
        ensures fits { IsOk result ↔ IsTrue (fits (operation Div self other)) }
        ensures refused { IfErr result (λ o. o ≡ operation Div self other) }
        ensures value { IfOk result (λ answer. answer ≡ divided self other) }
    {
        match self.frac().div(other.frac()) {
            Ok(frac) => Ok(Number::of(frac)),
            Err(TooWide) => Err(Refused {
                op: Op::Div,
                left: self,
                right: other,
            }),
        }
    }

    /// Whether it is less than the other.
    pub fn is_less(self, other: Number) -> Result<bool, Refused>
        ensures fits { IsOk result ↔ IsTrue (fits (operation Cmp self other)) }
        ensures refused { IfErr result (λ o. o ≡ operation Cmp self other) }
        ensures value { IfOk result (λ answer. answer ≡ is_less self other) }
    {
        match self.frac().cmp(other.frac()) {
            Ok(order) => Ok(order == Ordering::Less),
            Err(TooWide) => Err(Refused {
                op: Op::Cmp,
                left: self,
                right: other,
            }),
        }
    }

    /// Whether it is greater than the other.
    pub fn is_greater(self, other: Number) -> Result<bool, Refused>
        ensures fits { IsOk result ↔ IsTrue (fits (operation Cmp self other)) }
        ensures refused { IfErr result (λ o. o ≡ operation Cmp self other) }
        ensures value { IfOk result (λ answer. answer ≡ is_less other self) }
    {
        match self.frac().cmp(other.frac()) {
            Ok(order) => Ok(order == Ordering::Greater),
            Err(TooWide) => Err(Refused {
                op: Op::Cmp,
                left: self,
                right: other,
            }),
        }
    }
}

// A whole number as a fraction.
fn fraction_of(n: i128) -> Frac
    requires { IsTrue (range.fits n) }
    ensures { result ≡ fraction.whole n }
{
    Frac { num: n, den: 1 }
}
