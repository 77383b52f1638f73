// Fractions in lowest terms.
ghost use Rattle.std.specs.Prelude.{◌≡◌, ◌≢◌, ◌↔◌, ◌<◌, ◌^◌, pos, ◌<ℤ◌, IsTrue, IsOk, IfOk, unsigned_abs};
ghost use Rattle.std.specs.Int.{int_signum};
ghost use Rattle.spv_whole.specs.Fraction.{lowest, whole, negated, sum, product, reciprocal, order};
ghost use Rattle.spv_frac.specs.Range.{op_fits, order_fits, left_num, right_num, factor, IsFrac};

use crate::number::{common_divisor, plus, times};
use std::cmp::Ordering;
use std::marker::Model;
use thiserror::Error;

/// A number of the operation lies outside -(2^127 - 1) to 2^127 - 1.
#[derive(Clone, Copy, Debug, PartialEq, Eq, Error)]
#[error("a number is too wide")]
pub struct TooWide;

/// An operation on two fractions, to say which one met a number that is too wide.
#[derive(Clone, Copy, Debug, PartialEq, Eq)]
pub enum Op {
    Add,
    Sub,
    Mul,
    Div,
    Cmp,
}

/// A fraction in lowest terms. Both numbers lie from -(2^127 - 1) to 2^127 - 1, and `den` is at
/// least 1.
#[derive(Clone, Copy, Debug, PartialEq, Eq)]
pub struct Frac {
    pub num: i128,
    pub den: i128,
}

impl Model for Frac {
    ghost use Rattle.std.specs.Prelude.{ℕ, pos, unsigned_abs, ◌<ℤ◌};
    ghost use Rattle.spv_whole.specs.Fraction.{Fraction};
    ghost use Rattle.spv_frac.specs.Range.{IsFrac};

    ghost Value = { Fraction };

    ghost view = { λ f. record { num = f.num; den = unsigned_abs f.den } };

    ghost invariant = { λ f. (pos 0 <ℤ f.den)
        × IsFrac (record { num = f.num; den = unsigned_abs f.den }) };

    ghost inverse = { λ f. record { num = f.num; den = pos f.den } };

    ghost use Rattle.std.proofs.Common.{ap};
    ghost use Rattle.spv_whole.proofs.Ring.{pos-unsigned_abs};

    ghost inverse_ok = { λ f h. ap (λ d. record f { den = d }) (pos-unsigned_abs f.den h.0) };
}

impl Frac {
    /// The whole number `n`.
    pub fn whole(n: i64) -> Frac
        ensures { result ≡ whole n }
    {
        Frac {
            num: i128::from(n),
            den: 1,
        }
    }

    /// The fraction with the other sign.
    pub fn neg(self) -> Frac
        ensures { result ≡ negated self }
    {
        Frac {
            num: -self.num,
            den: self.den,
        }
    }

    /// -1, 0 or 1, as the fraction is below, at or above 0.
    pub fn sign(self) -> i32
        ensures { result ≡ int_signum self.num }
    {
        self.num.signum() as i32
    }

    /// The sum. For g the greatest common divisor of the two denominators it is refused where
    /// `self.num * (other.den / g)`, `other.num * (self.den / g)`, their sum or
    /// `self.den * (other.den / g)` is out of range.
    pub fn add(self, other: Frac) -> Result<Frac, TooWide>
        ensures fits { IsOk result ↔ IsTrue (op_fits Op.Add self other) }
        ensures value { IfOk result (λ answer. answer ≡ sum self other) }
    {
        let scaled = self.scaled(other)?;
        let num = plus(scaled.left, scaled.right)?;
        let den = times(self.den, scaled.factor)?;
        Ok(lowest(num, den))
    }

    /// The sum with `other` negated, refused as that is.
    pub fn sub(self, other: Frac) -> Result<Frac, TooWide>
        ensures fits { IsOk result ↔ IsTrue (op_fits Op.Sub self other) }
        ensures value { IfOk result (λ answer. answer ≡ sum self (negated other)) }
    {
        self.add(other.neg())
    }

    /// The product, refused where it is out of range in lowest terms.
    pub fn mul(self, other: Frac) -> Result<Frac, TooWide>
        ensures fits { IsOk result ↔ IsTrue (op_fits Op.Mul self other) }
        ensures value { IfOk result (λ answer. answer ≡ product self other) }
    {
        let left = lowest(self.num, other.den);
        let right = lowest(other.num, self.den);
        let num = times(left.num, right.num)?;
        let den = times(left.den, right.den)?;
        Ok(Frac { num, den })
    }

    /// The product with the reciprocal of `other`, refused as that is.
    pub fn div(self, other: Frac) -> Result<Frac, TooWide>
        requires { other.num ≢ pos 0 }
        ensures fits { IsOk result ↔ IsTrue (op_fits Op.Div self other) }
        ensures value { IfOk result (λ answer. answer ≡ product self (reciprocal other)) }
    {
        self.mul(other.reciprocal())
    }

    /// How the fractions compare. For g the greatest common divisor of the two denominators it is
    /// refused where `self.num * (other.den / g)` or `other.num * (self.den / g)` is out of range.
    pub fn cmp(self, other: Frac) -> Result<Ordering, TooWide>
        ensures fits { IsOk result ↔ IsTrue (op_fits Op.Cmp self other) }
        ensures value { IfOk result (λ answer. answer ≡ order self other) }
    {
        let scaled = self.scaled(other)?;
        Ok(scaled.left.cmp(&scaled.right))
    }

    // Both numerators over the least common denominator.
    fn scaled(self, other: Frac) -> Result<Scaled, TooWide>
        ensures fits { IsOk result ↔ IsTrue (order_fits self other) }
        ensures left { IfOk result (λ scaled. scaled.left ≡ left_num self other) }
        ensures right { IfOk result (λ scaled. scaled.right ≡ right_num self other) }
        ensures factor { IfOk result (λ scaled. scaled.factor ≡ pos (factor self other)) }
        ensures is_frac { IsFrac other }
    {
        let dens = lowest(self.den, other.den);
        Ok(Scaled {
            left: times(self.num, dens.den)?,
            right: times(other.num, dens.num)?,
            factor: dens.den,
        })
    }

    fn reciprocal(self) -> Frac
        requires { self.num ≢ pos 0 }
        ensures { result ≡ reciprocal self }
    {
        if self.num < 0 {
            return Frac {
                num: -self.den,
                den: -self.num,
            };
        }
        Frac {
            num: self.den,
            den: self.num,
        }
    }
}

// Two numerators over the least common denominator, which is the first denominator times the factor.
#[derive(Drop)]
struct Scaled {
    left: i128,
    right: i128,
    factor: i128,
}

// `num / den` in lowest terms.
fn lowest(num: i128, den: i128) -> Frac
    requires num_fits { unsigned_abs num < 2 ^ 127 }
    requires den_positive { pos 0 <ℤ den }
    ensures { result ≡ lowest num (unsigned_abs den) }
{
    let divisor = common_divisor(num.unsigned_abs(), den.unsigned_abs());
    // Most fractions are in lowest terms already, and divisions on 128 bits are slow.
    if divisor == 1 {
        return Frac { num, den };
    }
    Frac {
        num: num / divisor as i128,
        den: den / divisor as i128,
    }
}
