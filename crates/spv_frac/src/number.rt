// Whole numbers of the range, and their greatest common divisor.
ghost use Rattle.std.specs.Prelude.{◌≡◌, ◌↔◌, ◌+ℤ◌, ◌*ℤ◌, IsTrue, IsOk, IfOk};
ghost use Rattle.spv_frac.specs.Range.{fits};
ghost use Rattle.spv_whole.specs.Gcd.{gcd};

use crate::TooWide;

/// The product, refused where it is out of range.
pub fn times(a: i128, b: i128) -> Result<i128, TooWide>
    ensures fits { IsOk result ↔ IsTrue (fits (a *ℤ b)) }
    ensures value { IfOk result (λ product. product ≡ a *ℤ b) }
{
    match a.checked_mul(b) {
        Some(product) if product != i128::MIN => Ok(product),
        _ => Err(TooWide),
    }
}

/// The sum, refused where it is out of range.
pub fn plus(a: i128, b: i128) -> Result<i128, TooWide>
    ensures fits { IsOk result ↔ IsTrue (fits (a +ℤ b)) }
    ensures value { IfOk result (λ sum. sum ≡ a +ℤ b) }
{
    match a.checked_add(b) {
        Some(sum) if sum != i128::MIN => Ok(sum),
        _ => Err(TooWide),
    }
}

// Euclid's algorithm: on 128 bits while a number needs them, and then on 64.
#[tactic(auto, using(spv_whole::proofs::Gcd::steps))]
pub(crate) fn common_divisor(a: u128, b: u128) -> u128
    ensures { result ≡ gcd a b }
{
    let mut x = a;
    let mut y = b;
    while y != 0 {
        if let (Ok(x), Ok(y)) = (u64::try_from(x), u64::try_from(y)) {
            return u128::from(short_common_divisor(x, y));
        }
        let rest = x % y;
        x = y;
        y = rest;
    }
    x
}

#[tactic(auto, using(spv_whole::proofs::Gcd::steps))]
fn short_common_divisor(a: u64, b: u64) -> u64
    ensures { result ≡ gcd a b }
{
    let mut x = a;
    let mut y = b;
    while y != 0 {
        let rest = x % y;
        x = y;
        y = rest;
    }
    x
}
