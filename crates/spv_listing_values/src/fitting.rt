// Numbers that fit, for proofs alone.

ghost use Rattle.std.specs.Prelude.{◌≡◌, ◌<◌, ◌^◌, true, All, nat_lt};
ghost use Rattle.std.specs.List.{list_all};
ghost use Rattle.spv_listing_values.specs.Forms.{is_short, is_long, is_multiple};
ghost use Rattle.spv_listing_values.specs.Reading.{is_fraction};

use spv_frac::{Frac, law_frac};

pub(crate) fn law_short(number: u32)
    ensures { is_short number ≡ true }
{
    let _ = number;
}

pub(crate) fn law_long(number: u64)
    ensures { is_long number ≡ true }
{
    let _ = number;
}

pub(crate) fn law_byte(number: u8)
    ensures { nat_lt number (2 ^ 8) ≡ true }
{
    let _ = number;
}

pub(crate) fn law_shorts(numbers: &[u32])
    ensures { list_all is_short numbers.now ≡ true }
{
    for number in numbers {
        law_short(*number);
    }
}

pub(crate) fn law_fraction(fraction: &Frac)
    ensures { is_fraction fraction.now ≡ true }
{
    law_frac(fraction);
}

pub(crate) fn law_multiples(multiples: &[(Frac, u32)])
    ensures { list_all is_multiple multiples.now ≡ true }
{
    for multiple in multiples {
        law_fraction(&multiple.0);
        law_short(multiple.1);
    }
}
