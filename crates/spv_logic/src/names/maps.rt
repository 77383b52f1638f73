// The places of texts.

ghost use Rattle.std.specs.Prelude.{◌≡◌, ◌≤◌, length, OnOk, OnErr};
ghost use Rattle.spv_logic.specs.names.Names.{number_of, packed, PutsPlace};

use std::alloc::{AllocError, Global};
use std::collections::BTreeMap;

// The places of short texts, each found by its bytes as one number.
pub(crate) type ShortPlaces = BTreeMap<u128, u32>;

// The places of the other texts.
pub(crate) type LongPlaces = BTreeMap<Vec<u8>, u32>;

// A short text as one number, whose digits are its bytes behind a 1.
fn packed(text: &[u8]) -> u128
    requires { length text.now ≤ 15 }
    ensures { result ≡ packed text.now }
{
    let mut number = 1u128;
    let mut left = text.len();
    while left > 0 {
        left -= 1;
        number = number * 256 + u128::from(text[left]);
    }
    number
}

// The place of a text.
pub(crate) fn place_in(short: &ShortPlaces, long: &LongPlaces, text: &[u8]) -> Option<u32>
    ensures { result ≡ number_of (λ t. t.items) short.now long.now text.now }
{
    if text.len() <= 15 {
        return short.get(&packed(text)).copied();
    }
    long.get(text).copied()
}

// Gives a text this place.
pub(crate) fn put_place(
    alloc: Global,
    short: &mut ShortPlaces,
    long: &mut LongPlaces,
    text: &[u8],
    place: u32,
) -> Result<(), AllocError>
    ensures ok { OnOk result (PutsPlace (λ t. t.items) short.old long.old text.now place short.new long.new) }
    ensures short { OnErr result (short.new.entries ≡ short.old.entries) }
    ensures long { OnErr result (long.new.entries ≡ long.old.entries) }
{
    if text.len() <= 15 {
        let _none = short.insert(packed(text), place)?;
        return Ok(());
    }
    let key = Vec::from_slice(alloc, text)?;
    let _none = long.insert(key, place)?;
    Ok(())
}
