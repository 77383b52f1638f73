//! Listings that are read back.

ghost use Rattle.std.specs.Prelude.{◌≡◌, ◌<◌, ◌≤◌, ◌↔◌, ℕ, List, All, Some, None, Ok, Err, IsTrue, IfOk, MatchResult, MatchOption, length, map, reverse, true, false, not};
ghost use Rattle.std.specs.Char.{is_ascii_lowercase};
ghost use Rattle.std.specs.List.{list_all};
ghost use Rattle.spv_logic.specs.names.Names.{IsFolded};
ghost use Rattle.spv_listing_values.specs.declared.data.Claim.{Claim};
ghost use Rattle.spv_listing_values.specs.declared.fault.ListFault.TheVariants.{TooLong, Form, Memory};
ghost use Rattle.spv_listing_values.specs.Written.{Written};
ghost use Rattle.spv_listing_values.specs.Page as spec;
ghost use Rattle.spv_listing_values.specs.Reading.{claims_in};
ghost use Rattle.spv_listing_values.specs.Forms.{is_claim, is_listing};
ghost use Rattle.spv_listing_values.specs.Entries.{written_claim};
ghost use Rattle.spv_listing_values.specs.Exact.{listing_in};
ghost use Rattle.spv_listing_values.specs.Followed.{IsRead};

use crate::fault::ListFault;
use crate::forms::is_claim;
use crate::listing::{Entry, Listing, page};
use crate::reading::{Read, claims_in};
use std::alloc::{AllocError, Global};

/// The most bytes of a listing that is read.
pub const LONGEST_LISTING: usize = 67108864;

// The most conditions of a listing.
const MOST_CONDITIONS: usize = 4294967295;

// The most terms of a condition: a place is a number of 32 bits.
const MOST_TERMS: usize = 4294967296;

// The line of the first byte in which two texts differ.
fn line_of_difference(bytes: &[u8], other: &[u8]) -> u32
    requires { length bytes.now ≤ 67108864 }
{
    let mut line = 1;
    for at in 0..bytes.len() {
        if at >= other.len() || bytes[at] != other[at] {
            return line;
        }
        if bytes[at] == b'\n' {
            line += 1;
        }
    }
    line
}

// The last line.
fn last_line(bytes: &[u8]) -> u32
    requires { length bytes.now ≤ 67108864 }
{
    let mut line = 1;
    for at in 0..bytes.len() {
        if bytes[at] == b'\n' && at + 1 < bytes.len() {
            line += 1;
        }
    }
    line
}

// Whether no byte is one of the letters a to z, which no listing has.
fn is_folded(bytes: &[u8]) -> bool
    ensures { result ≡ list_all (λ b. not (is_ascii_lowercase b)) bytes.now }
{
    for byte in bytes {
        if byte.is_ascii_lowercase() {
            return false;
        }
    }
    true
}

// A condition as an entry, if it has the forms of a listing.
fn entry_of(read: Read) -> Result<Option<Entry>, AllocError>
    requires { IsRead read.texts read.claim }
    ensures { IfOk result (λ o. MatchOption o
        (is_claim (written_claim read.texts read.claim) ≡ false)
        (λ e. (e ≡ written_claim read.texts read.claim) × (is_claim (written_claim read.texts read.claim) ≡ true))) }
{
    let Read { texts, claim } = read;
    if texts.len() > MOST_TERMS {
        return Err(AllocError);
    }
    if is_claim(&texts, &claim) {
        return Ok(Some(Entry::new(texts, claim)));
    }
    Ok(None)
}

// Entries, the last one first.
fn reversed(entries: Vec<Entry>) -> Vec<Entry>
    ensures { result.items ≡ reverse entries.items }
{
    let mut entries = entries;
    entries.as_mut_slice().reverse();
    entries
}

// Conditions as entries, if each has the forms of a listing.
fn entries_of(alloc: Global, read: Vec<Read>) -> Result<Option<Vec<Entry>>, AllocError>
    requires { All (λ e. IsRead e.texts e.claim) read.items }
    ensures { IfOk result (λ o. MatchOption o
        (list_all is_claim (map (λ e. written_claim e.texts e.claim) read.items) ≡ false)
        (λ entries. (entries.items ≡ map (λ e. written_claim e.texts e.claim) read.items) × (list_all is_claim entries.items ≡ true))) }
{
    let mut read = read;
    let mut entries = Vec::with_capacity(alloc, read.len())?;
    while let Some(one) = read.pop() {
        match entry_of(one)? {
            None => return Ok(None),
            Some(entry) => entries.push(entry)?,
        }
    }
    Ok(Some(reversed(entries)))
}

// The listing of conditions, if they have the forms of one.
fn listing_of(alloc: Global, read: Vec<Read>) -> Result<Option<Listing>, AllocError>
    requires { All (λ e. IsRead e.texts e.claim) read.items }
    ensures { IfOk result (λ o. MatchOption o
        (is_listing (map (λ e. written_claim e.texts e.claim) read.items) ≡ false)
        (λ l. (l ≡ map (λ e. written_claim e.texts e.claim) read.items) × (is_listing l ≡ true))) }
{
    match entries_of(alloc, read)? {
        None => Ok(None),
        Some(entries) => {
            if entries.len() > MOST_CONDITIONS {
                return Ok(None);
            }
            Ok(Some(Listing::new(entries)))
        }
    }
}

// A listing that was read from bytes, if it prints as these bytes.
fn printed_again(alloc: Global, bytes: &[u8], listing: Listing) -> Result<Listing, ListFault>
    requires short { length bytes.now ≤ 67108864 }
    requires read { listing ≡ claims_in bytes.now }
    requires formed { is_listing listing ≡ true }
    ensures ok { IfOk result (λ l. listing_in bytes.now ≡ Some l) }
    ensures form { (n : ℕ) → result ≡ Err (Form n) → listing_in bytes.now ≡ None }
    ensures few { result ≡ Err TooLong → ⊥ }
{
    let printed = page(alloc, &listing)?;
    if printed.as_slice() == bytes {
        return Ok(listing);
    }
    Err(ListFault::Form(line_of_difference(bytes, printed.as_slice())))
}

// The listing of bytes without small letters.
fn read_folded(alloc: Global, bytes: &[u8]) -> Result<Listing, ListFault>
    requires short { length bytes.now ≤ 67108864 }
    requires folded { IsFolded bytes.now }
    ensures ok { IfOk result (λ l. listing_in bytes.now ≡ Some l) }
    ensures form { (n : ℕ) → result ≡ Err (Form n) → listing_in bytes.now ≡ None }
    ensures few { result ≡ Err TooLong → ⊥ }
{
    let read = claims_in(alloc, bytes)?;
    match listing_of(alloc, read)? {
        None => Err(ListFault::Form(last_line(bytes))),
        Some(listing) => printed_again(alloc, bytes, listing),
    }
}

// The listing of bytes that are not too many.
fn read_short(alloc: Global, bytes: &[u8]) -> Result<Listing, ListFault>
    requires short { length bytes.now ≤ 67108864 }
    ensures ok { IfOk result (λ l. listing_in bytes.now ≡ Some l) }
    ensures form { (n : ℕ) → result ≡ Err (Form n) → listing_in bytes.now ≡ None }
    ensures few { result ≡ Err TooLong → ⊥ }
{
    if !is_folded(bytes) {
        return Err(ListFault::Form(1));
    }
    read_folded(alloc, bytes)
}

/// Reads a listing: from the bytes of its page the listing itself.
pub fn read_listing(alloc: Global, bytes: &[u8]) -> Result<Listing, ListFault>
    // What is read is a listing, and the bytes are its page.
    ensures exact { IfOk result (λ l. IsTrue (is_listing l) × (spec.page l ≡ bytes.now)) }
    // Each listing whose page is short enough is read back from its page, unless memory runs out.
    ensures again { (l : List (Claim Written)) → IsTrue (is_listing l) → spec.page l ≡ bytes.now → length bytes.now ≤ 67108864 → MatchResult result (λ r. r ≡ l) (λ fault. fault ≡ Memory) }
    ensures too_long { (result ≡ Err TooLong) ↔ (67108864 < length bytes.now) }
    // Form is the answer only where no listing has these bytes.
    ensures form { (n : ℕ) (l : List (Claim Written)) → result ≡ Err (Form n) → IsTrue (is_listing l) → spec.page l ≡ bytes.now → ⊥ }
{
    if bytes.len() > LONGEST_LISTING {
        return Err(ListFault::TooLong);
    }
    read_short(alloc, bytes)
}
