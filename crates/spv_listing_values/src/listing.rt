//! Listings.

ghost use Rattle.std.specs.Prelude.{◌≡◌, ◌++◌, IfOk, IsTrue, OnOk, length};
ghost use Rattle.std.specs.List.{count_by};
ghost use Rattle.spv_listing_values.specs.Page as spec;
ghost use Rattle.spv_listing_values.specs.Page.{claim_lines, claims_lines, end_lines};
ghost use Rattle.spv_listing_values.specs.Blanks.{lines_bytes};
ghost use Rattle.spv_listing_values.specs.Forms.{is_short};

use crate::data::{Claim, Verdict};
use crate::ends::{push_result, push_total};
use crate::texts::{Text, Texts};
use crate::verdicts::push_claim;
use std::alloc::{AllocError, Global};
use std::marker::Model;

/// What a listing says of one condition, over terms of its own: each once, in the order of first appearance, arguments first.
#[derive(Drop)]
pub struct Entry {
    texts: Texts,
    claim: Claim<Text>,
}

impl Model for Entry {
    ghost use Rattle.spv_listing_values.specs.declared.data.Claim.{Claim};
    ghost use Rattle.spv_listing_values.specs.Written.{Written};
    ghost use Rattle.std.specs.Coded.{codes};
    ghost use Rattle.spv_logic.specs.list.Ways.{coded_by};
    ghost use Rattle.spv_listing_values.specs.Ways.{way_written};
    ghost use Rattle.spv_listing_values.specs.Entries.{IsEntry, written_claim};

    ghost Value = { Claim Written };

    ghost coded = { Prim.hlevel (codes, coded_by way_written) };

    ghost view = { λ e. written_claim e.texts e.claim };

    ghost invariant = { λ e. IsEntry e.texts e.claim };
}

/// A listing: what it says of each condition, in order.
#[derive(Drop)]
pub struct Listing {
    entries: Vec<Entry>,
}

impl Model for Listing {
    ghost use Rattle.std.specs.Prelude.{List, IsTrue, length};
    ghost use Rattle.spv_listing_values.specs.declared.data.Claim.{Claim};
    ghost use Rattle.spv_listing_values.specs.Written.{Written};
    ghost use Rattle.std.specs.Coded.{codes};
    ghost use Rattle.spv_logic.specs.list.Ways.{coded_by};
    ghost use Rattle.spv_listing_values.specs.Ways.{way_written};
    ghost use Rattle.spv_listing_values.specs.Forms.{is_short};

    ghost Value = { List (Claim Written) };

    ghost coded = { Prim.hlevel (codes, coded_by way_written) };

    ghost view = { λ l. l.entries.items };

    ghost invariant = { λ l. IsTrue (is_short (length l.entries.items)) };
}

impl Listing {
    // The listing of these entries.
    pub(crate) fn new(entries: Vec<Entry>) -> Listing
        requires { IsTrue (is_short (length entries.items)) }
        ensures { result ≡ entries.items }
    {
        Listing { entries }
    }

    /// What it says of each condition.
    pub fn entries(&self) -> &[Entry]
        ensures { result.now ≡ self.now }
    {
        self.entries.as_slice()
    }
}

impl Entry {
    ghost use Rattle.spv_listing_values.specs.Entries.{IsEntry, written_claim};

    // A condition over its terms.
    pub(crate) fn new(texts: Texts, claim: Claim<Text>) -> Entry
        requires { IsEntry texts claim }
        ensures { result ≡ written_claim texts claim }
    {
        Entry { texts, claim }
    }

    /// Its terms, and the condition and its verdict over places of the terms.
    pub fn parts(&self) -> (&Texts, &Claim<Text>)
        ensures entry { IsEntry result.0.now result.1.now }
        ensures claim { written_claim result.0.now result.1.now ≡ self.now }
    {
        (&self.texts, &self.claim)
    }

    // Adds the lines of a condition.
    fn push(&self, out: &mut Vec<u8>, number: u64) -> Result<(), AllocError>
        ensures { OnOk result (out.new.items ≡ out.old.items ++ lines_bytes (claim_lines number self.now)) }
    {
        push_claim(out, &self.texts, number, &self.claim)
    }

    // Whether its verdict is Proved.
    fn is_proved(&self) -> bool
        ensures { result ≡ spec.is_proved self.now }
    {
        matches!(&self.claim.verdict, Verdict::Proved(_))
    }

    // Whether its verdict is Unproved.
    fn is_unproved(&self) -> bool
        ensures { result ≡ spec.is_unproved self.now }
    {
        matches!(&self.claim.verdict, Verdict::Unproved(..))
    }

    // Whether it was given up.
    fn is_given_up(&self) -> bool
        ensures { result ≡ spec.is_given_up self.now }
    {
        matches!(&self.claim.verdict, Verdict::GaveUp(_))
    }
}

// The lines of conditions, numbered from 1.
fn push_entries(out: &mut Vec<u8>, entries: &[Entry]) -> Result<(), AllocError>
    ensures { OnOk result (out.new.items ≡ out.old.items ++ lines_bytes (claims_lines 1 entries.now)) }
{
    for (place, entry) in entries.iter().enumerate() {
        entry.push(out, place as u64 + 1)?;
    }
    Ok(())
}

// How many conditions are proved.
fn count_proved(entries: &[Entry]) -> u64
    ensures { result ≡ count_by spec.is_proved entries.now }
{
    let mut count = 0;
    for entry in entries {
        count += u64::from(entry.is_proved());
    }
    count
}

// How many conditions are refuted by a table.
fn count_unproved(entries: &[Entry]) -> u64
    ensures { result ≡ count_by spec.is_unproved entries.now }
{
    let mut count = 0;
    for entry in entries {
        count += u64::from(entry.is_unproved());
    }
    count
}

// How many conditions were given up.
fn count_given_up(entries: &[Entry]) -> u64
    ensures { result ≡ count_by spec.is_given_up entries.now }
{
    let mut count = 0;
    for entry in entries {
        count += u64::from(entry.is_given_up());
    }
    count
}

// The lines that count verdicts.
fn push_end(out: &mut Vec<u8>, entries: &[Entry]) -> Result<(), AllocError>
    ensures { OnOk result (out.new.items ≡ out.old.items ++ lines_bytes (end_lines entries.now)) }
{
    let proved = count_proved(entries);
    let unproved = count_unproved(entries);
    let given_up = count_given_up(entries);
    push_total(out, proved, unproved, given_up)?;
    push_result(out, unproved, given_up)
}

/// The page of a listing.
pub fn page(alloc: Global, listing: &Listing) -> Result<Vec<u8>, AllocError>
    ensures { IfOk result (λ text. text.items ≡ spec.page listing.now) }
{
    let mut out = Vec::new(alloc);
    out.extend_from_slice(b"SPV LISTING 1\n")?;
    push_entries(&mut out, listing.entries.as_slice())?;
    push_end(&mut out, listing.entries.as_slice())?;
    Ok(out)
}
