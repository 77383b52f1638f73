// What a listing says that is handed in.

ghost use Rattle.std.specs.Prelude.{option_copied, IfErr, IfOk};
ghost use Rattle.spv_verify.specs.tree_reports.Listings.{IsBytesCause, IsListed, IsListFault, IsListingCause, IsListingOf};

use crate::refused::{TextFault, of_listing};
use spv_listing_values::fault::ListFault;
use spv_listing_values::{Listing, read_listing};
use std::alloc::Global;

// The listing of bytes, or why they are none.
fn read(alloc: Global, bytes: &[u8]) -> Result<Listing, ListFault>
    ensures listing { IfOk result (IsListingOf bytes.now) }
    ensures fault { IfErr result (IsListFault bytes.now) }
{
    read_listing(alloc, bytes)
}

// The listing of bytes, or what they are refused for.
#[tactic(auto, using(crate::proofs::tree_reports::ListingCauses::bytes_cause))]
fn bytes_listing(alloc: Global, bytes: &[u8]) -> Result<Listing, TextFault>
    ensures listing { IfOk result (IsListingOf bytes.now) }
    ensures cause { IfErr result (IsBytesCause bytes.now) }
{
    match read(alloc, bytes) {
        Ok(listing) => Ok(listing),
        Err(fault) => Err(of_listing(alloc, fault)),
    }
}

/// The listing that is handed in, where one is, or what it is refused for.
pub(crate) fn listing_for(alloc: Global, bytes: Option<&[u8]>) -> Result<Option<Listing>, TextFault>
    ensures listing { IfOk result (IsListed (option_copied bytes.entry)) }
    ensures cause { IfErr result (IsListingCause (option_copied bytes.entry)) }
{
    match bytes {
        Some(bytes) => match bytes_listing(alloc, bytes) {
            Ok(listing) => Ok(Some(listing)),
            Err(fault) => Err(fault),
        },
        None => Ok(None),
    }
}
