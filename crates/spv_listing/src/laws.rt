//! What is true of every page.

ghost use Rattle.spv_listing.specs.Listings.{PagesAreListings};

/// The page of a report in the modes `Verify` and `Simplify` is the page of a listing as a value: of what it says of each condition, with
/// terms as they are written.
#[tactic(auto, using(crate::proofs::WrittenReports::pages_are_listings))]
pub fn law_listing()
    ensures listing { PagesAreListings }
{}
