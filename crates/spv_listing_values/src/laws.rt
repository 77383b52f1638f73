//! What holds of every listing, each law the contract of a function that does nothing.

ghost use Rattle.std.specs.Prelude.{◌≡◌, ℕ, IsTrue, List, Some, None};
ghost use Rattle.spv_listing_values.specs.declared.data.Claim.{Claim};
ghost use Rattle.spv_listing_values.specs.Written.{Written};
ghost use Rattle.spv_listing_values.specs.Page.{page};
ghost use Rattle.spv_listing_values.specs.Reading.{claims_in};
ghost use Rattle.spv_listing_values.specs.Forms.{is_listing};
ghost use Rattle.spv_listing_values.specs.Exact.{listing_in};
ghost use Rattle.spv_listing_values.specs.Worked.{NothingIsPrinted, ProofIsPrinted, TableIsPrinted, LimitIsPrinted};

/// What a listing's page tells, read byte by byte and line by line, is the listing.
pub fn law_listing()
    ensures { (cs : List (Claim Written)) → IsTrue (is_listing cs) → claims_in (page cs) ≡ cs }
{}

/// The bytes of a listing are those of no other, and exactly the bytes of listings are read.
pub fn law_exact()
    ensures one { (a b : List (Claim Written)) → IsTrue (is_listing a) → IsTrue (is_listing b) → page a ≡ page b → a ≡ b }
    ensures again { (cs : List (Claim Written)) → IsTrue (is_listing cs) → listing_in (page cs) ≡ Some cs }
    ensures only { (bytes : List ℕ) (cs : List (Claim Written)) → listing_in bytes ≡ Some cs → IsTrue (is_listing cs) × (page cs ≡ bytes) }
    ensures none { (bytes : List ℕ) → listing_in bytes ≡ None → (cs : List (Claim Written)) → IsTrue (is_listing cs) → page cs ≡ bytes → ⊥ }
{}

/// Small pages, worked by hand.
pub fn law_pages()
    ensures nothing { NothingIsPrinted }
    ensures proof { ProofIsPrinted }
    ensures table { TableIsPrinted }
    ensures limit { LimitIsPrinted }
{}
