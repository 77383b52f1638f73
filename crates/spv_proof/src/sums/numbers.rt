// Terms of sort Int.

ghost use Rattle.std.specs.Prelude.{◌≡◌, ◌<◌, length, IsTrue};
ghost use Rattle.spv_logic.specs.declared.types.Sort.TheVariants as sort;
ghost use Rattle.spv_term.specs.Arena.{tree, sort_at, IsArena};
ghost use Rattle.spv_proof.specs.sums.Readings.{number_in};

use spv_term::{Sort, TermId, Terms};

/// Whether a term is of sort Int.
pub fn is_number(terms: &Terms, t: TermId) -> bool
    requires { t.0 < length terms.now.nodes }
    ensures value { result ≡ number_in terms.now (tree terms.now t) }
    ensures sort { IsTrue result → sort_at terms.now t ≡ sort.Int }
{
    terms.law_arena();
    match terms.sort(t) {
        Sort::Int => true,
        _ => false,
    }
}
