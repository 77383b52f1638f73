// A term in the place of a variable in all conditions.

ghost use Rattle.std.specs.Prelude.{◌≡◌, ◌<◌, [], ◌∷◌, map, length, Err, IfOk, IsTrue};
ghost use Rattle.spv_logic.specs.Substitution.{is_variable};
ghost use Rattle.spv_term.specs.declared.nodes.TermFault.TheVariants.{Size};
ghost use Rattle.spv_term.specs.Arena.{tree, sort_at, Extends};
ghost use Rattle.spv_term.specs.substitution.Images.{head_at, ArePairs};
ghost use Rattle.spv_term.specs.substitution.Parts.{AddsParts, LacksPart};
ghost use Rattle.spv_meaning.specs.Before as before;
ghost use Rattle.spv_assign.specs.Conditions.{conditions_of, AreIn, sorts_of, all_terms_in, pairs_of};

use crate::pending::Pending;
use spv_term::{TermFault, TermId, Terms};
use std::alloc::Global;

/// The conditions before a term is put into a variable, where `rest` are those behind: the term in the
/// place of the variable. The refusals are those of `Pending::replaced`.
pub fn before_assign(
    terms: &mut Terms,
    alloc: Global,
    target: TermId,
    v: TermId,
    rest: &Pending,
) -> Result<Pending, TermFault>
    requires rest { AreIn terms.old rest.now.items }
    requires target { target.0 < length terms.old.nodes }
    requires variable { IsTrue (is_variable (head_at terms.old target)) }
    requires v { v.0 < length terms.old.nodes }
    requires sorts { sort_at terms.old v ≡ sort_at terms.old target }
    ensures conditions { IfOk result (λ cs. conditions_of terms.new cs.items
        ≡ before.replaced ((head_at terms.old target, tree terms.old v) ∷ []) (conditions_of terms.old rest.now.items)) }
    ensures sorts { IfOk result (λ cs. map (sorts_of terms.new) cs.items ≡ map (sorts_of terms.old) rest.now.items) }
    ensures in_range { IfOk result (λ cs. AreIn terms.new cs.items) }
    ensures grows { Extends terms.old terms.new }
    ensures only { AddsParts terms.old terms.new
        (all_terms_in (before.replaced ((head_at terms.old target, tree terms.old v) ∷ []) (conditions_of terms.old rest.now.items))) }
    ensures size { result ≡ Err Size → LacksPart terms.new
        (all_terms_in (before.replaced ((head_at terms.old target, tree terms.old v) ∷ []) (conditions_of terms.old rest.now.items))) }
{
    rest.replaced(terms, alloc, &[(target, v)])
}
