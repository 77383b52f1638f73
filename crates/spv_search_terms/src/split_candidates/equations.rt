// Equations of two applications, made and added where they are new.

ghost use Rattle.std.specs.Prelude.{◌≡◌, ◌<◌, ◌||◌, not, true, [], ◌∷◌, length, Err, OnOk};
ghost use Rattle.spv_logic.specs.Formulas.{equation};
ghost use Rattle.spv_logic.specs.Terms.{term_eq};
ghost use Rattle.spv_term.specs.declared.nodes.TermFault.TheVariants.{Size};
ghost use Rattle.spv_term.specs.Arena.{AllBelow, tree, trees, sort_at, Extends};
ghost use Rattle.spv_atoms.specs.Atoms.{is_truth, only_if};
ghost use Rattle.spv_models.specs.leaf_models.Atoms.{argument_equations, are_comparable, equations_of, pair_equations};
ghost use Rattle.spv_models.specs.leaf_models.Subterms.{is_listed};
ghost use Rattle.spv_search_terms.specs.subterms.Gaining.{Stops};
ghost use Rattle.spv_search_terms.specs.split_candidates.Equating.{args_at, GainsAtoms};

use crate::head_index::{comparable, is_number, is_truth};
use crate::subterms::{IdSet, made};
use spv_term::{Head, TermFault, TermId, Terms};

// Makes the equation of two terms of one sort, and adds it.
fn equate(terms: &mut Terms, s: TermId, t: TermId, out: &mut IdSet) -> Result<(), TermFault>
    requires s { s.0 < length terms.old.nodes }
    requires t { t.0 < length terms.old.nodes }
    requires sorts { sort_at terms.old s ≡ sort_at terms.old t }
    requires out { AllBelow (length terms.old.nodes) out.old }
    ensures gains { OnOk result (GainsAtoms terms.old out.old terms.new out.new
        (equation (tree terms.old s) (tree terms.old t) ∷ [])) }
    ensures grows { Extends terms.old terms.new }
    ensures size { result ≡ Err Size → Stops terms.old (equation (tree terms.old s) (tree terms.old t) ∷ []) }
{
    let e = made(terms, Head::Eq, &[s, t])?;
    terms.law_arena();
    out.add(e)?;
    Ok(())
}

// The same, where it is wanted.
fn equate_if(
    terms: &mut Terms,
    wanted: bool,
    s: TermId,
    t: TermId,
    out: &mut IdSet,
) -> Result<(), TermFault>
    requires s { s.0 < length terms.old.nodes }
    requires t { t.0 < length terms.old.nodes }
    requires sorts { sort_at terms.old s ≡ sort_at terms.old t }
    requires out { AllBelow (length terms.old.nodes) out.old }
    ensures gains { OnOk result (GainsAtoms terms.old out.old terms.new out.new
        (only_if wanted (equation (tree terms.old s) (tree terms.old t)))) }
    ensures grows { Extends terms.old terms.new }
    ensures size { result ≡ Err Size
        → Stops terms.old (only_if wanted (equation (tree terms.old s) (tree terms.old t))) }
{
    if wanted {
        equate(terms, s, t, out)
    } else {
        Ok(())
    }
}

fn neither(a: bool, b: bool) -> bool
    ensures { result ≡ not (a || b) }
{
    !(a || b)
}

// Whether two arguments at one place want an equation: they differ, and are not of sort Bool.
fn wants(terms: &Terms, s: TermId, t: TermId) -> bool
    requires s { s.0 < length terms.now.nodes }
    requires t { t.0 < length terms.now.nodes }
    ensures { result ≡ not (term_eq (tree terms.now s) (tree terms.now t)
        || is_truth terms.now.shapes terms.now.decls (tree terms.now s)) }
{
    terms.law_arena();
    let truth = is_truth(terms, s);
    neither(s.0 == t.0, truth)
}

// Makes the equation of two arguments at one place.
fn equate_argument(
    terms: &mut Terms,
    s: TermId,
    t: TermId,
    out: &mut IdSet,
) -> Result<(), TermFault>
    requires s { s.0 < length terms.old.nodes }
    requires t { t.0 < length terms.old.nodes }
    requires sorts { sort_at terms.old s ≡ sort_at terms.old t }
    requires out { AllBelow (length terms.old.nodes) out.old }
    ensures gains { OnOk result (GainsAtoms terms.old out.old terms.new out.new
        (only_if (not (term_eq (tree terms.old s) (tree terms.old t)
        || is_truth terms.old.shapes terms.old.decls (tree terms.old s)))
        (equation (tree terms.old s) (tree terms.old t)))) }
    ensures grows { Extends terms.old terms.new }
    ensures size { result ≡ Err Size → Stops terms.old
        (only_if (not (term_eq (tree terms.old s) (tree terms.old t)
        || is_truth terms.old.shapes terms.old.decls (tree terms.old s)))
        (equation (tree terms.old s) (tree terms.old t))) }
{
    let wanted = wants(terms, s, t);
    equate_if(terms, wanted, s, t, out)
}

// Makes the equations of the arguments of two comparable applications.
fn equate_arguments(
    terms: &mut Terms,
    s: TermId,
    t: TermId,
    out: &mut IdSet,
) -> Result<(), TermFault>
    requires s { s.0 < length terms.old.nodes }
    requires t { t.0 < length terms.old.nodes }
    requires pair { are_comparable terms.old.shapes terms.old.decls (tree terms.old s) (tree terms.old t) ≡ true }
    requires out { AllBelow (length terms.old.nodes) out.old }
    ensures gains { OnOk result (GainsAtoms terms.old out.old terms.new out.new
        (argument_equations (is_truth terms.old.shapes terms.old.decls)
        (trees terms.old (args_at terms.old s)) (trees terms.old (args_at terms.old t)))) }
    ensures grows { Extends terms.old terms.new }
    ensures size { result ≡ Err Size → Stops terms.old
        (argument_equations (is_truth terms.old.shapes terms.old.decls)
        (trees terms.old (args_at terms.old s)) (trees terms.old (args_at terms.old t))) }
{
    terms.law_arena();
    let count = terms.node(s).args.len();
    for i in 0..count {
        let left = terms.node(s).args.get(i);
        let right = terms.node(t).args.get(i);
        equate_argument(terms, left, right, out)?;
    }
    Ok(())
}

// Makes the equations of two comparable applications.
fn equate_pair(terms: &mut Terms, s: TermId, t: TermId, out: &mut IdSet) -> Result<(), TermFault>
    requires s { s.0 < length terms.old.nodes }
    requires t { t.0 < length terms.old.nodes }
    requires pair { are_comparable terms.old.shapes terms.old.decls (tree terms.old s) (tree terms.old t) ≡ true }
    requires out { AllBelow (length terms.old.nodes) out.old }
    ensures gains { OnOk result (GainsAtoms terms.old out.old terms.new out.new
        (equations_of terms.old.shapes terms.old.decls (tree terms.old s) (tree terms.old t))) }
    ensures grows { Extends terms.old terms.new }
    ensures size { result ≡ Err Size → Stops terms.old
        (equations_of terms.old.shapes terms.old.decls (tree terms.old s) (tree terms.old t)) }
{
    terms.law_arena();
    equate_arguments(terms, s, t, out)?;
    let wanted = is_number(terms, s);
    equate_if(terms, wanted, s, t, out)
}

/// Makes the equations of two applications that are comparable; of two others nothing.
pub(crate) fn equate_if_comparable(
    terms: &mut Terms,
    s: TermId,
    t: TermId,
    s_is_listed: bool,
    t_is_listed: bool,
    out: &mut IdSet,
) -> Result<(), TermFault>
    requires s { s.0 < length terms.old.nodes }
    requires t { t.0 < length terms.old.nodes }
    requires s_listed { s_is_listed ≡ is_listed (tree terms.old s) }
    requires t_listed { t_is_listed ≡ is_listed (tree terms.old t) }
    requires out { AllBelow (length terms.old.nodes) out.old }
    ensures gains { OnOk result (GainsAtoms terms.old out.old terms.new out.new
        (pair_equations terms.old.shapes terms.old.decls (tree terms.old s) (tree terms.old t))) }
    ensures grows { Extends terms.old terms.new }
    ensures size { result ≡ Err Size → Stops terms.old
        (pair_equations terms.old.shapes terms.old.decls (tree terms.old s) (tree terms.old t)) }
{
    if !comparable(terms, s, t, s_is_listed, t_is_listed) {
        return Ok(());
    }
    equate_pair(terms, s, t, out)
}
