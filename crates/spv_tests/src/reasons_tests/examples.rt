// Terms to reason about.

ghost use Rattle.std.specs.Prelude.{◌≡◌, ◌<◌, length, IfOk};
ghost use Rattle.spv_logic.specs.declared.types.Sort.TheVariants as sort;
ghost use Rattle.spv_logic.specs.Formulas.{equation};
ghost use Rattle.spv_term.specs.Arena.{Extends, sort_at, tree};
ghost use Rattle.spv_tests.specs.reasons_tests.Ready.{IsExample};

use spv_logic::names::Symbol;
use spv_term::{Head, Sort, TermFault, TermId, Terms};

/// Two terms, an equation that may be told, and the equation of the two.
#[derive(Clone, Copy)]
pub(crate) struct Example {
    pub(crate) left: TermId,
    pub(crate) right: TermId,
    pub(crate) equal: TermId,
    pub(crate) both: TermId,
}

// Two variables that are lists.
fn lists(terms: &mut Terms) -> Result<(TermId, TermId), TermFault>
    ensures left { IfOk result (λ p. p.0.0 < length terms.new.nodes) }
    ensures right { IfOk result (λ p. p.1.0 < length terms.new.nodes) }
    ensures left_sort { IfOk result (λ p. sort_at terms.new p.0 ≡ sort.List) }
    ensures right_sort { IfOk result (λ p. sort_at terms.new p.1 ≡ sort.List) }
{
    let left = terms.make(Head::Var(Symbol(0), Sort::List, 0), &[])?;
    let right = terms.make(Head::Var(Symbol(1), Sort::List, 0), &[])?;
    Ok((left, right))
}

// The first parts of two lists.
#[tactic(auto, using(spv_term::proofs::ArenaLemmas::growth))]
fn firsts(terms: &mut Terms, a: TermId, b: TermId) -> Result<(TermId, TermId), TermFault>
    requires a_in { a.0 < length terms.old.nodes }
    requires b_in { b.0 < length terms.old.nodes }
    requires a_sort { sort_at terms.old a ≡ sort.List }
    requires b_sort { sort_at terms.old b ≡ sort.List }
    ensures left { IfOk result (λ p. p.0.0 < length terms.new.nodes) }
    ensures right { IfOk result (λ p. p.1.0 < length terms.new.nodes) }
    ensures left_sort { IfOk result (λ p. sort_at terms.new p.0 ≡ sort.List) }
    ensures right_sort { IfOk result (λ p. sort_at terms.new p.1 ≡ sort.List) }
    ensures grows { Extends terms.old terms.new }
{
    let left = terms.make(Head::Car, &[a])?;
    let right = terms.make(Head::Car, &[b])?;
    Ok((left, right))
}

// That two lists are equal.
fn equated(terms: &mut Terms, s: TermId, t: TermId) -> Result<TermId, TermFault>
    requires s_in { s.0 < length terms.old.nodes }
    requires t_in { t.0 < length terms.old.nodes }
    requires s_sort { sort_at terms.old s ≡ sort.List }
    requires t_sort { sort_at terms.old t ≡ sort.List }
    ensures within { IfOk result (λ e. e.0 < length terms.new.nodes) }
    ensures tree { IfOk result (λ e. tree terms.new e ≡ equation (tree terms.old s) (tree terms.old t)) }
    ensures grows { Extends terms.old terms.new }
{
    terms.make(Head::Eq, &[s, t])
}

/// The first parts of two lists, that the lists are equal, and that the first parts are.
#[tactic(auto, using(spv_term::proofs::ArenaLemmas::growth))]
pub(crate) fn make_example(terms: &mut Terms) -> Result<Example, TermFault>
    ensures { IfOk result (λ e. IsExample terms.new e.left e.right e.equal e.both) }
{
    let (a, b) = lists(terms)?;
    let (left, right) = firsts(terms, a, b)?;
    let equal = equated(terms, a, b)?;
    let both = equated(terms, left, right)?;
    Ok(Example {
        left,
        right,
        equal,
        both,
    })
}
