// Terms made in the arena.

ghost use Rattle.std.specs.Prelude.{◌≡◌, ◌<◌, [], ◌∷◌, length, Err, Some, IfOk, IsTrue};
ghost use Rattle.std.specs.List.{list_all};
ghost use Rattle.spv_logic.specs.Sorts.{numeral_fits, term_sort};
ghost use Rattle.spv_program.specs.Terms as spec;
ghost use Rattle.spv_program.specs.Terms.{name_in};
ghost use Rattle.spv_term.specs.declared.nodes.TermFault.TheVariants.{Size};
ghost use Rattle.spv_term.specs.Arena.{tree, sort_at, Extends};
ghost use Rattle.spv_term.specs.substitution.Parts.{AddsParts, LacksPart};
ghost use Rattle.spv_expression_terms.specs.term_walk.ExpressionTerms as plain;
ghost use Rattle.spv_expression_terms.specs.term_walk.Makeable.{IsWellSorted};
ghost use Rattle.spv_expression_terms.specs.term_walk.Names.{head_in};
ghost use Rattle.spv_expression_terms.specs.term_walk.OuterCalls.{filled, filled_place};

use crate::postfix::built;
use crate::sort_table::SortTable;
use crate::term_walk::writing::{
    write_exit_formula, write_expression, write_filled, write_filled_place, write_formula,
    write_place,
};
use spv_logic::Head;
use spv_program::ordered_map::Named;
use spv_program::typed::{Designator, Expression, Formula};
use spv_term::{TermFault, TermId, Terms};
use std::alloc::Global;

/// Makes the term of a formula, whose names are variables with the sorts of the table. `Size` comes only
/// where the arena is full and a part of the term is not there; nothing but parts of it is added, also
/// before an error.
pub fn formula_term(
    terms: &mut Terms,
    alloc: Global,
    names: &SortTable<'_>,
    f: &Formula,
) -> Result<TermId, TermFault>
    requires { IsWellSorted terms.old.shapes terms.old.decls (spec.formula_term (name_in names.now) f.now) }
    ensures tree { IfOk result (λ t. tree terms.new t ≡ spec.formula_term (name_in names.now) f.now) }
    ensures sort { IfOk result (λ t. term_sort terms.old.shapes terms.old.decls (spec.formula_term (name_in names.now) f.now) ≡ Some (sort_at terms.new t)) }
    ensures in_range { IfOk result (λ t. t.0 < length terms.new.nodes) }
    ensures grows { Extends terms.old terms.new }
    ensures only { AddsParts terms.old terms.new (spec.formula_term (name_in names.now) f.now ∷ []) }
    ensures size { result ≡ Err Size → LacksPart terms.new (spec.formula_term (name_in names.now) f.now ∷ []) }
{
    let mut pieces = Vec::new(alloc);
    write_formula(&mut pieces, names, f)?;
    built(terms, alloc, pieces.as_slice())
}

/// Makes the term of a formula of EXIT: those of its names that `starts` has stand for what they were at
/// the entry. `Size` comes only where the arena is full and a part of the term is not there; nothing but
/// parts of it is added, also before an error.
pub fn exit_formula_term(
    terms: &mut Terms,
    alloc: Global,
    names: &SortTable<'_>,
    starts: &Named<()>,
    f: &Formula,
) -> Result<TermId, TermFault>
    requires { IsWellSorted terms.old.shapes terms.old.decls (spec.formula_term (head_in names.now starts.now) f.now) }
    ensures tree { IfOk result (λ t. tree terms.new t ≡ spec.formula_term (head_in names.now starts.now) f.now) }
    ensures sort { IfOk result (λ t. term_sort terms.old.shapes terms.old.decls (spec.formula_term (head_in names.now starts.now) f.now) ≡ Some (sort_at terms.new t)) }
    ensures in_range { IfOk result (λ t. t.0 < length terms.new.nodes) }
    ensures grows { Extends terms.old terms.new }
    ensures only { AddsParts terms.old terms.new (spec.formula_term (head_in names.now starts.now) f.now ∷ []) }
    ensures size { result ≡ Err Size → LacksPart terms.new (spec.formula_term (head_in names.now starts.now) f.now ∷ []) }
{
    let mut pieces = Vec::new(alloc);
    write_exit_formula(&mut pieces, names, starts, f)?;
    built(terms, alloc, pieces.as_slice())
}

/// Makes the term of an expression without calls, whose variables have the sorts of the table. `Size`
/// comes only where the arena is full and a part of the term is not there; nothing but parts of it is
/// added, also before an error.
pub fn expression_term(
    terms: &mut Terms,
    alloc: Global,
    names: &SortTable<'_>,
    e: &Expression,
) -> Result<TermId, TermFault>
    requires calls { IsTrue (plain.has_no_calls e.now) }
    requires sorted { IsWellSorted terms.old.shapes terms.old.decls (plain.expression_term (name_in names.now) e.now) }
    ensures tree { IfOk result (λ t. tree terms.new t ≡ plain.expression_term (name_in names.now) e.now) }
    ensures sort { IfOk result (λ t. term_sort terms.old.shapes terms.old.decls (plain.expression_term (name_in names.now) e.now) ≡ Some (sort_at terms.new t)) }
    ensures in_range { IfOk result (λ t. t.0 < length terms.new.nodes) }
    ensures grows { Extends terms.old terms.new }
    ensures only { AddsParts terms.old terms.new (plain.expression_term (name_in names.now) e.now ∷ []) }
    ensures size { result ≡ Err Size → LacksPart terms.new (plain.expression_term (name_in names.now) e.now ∷ []) }
{
    let mut pieces = Vec::new(alloc);
    write_expression(&mut pieces, names, e)?;
    built(terms, alloc, pieces.as_slice())
}

/// Makes the term of what stands at a place whose selectors make no calls. `Size` comes only where the
/// arena is full and a part of the term is not there; nothing but parts of it is added, also before an
/// error.
pub fn place_term(
    terms: &mut Terms,
    alloc: Global,
    names: &SortTable<'_>,
    d: &Designator,
) -> Result<TermId, TermFault>
    requires calls { IsTrue (plain.place_has_no_calls d.now) }
    requires sorted { IsWellSorted terms.old.shapes terms.old.decls (plain.place_term (name_in names.now) d.now) }
    ensures tree { IfOk result (λ t. tree terms.new t ≡ plain.place_term (name_in names.now) d.now) }
    ensures sort { IfOk result (λ t. term_sort terms.old.shapes terms.old.decls (plain.place_term (name_in names.now) d.now) ≡ Some (sort_at terms.new t)) }
    ensures in_range { IfOk result (λ t. t.0 < length terms.new.nodes) }
    ensures grows { Extends terms.old terms.new }
    ensures only { AddsParts terms.old terms.new (plain.place_term (name_in names.now) d.now ∷ []) }
    ensures size { result ≡ Err Size → LacksPart terms.new (plain.place_term (name_in names.now) d.now ∷ []) }
{
    let mut pieces = Vec::new(alloc);
    write_place(&mut pieces, names, d)?;
    built(terms, alloc, pieces.as_slice())
}

/// Makes the term of an expression, with these variables in the place of its outermost calls, in the order in which they are
/// made. Its own variables have the sorts of the table. `Size` comes only where the arena is full and a part of the term is
/// not there; nothing but parts of it is added, also before an error.
pub fn filled_term(
    terms: &mut Terms,
    alloc: Global,
    names: &SortTable<'_>,
    variables: &[Head],
    e: &Expression,
) -> Result<TermId, TermFault>
    requires variables { IsTrue (list_all numeral_fits variables.now) }
    requires sorted { IsWellSorted terms.old.shapes terms.old.decls (filled (name_in names.now) variables.now e.now) }
    ensures tree { IfOk result (λ t. tree terms.new t ≡ filled (name_in names.now) variables.now e.now) }
    ensures sort { IfOk result (λ t. term_sort terms.old.shapes terms.old.decls (filled (name_in names.now) variables.now e.now) ≡ Some (sort_at terms.new t)) }
    ensures in_range { IfOk result (λ t. t.0 < length terms.new.nodes) }
    ensures grows { Extends terms.old terms.new }
    ensures only { AddsParts terms.old terms.new (filled (name_in names.now) variables.now e.now ∷ []) }
    ensures size { result ≡ Err Size → LacksPart terms.new (filled (name_in names.now) variables.now e.now ∷ []) }
{
    let mut pieces = Vec::new(alloc);
    write_filled(&mut pieces, names, variables, e)?;
    built(terms, alloc, pieces.as_slice())
}

/// Makes the term of what stands at a place, with these variables in the place of the outermost calls in its selectors.
/// `Size` comes only where the arena is full and a part of the term is not there; nothing but parts of it is added, also
/// before an error.
pub fn filled_place_term(
    terms: &mut Terms,
    alloc: Global,
    names: &SortTable<'_>,
    variables: &[Head],
    d: &Designator,
) -> Result<TermId, TermFault>
    requires variables { IsTrue (list_all numeral_fits variables.now) }
    requires sorted { IsWellSorted terms.old.shapes terms.old.decls (filled_place (name_in names.now) variables.now d.now) }
    ensures tree { IfOk result (λ t. tree terms.new t ≡ filled_place (name_in names.now) variables.now d.now) }
    ensures sort { IfOk result (λ t. term_sort terms.old.shapes terms.old.decls (filled_place (name_in names.now) variables.now d.now) ≡ Some (sort_at terms.new t)) }
    ensures in_range { IfOk result (λ t. t.0 < length terms.new.nodes) }
    ensures grows { Extends terms.old terms.new }
    ensures only { AddsParts terms.old terms.new (filled_place (name_in names.now) variables.now d.now ∷ []) }
    ensures size { result ≡ Err Size → LacksPart terms.new (filled_place (name_in names.now) variables.now d.now ∷ []) }
{
    let mut pieces = Vec::new(alloc);
    write_filled_place(&mut pieces, names, variables, d)?;
    built(terms, alloc, pieces.as_slice())
}
