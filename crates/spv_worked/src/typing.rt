// Which small programs are well typed and share rightly, each the contract of a function that does nothing.

ghost use Rattle.std.specs.Prelude.{[], ◌∷◌};
ghost use Rattle.spv_worked.specs.CallConditions as calls;
ghost use Rattle.spv_worked.specs.PlaceConditions as places;
ghost use Rattle.spv_worked.specs.StatementConditions as conditions;
ghost use Rattle.spv_worked.specs.TypedPrograms as typed;
ghost use Rattle.spv_worked.specs.UntypedDeclarations as declarations;
ghost use Rattle.spv_worked.specs.UntypedExpressions as expressions;
ghost use Rattle.spv_worked.specs.UntypedStatements as statements;
ghost use Rattle.spv_worked.specs.UnframedPrograms as unframed;

/// The programs of the other laws are well typed, and their routines use what their GLOBAL lists have.
pub fn law_typed()
    ensures runs { typed.AreRight typed.run_programs }
    ensures conditions { typed.AreRight typed.condition_programs }
    ensures shared { typed.AreRight (typed.shared ∷ []) }
    ensures initial_names { typed.AreRight (statements.remembers ∷ []) }
    ensures places { typed.AreRight places.programs }
    ensures without_names { typed.AreRight (conditions.nameless ∷ calls.numbering ∷ []) }
{}

/// What no well typed program declares: types, names, headings, and what ENTRY and EXIT see.
pub fn law_untyped_declarations()
    ensures types { declarations.NoneTyped declarations.with_wrong_types }
    ensures names { declarations.NoneTyped declarations.with_wrong_names }
    ensures headings { declarations.NoneTyped declarations.with_wrong_headings }
    ensures initials { declarations.NoneTyped declarations.with_wrong_initials }
    ensures scopes { declarations.NoneTyped declarations.with_wrong_scopes }
    ensures conditions { declarations.NoneTyped declarations.with_wrong_conditions }
{}

/// Which expressions, calls and formulas no well typed program has.
pub fn law_untyped_expressions()
    ensures operands { declarations.NoneTyped expressions.with_wrong_operands }
    ensures reads { declarations.NoneTyped expressions.with_wrong_reads }
    ensures selectors { declarations.NoneTyped expressions.with_wrong_selectors }
    ensures arguments { declarations.NoneTyped expressions.with_wrong_arguments }
    ensures bounds { declarations.NoneTyped expressions.with_wrong_bounds }
    ensures calls { declarations.NoneTyped expressions.with_wrong_calls }
    ensures formulas { declarations.NoneTyped expressions.with_wrong_formulas }
    ensures names_in_formulas { declarations.NoneTyped expressions.with_wrong_names_in_formulas }
{}

/// Which statements no well typed program has.
pub fn law_untyped_statements()
    ensures assignments { declarations.NoneTyped statements.with_wrong_assignments }
    ensures tests { declarations.NoneTyped statements.with_wrong_tests }
    ensures parts { declarations.NoneTyped statements.with_wrong_parts }
    ensures heads { declarations.NoneTyped statements.with_wrong_heads }
    ensures counters { declarations.NoneTyped statements.with_wrong_counters }
    ensures bodies { declarations.NoneTyped statements.with_wrong_bodies }
    ensures initial_names { declarations.NoneTyped statements.with_initial_names }
{}

/// Well typed programs whose routines use what their GLOBAL lists do not have, or whose arguments meet.
pub fn law_unframed()
    ensures functions { unframed.ShareWrongly unframed.with_writing_functions }
    ensures reads { unframed.ShareWrongly unframed.with_unlisted_reads }
    ensures operands { unframed.ShareWrongly unframed.with_unlisted_operands }
    ensures annotations { unframed.ShareWrongly unframed.with_unlisted_annotations }
    ensures writes { unframed.ShareWrongly unframed.with_unlisted_writes }
    ensures cells { unframed.ShareWrongly unframed.with_unlisted_cells }
    ensures calls { unframed.ShareWrongly unframed.with_uncovered_calls }
    ensures arguments { unframed.ShareWrongly unframed.with_meeting_arguments }
{}
