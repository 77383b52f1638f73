//! From which trees of texts a typed program may come: what the walk over names and types answers comes from its tree.

ghost use Rattle.spv_type_soundness.specs.faithfulness.Examples.{SumsAreKept, FromTheLeft, RelationsAreKept, FactorsAreKept, NumbersAreKept, IndicesAreKept, AssignmentsAreKept, BranchesAreKept, LoopsAndArmsAreKept};
ghost use Rattle.spv_type_soundness.specs.faithfulness.Laws.{AnnotationsComeFromTheirTrees, ExpressionsComeFromTheirTrees, PlacesComeFromTheirTrees, CallsComeFromTheirTrees, ConstantsHaveTheirNumbers, StatementsComeFromTheirTrees, BlocksComeFromTheirTrees, ProgramsComeFromTheirTrees, FormulaTextsComeFromTheirTrees};
ghost use Rattle.spv_type_soundness.specs.faithfulness.RoutineExamples.{CountersAreKept, CallsAreKept, ParametersAreKept, RoutinesAreKept, RangesAreKept, NotesAreKept, ImplicationsAreKept, FunctionsAreKept};

/// An annotation that the walk answers comes from its tree.
#[tactic(auto, using(crate::proofs::faithfulness::Annotations::annotations_come))]
pub fn law_formulas()
    ensures { AnnotationsComeFromTheirTrees }
{}

/// Expressions, places that are written, and calls that the walk answers come from their trees.
pub fn law_expressions()
    ensures expressions { ExpressionsComeFromTheirTrees }
    ensures places { PlacesComeFromTheirTrees }
    ensures calls { CallsComeFromTheirTrees }
{}

/// Constants, statements and blocks that the walk answers come from their trees.
pub fn law_statements()
    ensures constants { ConstantsHaveTheirNumbers }
    ensures statements { StatementsComeFromTheirTrees }
    ensures blocks { BlocksComeFromTheirTrees }
{}

/// Programs and formula texts that the walk answers come from their trees.
pub fn law_programs()
    ensures programs { ProgramsComeFromTheirTrees }
    ensures formula_texts { FormulaTextsComeFromTheirTrees }
{}

/// Small expressions: which trees they come from, and which not.
pub fn law_small_expressions()
    ensures sums { SumsAreKept }
    ensures from_the_left { FromTheLeft }
    ensures relations { RelationsAreKept }
    ensures factors { FactorsAreKept }
    ensures numbers { NumbersAreKept }
    ensures indices { IndicesAreKept }
{}

/// Small statements: which trees they come from, and which not.
pub fn law_small_statements()
    ensures assignments { AssignmentsAreKept }
    ensures branches { BranchesAreKept }
    ensures loops_and_arms { LoopsAndArmsAreKept }
{}

/// Small loops, calls, headings, types and annotations: which trees they come from, and which not.
pub fn law_small_routines()
    ensures counters { CountersAreKept }
    ensures calls { CallsAreKept }
    ensures parameters { ParametersAreKept }
    ensures routines { RoutinesAreKept }
    ensures ranges { RangesAreKept }
    ensures notes { NotesAreKept }
    ensures implications { ImplicationsAreKept }
    ensures functions { FunctionsAreKept }
{}
