//! What the walk over names and types answers is well typed.

ghost use Rattle.spv_type_soundness.specs.well_typed.Laws.{AnnotationsAreWellTyped};
ghost use Rattle.spv_type_soundness.specs.well_typed.Expressions.{ExpressionsAreWellTyped, PlacesAreWellTyped};

/// An annotation that the walk answers is well typed, where its scope is the one that typing gives it.
#[tactic(auto, using(crate::proofs::well_typed::Annotations::annotations_are_well_typed))]
pub fn law_annotations()
    ensures { AnnotationsAreWellTyped }
{}

/// An expression that the walk answers has the wanted sort, and a place that it answers may be written and has the type that was
/// found, where the names of the scope are those of the program.
pub fn law_expressions()
    ensures expressions { ExpressionsAreWellTyped }
    ensures places { PlacesAreWellTyped }
{}
