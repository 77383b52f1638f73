// What is proved of the definitions, each claim the contract of a function that does nothing.

ghost use Rattle.spv_preservation.specs.facts.Values.{DivisionSplits, RemainderIsSmaller, RemainderOfPositive, RemainderOfNegative, FieldAfterPut, OtherFieldsAfterPut};
ghost use Rattle.spv_preservation.specs.facts.Places.{PutIsFound, PutLeavesPartingPaths, PutKeepsSorts, PutKeepsPlaces};

/// A dividend is its quotient times the divisor and the remainder; the remainder is smaller than the divisor, and has
/// the dividend's sign.
pub fn law_division()
    ensures splits { DivisionSplits }
    ensures smaller { RemainderIsSmaller }
    ensures positive { RemainderOfPositive }
    ensures negative { RemainderOfNegative }
{}

/// A record gives back the field that was put into it, and keeps the others.
pub fn law_fields()
    ensures same { FieldAfterPut }
    ensures others { OtherFieldsAfterPut }
{}

/// What was put at a place is there, what lies beside it stays, and a value of the place's sort leaves all places that
/// there are.
pub fn law_places()
    ensures same { PutIsFound }
    ensures parting { PutLeavesPartingPaths }
    ensures sorts { PutKeepsSorts }
    ensures existing { PutKeepsPlaces }
{}
