// What is proved of schemas, each claim the contract of a function that does nothing.

ghost use Rattle.spv_schemas.specs.Examples as examples;
ghost use Rattle.spv_schemas.specs.Laws.{FactsAreFormulas, FactsAreWhereSortsFit, FactsAreTrue, ListedFactsAreTrue, InstancesAreOnce, NumbersTellKinds};

/// The fact of each kind is a formula, and true in every world under every valuation; so are all that are listed.
pub fn law_schema()
    ensures formulas { FactsAreFormulas }
    ensures true_everywhere { FactsAreTrue }
    ensures listed { ListedFactsAreTrue }
{}

/// Terms have a fact exactly where they have the kind's shape and sorts that fit it.
pub fn law_sorts_that_fit()
    ensures { FactsAreWhereSortsFit }
{}

/// Of terms without repetition no fact is listed twice.
pub fn law_once()
    ensures { InstancesAreOnce }
{}

/// Kinds and their numbers.
pub fn law_kinds()
    ensures numbers { NumbersTellKinds }
{}

/// One fact of each kind.
pub fn law_facts()
    ensures select_store_same { examples.SelectStoreSameSays }
    ensures select_store_other { examples.SelectStoreOtherSays }
    ensures field_put_same { examples.FieldPutSameSays }
    ensures field_put_other { examples.FieldPutOtherSays }
    ensures cell_set_cell_same { examples.CellSetCellSameSays }
    ensures cell_set_cell_other { examples.CellSetCellOtherSays }
    ensures pointer_to_set_cell { examples.PointerToSetCellSays }
    ensures cell_extend_same { examples.CellExtendSameSays }
    ensures cell_extend_other { examples.CellExtendOtherSays }
    ensures pointer_to_extend { examples.PointerToExtendSays }
    ensures pointer_to_nil { examples.PointerToNilSays }
    ensures car_cons { examples.CarConsSays }
    ensures cdr_cons { examples.CdrConsSays }
    ensures atom_cons { examples.AtomConsSays }
    ensures cons_car_cdr { examples.ConsCarCdrSays }
    ensures div_mod { examples.DivModSays }
    ensures mod_of_non_negative { examples.ModOfNonNegativeSays }
    ensures mod_of_non_positive { examples.ModOfNonPositiveSays }
    ensures div_of_numerals { examples.DivOfNumeralsSays }
    ensures mod_of_numerals { examples.ModOfNumeralsSays }
{}

/// Terms of a wrong shape or of wrong sorts have no fact.
pub fn law_no_facts()
    ensures changed_field_is_no_other { examples.ChangedFieldIsNoOther }
    ensures field_is_missing { examples.FieldIsMissing }
    ensures field_of_another_record { examples.FieldOfAnotherRecord }
    ensures field_too_much { examples.FieldTooMuch }
    ensures index_is_no_number { examples.IndexIsNoNumber }
    ensures element_of_another_sort { examples.ElementOfAnotherSort }
    ensures array_is_not_changed { examples.ArrayIsNotChanged }
    ensures index_is_missing { examples.IndexIsMissing }
    ensures index_too_much { examples.IndexTooMuch }
    ensures extended_is_no_set_cell { examples.ExtendedIsNoSetCell }
    ensures set_cell_extends_nothing { examples.SetCellExtendsNothing }
    ensures pointer_of_another_class { examples.PointerOfAnotherClass }
    ensures pointer_is_no_class { examples.PointerIsNoClass }
    ensures list_is_no_pair { examples.ListIsNoPair }
    ensures number_is_no_list { examples.NumberIsNoList }
    ensures divisor_is_zero { examples.DivisorIsZero }
    ensures divisor_is_no_numeral { examples.DivisorIsNoNumeral }
    ensures dividend_is_no_number { examples.DividendIsNoNumber }
    ensures dividend_is_no_numeral { examples.DividendIsNoNumeral }
    ensures numerals_by_zero { examples.NumeralsByZero }
{}

/// Which facts some terms call for, in their order.
pub fn law_lists()
    ensures arrays { examples.ArraysAreListed }
    ensures indices_of_the_array { examples.IndicesAreOfTheArray }
    ensures records { examples.RecordsAreListed }
    ensures classes { examples.ClassesAreListed }
    ensures pointers_of_the_class { examples.PointersAreOfTheClass }
    ensures lists { examples.ListsAreListed }
    ensures quotients { examples.QuotientsAreListed }
{}
