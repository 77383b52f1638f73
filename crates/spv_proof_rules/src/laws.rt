// The theorem on proofs, as the contract of a function that does nothing.

ghost use Rattle.std.specs.Prelude.{◌≡◌, true, false};
ghost use Rattle.spv_logic.specs.Conditions.{Meaning};
ghost use Rattle.spv_proof_rules.specs.Examples as examples;
ghost use Rattle.spv_proof_rules.specs.SchemaExamples as schemas;
ghost use Rattle.spv_proof_rules.specs.Laws.{AcceptedIsTrueIn, ProvedIsTrueIn, ProvedUnderIsTrueIn, UnstoppedIsExact, TermsStay};

use spv_logic::World;

/// What an accepted proof shows is true where its rules hold: in every world at once, and in one that is at hand.
pub fn law_check<W: World>(world: &W)
    ensures every_world { (m : Meaning) → AcceptedIsTrueIn m }
    ensures this_world { AcceptedIsTrueIn (W.apply world.now) }
    ensures conditions { (m : Meaning) → ProvedIsTrueIn m }
    ensures under_rules { (m : Meaning) → ProvedUnderIsTrueIn m }
{
    let _ = world;
}

/// What a check of a proof comes to, where nothing stops it, is whether the proof is accepted; and
/// it only adds terms.
pub fn law_outcome()
    ensures exact { UnstoppedIsExact }
    ensures terms_stay { TermsStay }
{}

/// Worked proofs: what is accepted, and what one thing wrong makes of it.
pub fn law_examples()
    ensures gap { examples.gap ≡ true }
    ensures a_sum_of_0_closes_nothing { examples.no_gap ≡ false }
    ensures a_multiplier_is_not_negative { examples.negative_gap ≡ false }
    ensures an_equality_has_two_lists { examples.two_lists ≡ true }
    ensures both_lists_count { examples.one_list ≡ false }
    ensures all_arguments_are_equal { examples.all_arguments ≡ true }
    ensures no_argument_is_missing { examples.one_argument ≡ false }
    ensures whole_numbers_have_three_cases { examples.three_cases ≡ true }
    ensures two_are_too_few { examples.two_cases ≡ false }
    ensures a_case_has_its_own_facts { examples.a_sisters_fact ≡ false }
    ensures each_case_is_closed { examples.an_open_case ≡ false }
    ensures a_value_comes_from_a_cited_fact { examples.a_value_from_nowhere ≡ false }
{}

/// Worked proofs with facts of schemas.
pub fn law_schema_examples()
    ensures numbers { schemas.NumbersTellFacts }
    ensures quotient_and_remainder { schemas.both_kinds ≡ true }
    ensures each_has_its_kind { schemas.one_kind_twice ≡ false }
    ensures there_are_twenty_kinds { schemas.no_such_kind ≡ false }
    ensures none_has_number_0 { schemas.kind_of_0 ≡ false }
    ensures a_field_has_its_kind { schemas.field_for_nothing ≡ false }
    ensures all_terms_are_named { schemas.term_is_missing ≡ false }
    ensures another_index_stays { schemas.element_stays ≡ true }
    ensures kinds_differ { schemas.kinds_exchanged ≡ false }
    ensures changes_differ { schemas.changes_exchanged ≡ false }
    ensures indices_differ { schemas.another_index ≡ false }
    ensures room_for_all { schemas.RoomForAll }
    ensures no_room_for_the_fact { schemas.NoRoomForTheFact }
    ensures no_room_for_the_value { schemas.NoRoomForTheValue }
    ensures no_room_for_the_quotient { schemas.NoRoomForTheQuotient }
{}
