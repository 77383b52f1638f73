// What is true of rounds, each law the contract of a function that does nothing.

ghost use Rattle.std.specs.Prelude.{pos};
ghost use Rattle.spv_rounds.specs.Examples as example;
ghost use Rattle.spv_rounds.specs.Laws.{AllAtomsAreThere, AnsweredUnder, AtomsAreDefinedUnder, AtomsAreDefinedWith, FactsAreOfUsed, FailuresUnder, FailuresWith, KeptUnder, ListedAreDefinedUnder, ListedAreDefinedWith, NoRoundsWithoutRules, SplitsAreFewUnder, SplitsAreFewWith, TrueIsNotUnproved, TrueIsNotUnprovedUnder};

use spv_schemas::laws::law_sorts_that_fit;
use spv_verdicts::translation::law_exchange;

/// Without rules no round is made.
pub fn law_no_rules()
    ensures { NoRoundsWithoutRules }
{}

/// Where steps of rules say what stands behind the hypotheses of what claims that all is refuted, a proof of it without rules is one of the condition
/// under the rules, in which these steps take the place of what they say.
pub fn law_proved()
    ensures { AnsweredUnder }
{
    law_exchange();
}

/// And a tree that is kept where all is refuted is kept for the condition under the rules.
pub fn law_kept()
    ensures { KeptUnder }
{
    law_exchange();
}

/// Giving up for want of splits comes only where fewer splits are allowed than 3 to the power of the number of atoms of the condition,
/// of the facts of schemas and of what instances of rules say.
pub fn law_splits()
    ensures with_facts { SplitsAreFewWith }
    ensures under_rules { SplitsAreFewUnder }
{
    law_atoms();
}

/// A condition that is true in each table is never unproved, whatever the limits and rules are.
pub fn law_true_in_each_table()
    ensures with_facts { TrueIsNotUnproved }
    ensures under_rules { TrueIsNotUnprovedUnder }
{}

/// The atoms of all that is refuted are, as a list, those of the condition, of the facts of schemas, of what instances of rules say and of
/// the arguments of sort Bool, by their places among the terms at hand, followed by the equations of each two comparable ones by their
/// places; and what a table has to list are the variables and non-linear applications among these terms. The terms at hand are those
/// that the condition and the formulas use, and the further ones of the facts about them, in order of first appearance, arguments first.
/// Where all is refuted, the negation of the goal, FALSE and its negation stand among the terms too: no atom, no equation, no fact and no
/// row of a table comes of them.
pub fn law_atoms()
    ensures facts { FactsAreOfUsed }
    ensures atoms_with_facts { AtomsAreDefinedWith }
    ensures atoms_under_rules { AtomsAreDefinedUnder }
    ensures none_missing { AllAtomsAreThere }
    ensures listed_with_facts { ListedAreDefinedWith }
    ensures listed_under_rules { ListedAreDefinedUnder }
{
    law_sorts_that_fit();
}

/// A table falsifies all that is refuted exactly where it lists these terms, and in it each hypothesis, each fact of a schema and what
/// each instance says is true and the goal is false.
pub fn law_tables()
    ensures with_facts { FailuresWith }
    ensures under_rules { FailuresUnder }
{
    law_atoms();
}

/// An array with 1 at an index is read there. That this gives 1 is shown by a fact of a schema, and no table is right that breaks the fact
/// or lacks its terms, though without facts one would be. That it gives 2 is unproved, with a table that keeps the facts; one that does not,
/// or lacks their terms, is not right. Its atoms and the terms that its tables list are told one by one.
pub fn law_array_examples()
    ensures proved_by_a_fact { example.IsRightHere (pos 1) example.by_what_is_written }
    ensures the_fact_of_its_kind { example.IsWrongHere (pos 1) example.by_what_is_left }
    ensures another_number { example.IsWrongHere (pos 2) example.by_what_is_written }
    ensures unproved_without_facts { example.IsRightWithoutFacts (pos 1) (example.own_are_0 (pos 1)) }
    ensures not_without_their_terms { example.IsWrongHere (pos 1) (example.own_are_0 (pos 1)) }
    ensures not_where_one_is_false { example.IsWrongHere (pos 1) (example.all_are_0 (pos 1)) }
    ensures unproved_with_facts { example.IsRightHere (pos 2) (example.all_are_1 (pos 2)) }
    ensures they_are_kept { example.IsWrongHere (pos 2) (example.all_are_0 (pos 2)) }
    ensures all_are_listed { example.IsWrongHere (pos 2) (example.own_are_1 (pos 2)) }
    ensures atoms { example.HasTheseAtoms }
    ensures listed { example.ListsTheseTerms }
{}
