//! Small terms, read.

ghost use Rattle.std.specs.Prelude.{◌≡◌, [], ◌∷◌, Some, None, codes};
ghost use Rattle.spv_logic.specs.Terms.{term, terms, no_terms};
ghost use Rattle.spv_logic.specs.declared.operators.Head.TheVariants as head;
ghost use Rattle.spv_listing_values.specs.Written.{word};
ghost use Rattle.spv_rechecking.specs.written_terms.Printing.{written_of};
ghost use Rattle.spv_rechecking.specs.written_terms.Standing.{term_for};
ghost use Rattle.spv_rechecking.specs.written_terms.Worked.{example, one, two, sum, sum_term};

/// Small terms: a sum of a fresh variable and a number, as it is written and as it is read; a symbol over it; and what stands for no term: an
/// argument of another sort, a number with a zero in front, and a name of nothing.
pub fn law_examples()
    ensures written { written_of example.words.names example.words.titles sum_term ≡ sum }
    ensures sum { term_for example sum ≡ Some sum_term }
    ensures symbol { term_for example (one (codes "F") sum) ≡ Some (term (head.App (record { 0 = 1 })) (terms sum_term no_terms)) }
    ensures sort { term_for example (two (codes "+") sum (word (codes "TRUE"))) ≡ None }
    ensures zeros { term_for example (word (codes "01")) ≡ None }
    ensures nothing { term_for example (word (codes "Y")) ≡ None }
{}
