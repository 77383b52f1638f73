// Facts about the definitions, each the contract of a function that does nothing.

ghost use Rattle.std.specs.Prelude.{[]};
ghost use Rattle.spv_logic.specs.declared.names.names.Symbol.{Symbol};
ghost use Rattle.spv_tree.specs.syntax.Reads.{Reads, ReadsRules, ReadsFormulaText};
ghost use Rattle.spv_grammar.specs.first_sets.Begins.{Begins, GoesWrongAt, PrefixesBegin, GoWrongAtOneLine, GoWrongAmong};
ghost use Rattle.spv_grammar.specs.first_sets.Examples.{small_program, cut_off, without_name};

/// The first tokens of tokens that begin a text begin one too.
pub fn law_prefixes()
    ensures programs { PrefixesBegin Reads }
    ensures rules { PrefixesBegin ReadsRules }
    ensures formula_texts { PrefixesBegin ReadsFormulaText }
{}

/// Tokens go wrong at one line at most.
pub fn law_one_line()
    ensures programs { GoWrongAtOneLine Reads }
    ensures rules { GoWrongAtOneLine ReadsRules }
    ensures formula_texts { GoWrongAtOneLine ReadsFormulaText }
{}

/// The line at which tokens go wrong is that of one of them, or 1 where there is none.
pub fn law_among()
    ensures programs { GoWrongAmong Reads }
    ensures rules { GoWrongAmong ReadsRules }
    ensures formula_texts { GoWrongAmong ReadsFormulaText }
{}

/// The tokens of a program begin one, and so does a list of none. Tokens that end too early go wrong at the line of the last one,
/// and others at that of the first one that fits nothing.
pub fn law_examples()
    ensures no_tokens { (x : Symbol) → Begins Reads [] }
    ensures whole { (x : Symbol) → Begins Reads (small_program x) }
    ensures at_the_end { (x : Symbol) → GoesWrongAt Reads (cut_off x) 2 }
    ensures at_a_token { (x : Symbol) → GoesWrongAt Reads without_name 2 }
{}
