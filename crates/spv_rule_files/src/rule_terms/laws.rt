// What is proved of the terms of rules, as the contract of a function that does nothing.

ghost use Rattle.spv_rule_files.specs.rule_terms.Sound.{RightRulesAreSound};

/// The rules of a file that are right in a program are rules over terms: their variables differ and are those of their triggers, which are
/// applications of declared symbols, and what each says is true or false.
pub fn law_rule_terms()
    ensures { RightRulesAreSound }
{}
