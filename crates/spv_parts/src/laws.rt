// The laws of the definitions, each of which may be called.

use spv_logic::PlainWorld;
use spv_logic::laws::{
    law_comparisons, law_defaults, law_operators, law_same, law_sequents, law_sorts, law_structures,
};

/// Calls each law.
pub fn call() {
    law_operators();
    law_comparisons();
    law_structures();
    law_sequents();
    law_same();
    law_defaults();
    law_sorts();
    spv_lexer::law_front();
    spv_lexer::law_gap();
    spv_lexer::law_longest_sign();
    spv_meaning::laws::law_conditions(&PlainWorld);
    spv_term::law_make(&PlainWorld);
}
