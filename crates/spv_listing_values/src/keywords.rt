// The words with which lines, steps and limits begin.

ghost use Rattle.std.specs.Prelude.{◌≡◌};
ghost use Rattle.spv_listing_values.specs.Reading as spec;

use crate::words::find;

// The word with which the reason of a condition that was given up begins.
#[derive(Clone, Copy)]
pub(crate) enum LimitWord {
    Splits,
    Instances,
    Pivots,
    Terms,
    Number,
}

static LIMIT_WORDS: [(&[u8], LimitWord); 5] = [
    (b"SPLITS", LimitWord::Splits),
    (b"INSTANCES", LimitWord::Instances),
    (b"PIVOTS", LimitWord::Pivots),
    (b"TERMS", LimitWord::Terms),
    (b"NUMBER", LimitWord::Number),
];

// The word with which a step begins.
#[derive(Clone, Copy)]
pub(crate) enum StepWord {
    Given,
    Refl,
    Symm,
    Trans,
    Cong,
    Linear,
    Schema,
    Rule,
    Eval,
    Contra,
}

static STEP_WORDS: [(&[u8], StepWord); 10] = [
    (b"GIVEN", StepWord::Given),
    (b"REFL", StepWord::Refl),
    (b"SYMM", StepWord::Symm),
    (b"TRANS", StepWord::Trans),
    (b"CONG", StepWord::Cong),
    (b"LINEAR", StepWord::Linear),
    (b"SCHEMA", StepWord::Schema),
    (b"RULE", StepWord::Rule),
    (b"EVAL", StepWord::Eval),
    (b"CONTRA", StepWord::Contra),
];

// The word with which a line begins.
#[derive(Clone, Copy)]
pub(crate) enum LineWord {
    Heading,
    Given,
    Goal,
    Proved,
    Unproved,
    Gave,
    Branch,
    Instance,
    Value,
    Step,
    Split,
    Case,
}

static LINE_WORDS: [(&[u8], LineWord); 12] = [
    (b"CONDITION", LineWord::Heading),
    (b"GIVEN", LineWord::Given),
    (b"GOAL", LineWord::Goal),
    (b"PROVED", LineWord::Proved),
    (b"UNPROVED", LineWord::Unproved),
    (b"GAVE", LineWord::Gave),
    (b"BRANCH", LineWord::Branch),
    (b"INSTANCE", LineWord::Instance),
    (b"VALUE", LineWord::Value),
    (b"STEP", LineWord::Step),
    (b"SPLIT", LineWord::Split),
    (b"CASE", LineWord::Case),
];

pub(crate) fn limit_word(word: &[u8]) -> Option<LimitWord>
    ensures { result ≡ spec.named spec.limit_words word.now }
{
    find(&LIMIT_WORDS, word)
}

pub(crate) fn step_word(word: &[u8]) -> Option<StepWord>
    ensures { result ≡ spec.named spec.step_words word.now }
{
    find(&STEP_WORDS, word)
}

pub(crate) fn line_word(word: &[u8]) -> Option<LineWord>
    ensures { result ≡ spec.named spec.line_words word.now }
{
    find(&LINE_WORDS, word)
}
