// What the items of a line say.

ghost use Rattle.std.specs.Prelude.{◌≡◌, ◌≤◌, ◌+◌, ◌^◌, [], ◌∷◌, Some, IfSome, IfOk, OnOk, length, take, drop, option_map, option_and_then};
ghost use Rattle.spv_listing_values.specs.declared.data.Limit.TheVariants as limit;
ghost use Rattle.spv_listing_values.specs.declared.data.Step.TheVariants as step;
ghost use Rattle.spv_listing_values.specs.declared.keywords.LimitWord.TheVariants as limit_word;
ghost use Rattle.spv_listing_values.specs.declared.keywords.StepWord.TheVariants as step_word;
ghost use Rattle.spv_listing_values.specs.Written.{Written};
ghost use Rattle.spv_listing_values.specs.Reading as spec;
ghost use Rattle.spv_listing_values.specs.Reading.{text_of};
ghost use Rattle.spv_listing_values.specs.Mapped.{step_at, step_terms, limit_at, limit_terms};
ghost use Rattle.spv_listing_values.specs.Interned.{flats_at};
ghost use Rattle.spv_listing_values.specs.Told.{IsLooked, IsItemOf, AreItemsOf, term_in, terms_in, IsReady, Enters, Says, StandInFront, two_items, count_in, sides_in, operation_in, one_fact, two_facts};

use crate::data::{Header, Limit, Step};
use crate::interning::Table;
use crate::keywords::{LimitWord, StepWord, limit_word, step_word};
use crate::numbers::{byte, fraction, kind, long, operation, short};
use crate::scanning::{Item, Line};
use crate::texts::Text;
use spv_frac::Frac;
use spv_logic::list::List;
use std::alloc::{AllocError, Global};

// A line that is looked at, with the bytes that it stands in.
#[derive(Clone, Copy)]
pub(crate) struct Looked<'a> {
    pub(crate) bytes: &'a [u8],
    pub(crate) line: &'a Line,
}

impl<'a> Looked<'a> {
    // The word that an item is; nothing where it is an applied one.
    pub(crate) fn word(&self, item: Item) -> &'a [u8]
        requires looked { IsLooked self.now }
        requires item { IsItemOf self.now item }
        ensures { result.now ≡ text_of (term_in self.now item) }
    {
        self.line.word(self.bytes, item)
    }

    // The two items that are there.
    pub(crate) fn pair(&self, items: &[Item]) -> Option<(Item, Item)>
        requires { AreItemsOf self.now items.now }
        ensures pair { result ≡ two_items items.now }
        ensures items { IfSome result (λ p. IsItemOf self.now p.0 × IsItemOf self.now p.1) }
    {
        match items {
            [first, second] => Some((*first, *second)),
            _ => None,
        }
    }

    // Enters the term of an item.
    pub(crate) fn enter(&self, table: &mut Table, item: Item) -> Result<Text, AllocError>
        requires looked { IsLooked self.now }
        requires item { IsItemOf self.now item }
        requires ready { IsReady table.old }
        ensures ready { OnOk result (IsReady table.new) }
        ensures entered { IfOk result (λ t. Enters (flats_at table.old) (flats_at table.new) (term_in self.now item ∷ []) (t ∷ [])) }
    {
        let text = table.enter(self.bytes, self.line, item)?;
        Ok(text)
    }

    // Enters the terms of items.
    pub(crate) fn enter_all(
        &self,
        alloc: Global,
        table: &mut Table,
        items: &[Item],
    ) -> Result<List<Text>, AllocError>
        requires looked { IsLooked self.now }
        requires items { AreItemsOf self.now items.now }
        requires ready { IsReady table.old }
        ensures ready { OnOk result (IsReady table.new) }
        ensures entered { IfOk result (λ texts. Enters (flats_at table.old) (flats_at table.new) (terms_in self.now items.now) texts) }
    {
        let mut texts = Vec::with_capacity(alloc, items.len())?;
        for item in items {
            let text = self.enter(table, *item)?;
            texts.push(text)?;
        }
        Ok(List::from_vec(texts))
    }

    // The number of a fact, of a hypothesis or of a rule.
    pub(crate) fn fact(&self, item: Item) -> Option<u32>
        requires looked { IsLooked self.now }
        requires item { IsItemOf self.now item }
        ensures { result ≡ spec.fact_in (term_in self.now item) }
    {
        short(self.word(item))
    }

    pub(crate) fn facts(
        &self,
        alloc: Global,
        items: &[Item],
    ) -> Result<Option<List<u32>>, AllocError>
        requires looked { IsLooked self.now }
        requires items { AreItemsOf self.now items.now }
        ensures { IfOk result (λ facts. facts ≡ spec.facts_in (terms_in self.now items.now)) }
    {
        let mut facts = Vec::with_capacity(alloc, items.len())?;
        for item in items {
            match self.fact(*item) {
                None => return Ok(None),
                Some(fact) => facts.push(fact)?,
            }
        }
        Ok(Some(List::from_vec(facts)))
    }

    // A multiplier and the number of its fact.
    fn multiple(&self, multiplier: Item, fact: Item) -> Option<(Frac, u32)>
        requires looked { IsLooked self.now }
        requires multiplier { IsItemOf self.now multiplier }
        requires fact { IsItemOf self.now fact }
        ensures { result ≡ option_and_then (λ m. option_and_then (λ n. Some (m, n)) (spec.fact_in (term_in self.now fact))) (spec.fraction_in (term_in self.now multiplier)) }
    {
        let multiplier = fraction(self.word(multiplier))?;
        let fact = self.fact(fact)?;
        Some((multiplier, fact))
    }

    pub(crate) fn multiples(
        &self,
        alloc: Global,
        items: &[Item],
    ) -> Result<Option<List<(Frac, u32)>>, AllocError>
        requires looked { IsLooked self.now }
        requires items { AreItemsOf self.now items.now }
        ensures { IfOk result (λ multiples. multiples ≡ spec.multiples_in (terms_in self.now items.now)) }
    {
        let mut multiples = Vec::new(alloc);
        let mut at = 0;
        while items.len() - at > 1 {
            let multiplier = items[at];
            let fact = items[at + 1];
            match self.multiple(multiplier, fact) {
                None => return Ok(None),
                Some(multiple) => multiples.push(multiple)?,
            }
            at += 2;
        }
        if at == items.len() {
            return Ok(Some(List::from_vec(multiples)));
        }
        Ok(None)
    }

    // Whether an item is a stroke.
    fn is_stroke(&self, item: Item) -> bool
        requires looked { IsLooked self.now }
        requires item { IsItemOf self.now item }
        ensures { result ≡ spec.is_stroke (term_in self.now item) }
    {
        self.word(item) == b"/".as_slice()
    }

    // How many items stand in front of the first stroke.
    pub(crate) fn before_stroke(&self, items: &[Item]) -> usize
        requires looked { IsLooked self.now }
        requires items { AreItemsOf self.now items.now }
        ensures in_range { result ≤ length items.now }
        ensures front { StandInFront (terms_in self.now items.now) result }
    {
        for place in 0..items.len() {
            if self.is_stroke(items[place]) {
                return place;
            }
        }
        items.len()
    }

    // What the heading of a condition says.
    pub(crate) fn header(
        &self,
        alloc: Global,
        routine: Item,
        annotation: Item,
        line: Item,
    ) -> Result<Option<Header>, AllocError>
        requires looked { IsLooked self.now }
        requires routine { IsItemOf self.now routine }
        requires annotation { IsItemOf self.now annotation }
        requires line { IsItemOf self.now line }
        ensures { IfOk result (λ header. header ≡ spec.header_of (term_in self.now routine) (term_in self.now annotation) (term_in self.now line)) }
    {
        let Some(kind) = kind(self.word(annotation)) else {
            return Ok(None);
        };
        let Some(line) = self.fact(line) else {
            return Ok(None);
        };
        let routine = List::from_vec(Vec::from_slice(alloc, self.word(routine))?);
        Ok(Some(Header {
            routine,
            kind,
            line,
        }))
    }

    // A number of 64 bits.
    pub(crate) fn count(&self, item: Item) -> Option<u64>
        requires looked { IsLooked self.now }
        requires item { IsItemOf self.now item }
        ensures { result ≡ spec.number_in (2 ^ 64) (term_in self.now item) }
    {
        long(self.word(item))
    }

    // An operation and its two fractions.
    fn wide(&self, op: Item, left: Item, right: Item) -> Option<Limit<Text>>
        requires looked { IsLooked self.now }
        requires op { IsItemOf self.now op }
        requires left { IsItemOf self.now left }
        requires right { IsItemOf self.now right }
        ensures limit { (f : Text → Written) → option_map (limit_at f) result ≡ spec.wide_of (term_in self.now op) (term_in self.now left) (term_in self.now right) }
        ensures no_terms { IfSome result (λ l. limit_terms l ≡ []) }
    {
        let op = operation(self.word(op))?;
        let left = fraction(self.word(left))?;
        let right = fraction(self.word(right))?;
        Some(Limit::Wide(op, left, right))
    }

    // The one number that is there.
    fn counted(&self, items: &[Item]) -> Option<u64>
        requires looked { IsLooked self.now }
        requires items { AreItemsOf self.now items.now }
        ensures { result ≡ count_in (terms_in self.now items.now) }
    {
        match items {
            [item] => self.count(*item),
            _ => None,
        }
    }

    // An operation, and its two fractions where they are there.
    fn sides(&self, op: Item, items: &[Item]) -> Option<Limit<Text>>
        requires looked { IsLooked self.now }
        requires op { IsItemOf self.now op }
        requires items { AreItemsOf self.now items.now }
        ensures limit { (f : Text → Written) → option_map (limit_at f) result ≡ sides_in (term_in self.now op) (terms_in self.now items.now) }
        ensures no_terms { IfSome result (λ l. limit_terms l ≡ []) }
    {
        match self.pair(items) {
            None => None,
            Some((left, right)) => self.wide(op, left, right),
        }
    }

    // An operation that does not fit, where the items are one.
    fn operation(&self, items: &[Item]) -> Option<Limit<Text>>
        requires looked { IsLooked self.now }
        requires items { AreItemsOf self.now items.now }
        ensures limit { (f : Text → Written) → option_map (limit_at f) result ≡ operation_in (terms_in self.now items.now) }
        ensures no_terms { IfSome result (λ l. limit_terms l ≡ []) }
    {
        match items {
            [] => None,
            [op, rest @ ..] => self.sides(*op, rest),
        }
    }

    // A formula whose number does not fit.
    fn form(&self, table: &mut Table, t: Item) -> Result<Option<Limit<Text>>, AllocError>
        requires looked { IsLooked self.now }
        requires item { IsItemOf self.now t }
        requires ready { IsReady table.old }
        ensures ready { OnOk result (IsReady table.new) }
        ensures says { IfOk result (λ o. Says limit_at limit_terms (flats_at table.old) (flats_at table.new) (Some (limit.Form (term_in self.now t))) o) }
    {
        let t = self.enter(table, t)?;
        Ok(Some(Limit::Form(t)))
    }

    // A number that does not fit: of a formula, or of an operation.
    fn number(&self, table: &mut Table, items: &[Item]) -> Result<Option<Limit<Text>>, AllocError>
        requires looked { IsLooked self.now }
        requires items { AreItemsOf self.now items.now }
        requires ready { IsReady table.old }
        ensures ready { OnOk result (IsReady table.new) }
        ensures says { IfOk result (λ o. Says limit_at limit_terms (flats_at table.old) (flats_at table.new) (spec.limit_by limit_word.Number (terms_in self.now items.now)) o) }
    {
        match self.pair(items) {
            Some((_, t)) => self.form(table, t),
            None => Ok(self.operation(items)),
        }
    }

    fn limit_by(
        &self,
        table: &mut Table,
        word: LimitWord,
        items: &[Item],
    ) -> Result<Option<Limit<Text>>, AllocError>
        requires looked { IsLooked self.now }
        requires items { AreItemsOf self.now items.now }
        requires ready { IsReady table.old }
        ensures ready { OnOk result (IsReady table.new) }
        ensures says { IfOk result (λ o. Says limit_at limit_terms (flats_at table.old) (flats_at table.new) (spec.limit_by word (terms_in self.now items.now)) o) }
    {
        match word {
            LimitWord::Splits => match self.counted(items) {
                None => Ok(None),
                Some(n) => Ok(Some(Limit::Splits(n))),
            },
            LimitWord::Instances => match self.counted(items) {
                None => Ok(None),
                Some(n) => Ok(Some(Limit::Instances(n))),
            },
            LimitWord::Pivots => match self.counted(items) {
                None => Ok(None),
                Some(n) => Ok(Some(Limit::Pivots(n))),
            },
            LimitWord::Terms => match items {
                [_] => Ok(Some(Limit::Terms)),
                _ => Ok(None),
            },
            LimitWord::Number => self.number(table, items),
        }
    }

    // Why a condition was given up.
    pub(crate) fn limit(
        &self,
        table: &mut Table,
        items: &[Item],
    ) -> Result<Option<Limit<Text>>, AllocError>
        requires looked { IsLooked self.now }
        requires items { AreItemsOf self.now items.now }
        requires ready { IsReady table.old }
        ensures ready { OnOk result (IsReady table.new) }
        ensures says { IfOk result (λ o. Says limit_at limit_terms (flats_at table.old) (flats_at table.new) (spec.limit_of (terms_in self.now items.now)) o) }
    {
        match items {
            [] => Ok(None),
            [first, rest @ ..] => match limit_word(self.word(*first)) {
                None => Ok(None),
                Some(word) => self.limit_by(table, word, rest),
            },
        }
    }

    // ---- steps

    // The one fact that is there.
    fn one_fact(&self, items: &[Item]) -> Option<u32>
        requires looked { IsLooked self.now }
        requires items { AreItemsOf self.now items.now }
        ensures { result ≡ one_fact (terms_in self.now items.now) }
    {
        match items {
            [item] => self.fact(*item),
            _ => None,
        }
    }

    // The two facts that are there.
    fn two_facts(&self, items: &[Item]) -> Option<(u32, u32)>
        requires looked { IsLooked self.now }
        requires items { AreItemsOf self.now items.now }
        ensures { result ≡ two_facts (terms_in self.now items.now) }
    {
        match items {
            [first, second] => {
                let first = self.fact(*first)?;
                let second = self.fact(*second)?;
                Some((first, second))
            }
            _ => None,
        }
    }

    fn refl(&self, table: &mut Table, items: &[Item]) -> Result<Option<Step<Text>>, AllocError>
        requires looked { IsLooked self.now }
        requires items { AreItemsOf self.now items.now }
        requires ready { IsReady table.old }
        ensures ready { OnOk result (IsReady table.new) }
        ensures says { IfOk result (λ o. Says step_at step_terms (flats_at table.old) (flats_at table.new) (spec.step_by step_word.Refl (terms_in self.now items.now)) o) }
    {
        match items {
            [t] => {
                let t = self.enter(table, *t)?;
                Ok(Some(Step::Refl(t)))
            }
            _ => Ok(None),
        }
    }

    // That two terms of one head are equal.
    fn cong_of(
        &self,
        alloc: Global,
        table: &mut Table,
        t: Item,
        u: Item,
        items: &[Item],
    ) -> Result<Option<Step<Text>>, AllocError>
        requires looked { IsLooked self.now }
        requires first { IsItemOf self.now t }
        requires second { IsItemOf self.now u }
        requires items { AreItemsOf self.now items.now }
        requires ready { IsReady table.old }
        ensures ready { OnOk result (IsReady table.new) }
        ensures says { IfOk result (λ o. Says step_at step_terms (flats_at table.old) (flats_at table.new) (option_map (step.Cong (term_in self.now t) (term_in self.now u)) (spec.facts_in (terms_in self.now items.now))) o) }
    {
        match self.facts(alloc, items)? {
            None => Ok(None),
            Some(facts) => {
                let t = self.enter(table, t)?;
                let u = self.enter(table, u)?;
                Ok(Some(Step::Cong(t, u, facts)))
            }
        }
    }

    fn cong(
        &self,
        alloc: Global,
        table: &mut Table,
        items: &[Item],
    ) -> Result<Option<Step<Text>>, AllocError>
        requires looked { IsLooked self.now }
        requires items { AreItemsOf self.now items.now }
        requires ready { IsReady table.old }
        ensures ready { OnOk result (IsReady table.new) }
        ensures says { IfOk result (λ o. Says step_at step_terms (flats_at table.old) (flats_at table.new) (spec.step_by step_word.Cong (terms_in self.now items.now)) o) }
    {
        match items {
            [t, u, rest @ ..] => self.cong_of(alloc, table, *t, *u, rest),
            _ => Ok(None),
        }
    }

    // The multiples in front of the stroke.
    fn first(
        &self,
        alloc: Global,
        items: &[Item],
        at: usize,
    ) -> Result<Option<List<(Frac, u32)>>, AllocError>
        requires looked { IsLooked self.now }
        requires items { AreItemsOf self.now items.now }
        requires in_range { at ≤ length items.now }
        ensures { IfOk result (λ multiples. multiples ≡ spec.multiples_in (take at (terms_in self.now items.now))) }
    {
        self.multiples(alloc, &items[..at])
    }

    // The multiples behind the stroke.
    fn second(
        &self,
        alloc: Global,
        items: &[Item],
        at: usize,
    ) -> Result<Option<List<(Frac, u32)>>, AllocError>
        requires looked { IsLooked self.now }
        requires items { AreItemsOf self.now items.now }
        ensures { IfOk result (λ multiples. multiples ≡ spec.multiples_in (drop (at + 1) (terms_in self.now items.now))) }
    {
        if at < items.len() {
            return self.multiples(alloc, &items[at + 1..]);
        }
        Ok(Some(List::new(alloc)))
    }

    // A relation from multiples of facts.
    fn linear_of(
        &self,
        alloc: Global,
        table: &mut Table,
        r: Item,
        items: &[Item],
    ) -> Result<Option<Step<Text>>, AllocError>
        requires looked { IsLooked self.now }
        requires relation { IsItemOf self.now r }
        requires items { AreItemsOf self.now items.now }
        requires ready { IsReady table.old }
        ensures ready { OnOk result (IsReady table.new) }
        ensures says { IfOk result (λ o. Says step_at step_terms (flats_at table.old) (flats_at table.new) (spec.linear_of (term_in self.now r) (terms_in self.now items.now)) o) }
    {
        let at = self.before_stroke(items);
        match self.first(alloc, items, at)? {
            None => Ok(None),
            Some(first) => match self.second(alloc, items, at)? {
                None => Ok(None),
                Some(second) => {
                    let r = self.enter(table, r)?;
                    Ok(Some(Step::Linear(r, first, second)))
                }
            },
        }
    }

    fn linear(
        &self,
        alloc: Global,
        table: &mut Table,
        items: &[Item],
    ) -> Result<Option<Step<Text>>, AllocError>
        requires looked { IsLooked self.now }
        requires items { AreItemsOf self.now items.now }
        requires ready { IsReady table.old }
        ensures ready { OnOk result (IsReady table.new) }
        ensures says { IfOk result (λ o. Says step_at step_terms (flats_at table.old) (flats_at table.new) (spec.step_by step_word.Linear (terms_in self.now items.now)) o) }
    {
        match items {
            [] => Ok(None),
            [r, sums @ ..] => self.linear_of(alloc, table, *r, sums),
        }
    }

    // A fact that names a field.
    fn field(
        &self,
        alloc: Global,
        table: &mut Table,
        kind: u8,
        items: &[Item],
        last: Item,
    ) -> Result<Option<Step<Text>>, AllocError>
        requires looked { IsLooked self.now }
        requires items { AreItemsOf self.now items.now }
        requires last { IsItemOf self.now last }
        requires ready { IsReady table.old }
        ensures ready { OnOk result (IsReady table.new) }
        ensures says { IfOk result (λ o. Says step_at step_terms (flats_at table.old) (flats_at table.new) (Some (step.Schema kind (terms_in self.now items.now) (Some (text_of (term_in self.now last))))) o) }
    {
        let texts = self.enter_all(alloc, table, items)?;
        let name = List::from_vec(Vec::from_slice(alloc, self.word(last))?);
        Ok(Some(Step::Schema(kind, texts, Some(name))))
    }

    // A fact of this kind: the one of kind 4 ends with the name of a field.
    fn schema_of(
        &self,
        alloc: Global,
        table: &mut Table,
        kind: u8,
        items: &[Item],
    ) -> Result<Option<Step<Text>>, AllocError>
        requires looked { IsLooked self.now }
        requires items { AreItemsOf self.now items.now }
        requires ready { IsReady table.old }
        ensures ready { OnOk result (IsReady table.new) }
        ensures says { IfOk result (λ o. Says step_at step_terms (flats_at table.old) (flats_at table.new) (Some (spec.schema_of kind (terms_in self.now items.now))) o) }
    {
        if kind != 4 {
            let texts = self.enter_all(alloc, table, items)?;
            return Ok(Some(Step::Schema(kind, texts, None)));
        }
        match items {
            [] => Ok(Some(Step::Schema(kind, List::new(alloc), Some(List::new(alloc))))),
            [front @ .., last] => self.field(alloc, table, kind, front, *last),
        }
    }

    fn schema(
        &self,
        alloc: Global,
        table: &mut Table,
        items: &[Item],
    ) -> Result<Option<Step<Text>>, AllocError>
        requires looked { IsLooked self.now }
        requires items { AreItemsOf self.now items.now }
        requires ready { IsReady table.old }
        ensures ready { OnOk result (IsReady table.new) }
        ensures says { IfOk result (λ o. Says step_at step_terms (flats_at table.old) (flats_at table.new) (spec.step_by step_word.Schema (terms_in self.now items.now)) o) }
    {
        match items {
            [] => Ok(None),
            [kind, rest @ ..] => match byte(self.word(*kind)) {
                None => Ok(None),
                Some(kind) => self.schema_of(alloc, table, kind, rest),
            },
        }
    }

    fn rule(
        &self,
        alloc: Global,
        table: &mut Table,
        items: &[Item],
    ) -> Result<Option<Step<Text>>, AllocError>
        requires looked { IsLooked self.now }
        requires items { AreItemsOf self.now items.now }
        requires ready { IsReady table.old }
        ensures ready { OnOk result (IsReady table.new) }
        ensures says { IfOk result (λ o. Says step_at step_terms (flats_at table.old) (flats_at table.new) (spec.step_by step_word.Rule (terms_in self.now items.now)) o) }
    {
        match items {
            [] => Ok(None),
            [rule, rest @ ..] => match self.fact(*rule) {
                None => Ok(None),
                Some(rule) => {
                    let texts = self.enter_all(alloc, table, rest)?;
                    Ok(Some(Step::Rule(rule, texts)))
                }
            },
        }
    }

    fn eval(
        &self,
        alloc: Global,
        table: &mut Table,
        items: &[Item],
    ) -> Result<Option<Step<Text>>, AllocError>
        requires looked { IsLooked self.now }
        requires items { AreItemsOf self.now items.now }
        requires ready { IsReady table.old }
        ensures ready { OnOk result (IsReady table.new) }
        ensures says { IfOk result (λ o. Says step_at step_terms (flats_at table.old) (flats_at table.new) (spec.step_by step_word.Eval (terms_in self.now items.now)) o) }
    {
        match items {
            [] => Ok(None),
            [f, rest @ ..] => match self.facts(alloc, rest)? {
                None => Ok(None),
                Some(facts) => {
                    let f = self.enter(table, *f)?;
                    Ok(Some(Step::Eval(f, facts)))
                }
            },
        }
    }

    fn contra(&self, items: &[Item]) -> Option<Step<Text>>
        requires looked { IsLooked self.now }
        requires items { AreItemsOf self.now items.now }
        ensures step { (f : Text → Written) → option_map (step_at f) result ≡ spec.step_by step_word.Contra (terms_in self.now items.now) }
        ensures no_terms { IfSome result (λ s. step_terms s ≡ []) }
    {
        match items {
            [i] => {
                let i = self.fact(*i)?;
                Some(Step::Contra(i, None))
            }
            [i, j] => {
                let i = self.fact(*i)?;
                let j = self.fact(*j)?;
                Some(Step::Contra(i, Some(j)))
            }
            _ => None,
        }
    }

    fn step_by(
        &self,
        alloc: Global,
        table: &mut Table,
        word: StepWord,
        items: &[Item],
    ) -> Result<Option<Step<Text>>, AllocError>
        requires looked { IsLooked self.now }
        requires items { AreItemsOf self.now items.now }
        requires ready { IsReady table.old }
        ensures ready { OnOk result (IsReady table.new) }
        ensures says { IfOk result (λ o. Says step_at step_terms (flats_at table.old) (flats_at table.new) (spec.step_by word (terms_in self.now items.now)) o) }
    {
        match word {
            StepWord::Given => match self.one_fact(items) {
                None => Ok(None),
                Some(k) => Ok(Some(Step::Given(k))),
            },
            StepWord::Refl => self.refl(table, items),
            StepWord::Symm => match self.one_fact(items) {
                None => Ok(None),
                Some(i) => Ok(Some(Step::Symm(i))),
            },
            StepWord::Trans => match self.two_facts(items) {
                None => Ok(None),
                Some((i, j)) => Ok(Some(Step::Trans(i, j))),
            },
            StepWord::Cong => self.cong(alloc, table, items),
            StepWord::Linear => self.linear(alloc, table, items),
            StepWord::Schema => self.schema(alloc, table, items),
            StepWord::Rule => self.rule(alloc, table, items),
            StepWord::Eval => self.eval(alloc, table, items),
            StepWord::Contra => Ok(self.contra(items)),
        }
    }

    // A step by its word.
    pub(crate) fn step(
        &self,
        alloc: Global,
        table: &mut Table,
        items: &[Item],
    ) -> Result<Option<Step<Text>>, AllocError>
        requires looked { IsLooked self.now }
        requires items { AreItemsOf self.now items.now }
        requires ready { IsReady table.old }
        ensures ready { OnOk result (IsReady table.new) }
        ensures says { IfOk result (λ o. Says step_at step_terms (flats_at table.old) (flats_at table.new) (spec.step_of (terms_in self.now items.now)) o) }
    {
        match items {
            [] => Ok(None),
            [first, rest @ ..] => match step_word(self.word(*first)) {
                None => Ok(None),
                Some(word) => self.step_by(alloc, table, word, rest),
            },
        }
    }
}
