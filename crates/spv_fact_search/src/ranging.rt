// Numbers that have one of few values: a condition is searched through for each of these by itself, with what is said of the number and of the value alone.

ghost use Rattle.spv_term.specs.Arena.{Extends};

use crate::assembling::{Assembly, Source, source_of};
use crate::claims::{Claim, Said, Taking, all_said, is_choice, taken_apart};
use crate::parts::{Attempt, equation_of, formula_of, order_of, search_part};
use spv_atoms::{Relation, Stated, Step, numeral};
use spv_frac::Frac;
use spv_logic::Origin;
use spv_logic::list::List;
use spv_proof_steps::candidates::sides;
use spv_search_terms::condition_copy::Base;
use spv_search_terms::subterms::subterms;
use spv_term::{Condition, Head, TermId, Terms};
use spv_trimming::testing::{are_there, is_there};
use spv_verdicts::answers::Limits;
use std::alloc::{AllocError, Global};

// How many values there have to be, and may be.
const LEAST_VALUES: usize = 12;

const MOST_VALUES: usize = 1_024;

// How many bounds there may be for a number from each side, how many pairs of them are looked at, and how many applications for each.
const MOST_BOUNDS: usize = 32;

const MOST_PAIRS: usize = 16;

const MOST_LOOKS: usize = 8;

// How many formulas a part may have, and how many splits its search may make.

const MOST_FORMULAS: usize = 64;

const MOST_SPLITS: u64 = 100;

// A numeral that bounds a number.
#[derive(Clone, Copy)]
struct Bound {
    number: TermId,
    value: i128,
    said: Said,
}

// Why the number has one of the values.
#[derive(Clone, Copy)]
enum Cover {
    // It is at least the first value, and at most the last one.
    Bounds(Said, Said),
    // A choice of equations says so.
    Choice(Said),
}

// A number, the numerals of the values that it may have, in order and without a gap, and why it has one of them.
#[derive(Drop)]
struct Range {
    number: TermId,
    values: Vec<TermId>,
    cover: Cover,
}

// A claim, and where it comes from.
#[derive(Clone, Copy)]
struct Sourced {
    claim: Claim,
    source: Source,
}

// What a claim is about: its numerals, and whether it is about the number.
#[derive(Drop)]
struct About {
    own: Sourced,
    numerals: Vec<TermId>,
    is_about_number: bool,
}

// An argument of an application, with its head and place.
#[derive(Clone, Copy)]
struct Argument {
    head: Head,
    place: usize,
    term: TermId,
}

// Places for the numerals of values that are wanted, from the least one on.
#[derive(Drop)]
struct Slots {
    least: i128,
    found: Vec<Option<TermId>>,
}

// A case distinction by the values of a number.
#[derive(Drop)]
struct Distinction {
    range: Range,
    // Where it comes from that there are these values: one source for each bound, or one for a choice.
    first: Source,
    last: Source,
    // What the claims are about that are no choices.
    list: Vec<About>,
    base: Base,
    origin: Origin,
}

// An equation of the number with a value, and the fact that the number is above it.
#[derive(Clone, Copy)]
struct Passed {
    equation: TermId,
    above: u32,
}

// The value of a numeral.
fn numeral_of(terms: &Terms, t: TermId) -> Option<i128> {
    if is_there(terms, t) {
        numeral(terms, t)
    } else {
        None
    }
}

impl Slots {
    // So many places.
    fn new(alloc: Global, least: i128, count: usize) -> Result<Slots, AllocError> {
        let mut found = Vec::new(alloc);
        for _ in 0..count {
            found.push(None)?;
        }
        Ok(Slots { least, found })
    }

    // Puts the numeral of a value at its place, if it has one.
    fn put(&mut self, value: i128, t: TermId) {
        let Some(before) = value.checked_sub(self.least) else {
            return;
        };
        let Ok(place) = usize::try_from(before) else {
            return;
        };
        if let Some(slot) = self.found.get_mut(place) {
            *slot = Some(t);
        }
    }

    // The numerals in order, if all are there.
    fn all(&self, alloc: Global) -> Result<Option<Vec<TermId>>, AllocError> {
        let mut all = Vec::new(alloc);
        for slot in self.found.as_slice() {
            match slot {
                Some(t) => all.push(*t)?,
                None => return Ok(None),
            }
        }
        Ok(Some(all))
    }
}

// How many values there are from one to another, if these are as many as there have to be and may be.
fn count_of(least: i128, greatest: i128) -> Option<usize> {
    let count = greatest.checked_sub(least)?.checked_add(1)?;
    let count = usize::try_from(count).ok()?;
    if count < LEAST_VALUES || count > MOST_VALUES {
        return None;
    }
    Some(count)
}

// Two terms of which a claim says that the first is at most the second, and whether it is below it.
fn ordered(terms: &Terms, claim: Claim) -> Option<(TermId, TermId, bool)> {
    if !is_there(terms, claim.term) {
        return None;
    }
    let node = terms.node(claim.term);
    let is_strict = match node.head {
        Head::Le => !claim.truth,
        Head::Lt => claim.truth,
        _ => return None,
    };
    match node.args.as_slice() {
        [s, t] => {
            if claim.truth {
                Some((*s, *t, is_strict))
            } else {
                Some((*t, *s, is_strict))
            }
        }
        _ => None,
    }
}

// One more if wanted.
fn one_if(wanted: bool) -> i128 {
    if wanted { 1 } else { 0 }
}

// The least value that a claim leaves a number.
fn lower_bound(terms: &Terms, said: Said) -> Option<Bound> {
    let (low, high, is_strict) = ordered(terms, said.claim)?;
    let value = numeral_of(terms, low)?.checked_add(one_if(is_strict))?;
    if numeral_of(terms, high).is_some() {
        return None;
    }
    Some(Bound {
        number: high,
        value,
        said,
    })
}

// The greatest value that a claim leaves a number.
fn upper_bound(terms: &Terms, said: Said) -> Option<Bound> {
    let (low, high, is_strict) = ordered(terms, said.claim)?;
    let value = numeral_of(terms, high)?.checked_sub(one_if(is_strict))?;
    if numeral_of(terms, low).is_some() {
        return None;
    }
    Some(Bound {
        number: low,
        value,
        said,
    })
}

// Puts a bound behind others, if there is one and these are not too many.
fn push_bound(bounds: &mut Vec<Bound>, bound: Option<Bound>) -> Result<(), AllocError> {
    if let Some(bound) = bound {
        if bounds.len() < MOST_BOUNDS {
            bounds.push(bound)?;
        }
    }
    Ok(())
}

// The terms of claims.
fn terms_of(alloc: Global, all: &[Said]) -> Result<Vec<TermId>, AllocError> {
    let mut list = Vec::new(alloc);
    for one in all {
        list.push(one.claim.term)?;
    }
    Ok(list)
}

// Puts the arguments of an application behind others.
fn add_arguments(
    terms: &Terms,
    t: TermId,
    arguments: &mut Vec<Argument>,
) -> Result<(), AllocError> {
    if !is_there(terms, t) {
        return Ok(());
    }
    let node = terms.node(t);
    if matches!(node.head, Head::App(_) | Head::Select) {
        for (place, term) in node.args.as_slice().iter().enumerate() {
            arguments.push(Argument {
                head: node.head,
                place,
                term: *term,
            })?;
        }
    }
    Ok(())
}

// The arguments of all applications in claims.
fn arguments_in(alloc: Global, terms: &Terms, all: &[Said]) -> Result<Vec<Argument>, AllocError> {
    let mut arguments = Vec::new(alloc);
    let list = terms_of(alloc, all)?;
    if !are_there(terms, list.as_slice()) {
        return Ok(arguments);
    }
    let parts = subterms(alloc, terms, list.as_slice())?;
    for t in parts.as_slice() {
        add_arguments(terms, *t, &mut arguments)?;
    }
    Ok(arguments)
}

// The numerals that applications have where one has an argument, from a least value on.
fn slots_beside(
    alloc: Global,
    terms: &Terms,
    arguments: &[Argument],
    own: Argument,
    least: i128,
    count: usize,
) -> Result<Slots, AllocError> {
    let mut slots = Slots::new(alloc, least, count)?;
    for other in arguments {
        if other.head == own.head && other.place == own.place {
            if let Some(value) = numeral_of(terms, other.term) {
                slots.put(value, other.term);
            }
        }
    }
    Ok(slots)
}

// The numerals of the values of a number between two bounds, if an application has the number where others have each of these.
fn values_between(
    alloc: Global,
    terms: &Terms,
    arguments: &[Argument],
    lower: Bound,
    upper: Bound,
) -> Result<Option<Vec<TermId>>, AllocError> {
    let Some(count) = count_of(lower.value, upper.value) else {
        return Ok(None);
    };
    let mut looks: usize = 0;
    for own in arguments {
        if own.term == lower.number && looks < MOST_LOOKS {
            looks = looks.saturating_add(1);
            let slots = slots_beside(alloc, terms, arguments, *own, lower.value, count)?;
            let found = slots.all(alloc)?;
            if found.is_some() {
                return Ok(found);
            }
        }
    }
    Ok(None)
}

// Whether two bounds leave a number few values.
fn are_near(lower: Bound, upper: Bound) -> bool {
    lower.number == upper.number && count_of(lower.value, upper.value).is_some()
}

// Pairs of a lower and an upper bound that leave a number few values.
fn near_bounds(
    alloc: Global,
    terms: &Terms,
    all: &[Said],
) -> Result<Vec<(Bound, Bound)>, AllocError> {
    let mut lowers = Vec::new(alloc);
    let mut uppers = Vec::new(alloc);
    for one in all {
        push_bound(&mut lowers, lower_bound(terms, *one))?;
        push_bound(&mut uppers, upper_bound(terms, *one))?;
    }
    let mut pairs = Vec::new(alloc);
    for lower in lowers.as_slice() {
        for upper in uppers.as_slice() {
            if are_near(*lower, *upper) && pairs.len() < MOST_PAIRS {
                pairs.push((*lower, *upper))?;
            }
        }
    }
    Ok(pairs)
}

// A number between bounds.
fn bounded(alloc: Global, terms: &Terms, all: &[Said]) -> Result<Option<Range>, AllocError> {
    let pairs = near_bounds(alloc, terms, all)?;
    if pairs.as_slice().is_empty() {
        return Ok(None);
    }
    let arguments = arguments_in(alloc, terms, all)?;
    for (lower, upper) in pairs.as_slice() {
        let found = values_between(alloc, terms, arguments.as_slice(), *lower, *upper)?;
        if let Some(values) = found {
            return Ok(Some(Range {
                number: lower.number,
                values,
                cover: Cover::Bounds(lower.said, upper.said),
            }));
        }
    }
    Ok(None)
}

// A number and the numeral that a claim says it equals.
fn valued(terms: &Terms, claim: Claim) -> Option<(TermId, TermId, i128)> {
    if !claim.truth || !is_there(terms, claim.term) {
        return None;
    }
    let (number, t) = sides(terms, claim.term)?;
    let value = numeral_of(terms, t)?;
    Some((number, t, value))
}

// The least value of a number that each of these claims gives one.
fn least_value(terms: &Terms, ways: &[Claim]) -> Option<(TermId, i128)> {
    let [first, others @ ..] = ways else {
        return None;
    };
    let (number, _, value) = valued(terms, *first)?;
    let mut least = value;
    for way in others {
        let (other, _, value) = valued(terms, *way)?;
        if other != number {
            return None;
        }
        least = least.min(value);
    }
    Some((number, least))
}

// A number that has a value in each way of a choice.
fn chosen(alloc: Global, terms: &Terms, choice: Said) -> Result<Option<Range>, AllocError> {
    let ways = taken_apart(alloc, terms, choice.claim, Taking::Either)?;
    if ways.len() < LEAST_VALUES || ways.len() > MOST_VALUES {
        return Ok(None);
    }
    let Some((number, least)) = least_value(terms, ways.as_slice()) else {
        return Ok(None);
    };
    let mut slots = Slots::new(alloc, least, ways.len())?;
    for way in ways.as_slice() {
        if let Some((_, t, value)) = valued(terms, *way) {
            slots.put(value, t);
        }
    }
    match slots.all(alloc)? {
        Some(values) => Ok(Some(Range {
            number,
            values,
            cover: Cover::Choice(choice),
        })),
        None => Ok(None),
    }
}

// A number with few values.
fn range_of(alloc: Global, terms: &Terms, all: &[Said]) -> Result<Option<Range>, AllocError> {
    for one in all {
        if is_choice(terms, one.claim) {
            let found = chosen(alloc, terms, *one)?;
            if found.is_some() {
                return Ok(found);
            }
        }
    }
    bounded(alloc, terms, all)
}

/// Whether a condition has a number with few values.
pub(crate) fn has_range(
    alloc: Global,
    terms: &Terms,
    condition: &Condition,
) -> Result<bool, AllocError> {
    let all = all_said(alloc, terms, condition)?;
    Ok(range_of(alloc, terms, all.as_slice())?.is_some())
}

// What a claim is about.
fn what_about(
    alloc: Global,
    terms: &Terms,
    condition: &Condition,
    said: Said,
    number: TermId,
) -> Result<About, AllocError> {
    let mut numerals = Vec::new(alloc);
    let mut is_about_number = false;
    if is_there(terms, said.claim.term) {
        let parts = subterms(alloc, terms, &[said.claim.term])?;
        is_about_number = parts.has(number);
        for t in parts.as_slice() {
            if numeral_of(terms, *t).is_some() {
                numerals.push(*t)?;
            }
        }
    }
    Ok(About {
        own: Sourced {
            claim: said.claim,
            source: source_of(condition, said),
        },
        numerals,
        is_about_number,
    })
}

// What the claims are about that are no choices.
fn all_about(
    alloc: Global,
    terms: &Terms,
    condition: &Condition,
    all: &[Said],
    number: TermId,
) -> Result<Vec<About>, AllocError> {
    let mut list = Vec::new(alloc);
    for one in all {
        if !is_choice(terms, one.claim) {
            list.push(what_about(alloc, terms, condition, *one, number)?)?;
        }
    }
    Ok(list)
}

// The first and the last source of a cover.
fn sources_of(condition: &Condition, cover: Cover) -> (Source, Source) {
    match cover {
        Cover::Bounds(lower, upper) => (source_of(condition, lower), source_of(condition, upper)),
        Cover::Choice(choice) => {
            let source = source_of(condition, choice);
            (source, source)
        }
    }
}

// The case distinction of a condition that has a number with few values.
fn distinguish(
    alloc: Global,
    terms: &Terms,
    condition: &Condition,
    base: Base,
) -> Result<Option<Distinction>, AllocError> {
    let all = all_said(alloc, terms, condition)?;
    let Some(range) = range_of(alloc, terms, all.as_slice())? else {
        return Ok(None);
    };
    let list = all_about(alloc, terms, condition, all.as_slice(), range.number)?;
    let (first, last) = sources_of(condition, range.cover);
    Ok(Some(Distinction {
        range,
        first,
        last,
        list,
        base,
        origin: condition.origin,
    }))
}

// One formula more; where there is none, one that is in no arena.
fn push_formula(given: &mut List<TermId>, formula: Option<TermId>) -> Result<(), AllocError> {
    given.push(formula.unwrap_or(TermId(u32::MAX)))?;
    Ok(())
}

// The formulas of claims behind a first one.
#[tactic(auto, using(spv_term::proofs::ArenaLemmas::growth))]
fn formulas_behind(
    alloc: Global,
    terms: &mut Terms,
    first: TermId,
    others: &[Sourced],
) -> Result<List<TermId>, AllocError>
    ensures grows { Extends terms.old terms.new }
{
    let mut given = List::new(alloc);
    push_formula(&mut given, Some(first))?;
    for one in others {
        let formula = formula_of(terms, one.claim)?;
        push_formula(&mut given, formula)?;
    }
    Ok(given)
}

// Where the hypotheses of a part come from: a fact, and claims behind it.
fn sources_behind(
    alloc: Global,
    first: u32,
    others: &[Sourced],
) -> Result<Vec<Source>, AllocError> {
    let mut sources = Vec::new(alloc);
    sources.push(Source::Given(0))?;
    sources.push(Source::Fact(first))?;
    for one in others {
        sources.push(one.source)?;
    }
    Ok(sources)
}

impl Distinction {
    // The claims about the number, or about a value.
    fn near(&self, alloc: Global, value: Option<TermId>) -> Result<Vec<Sourced>, AllocError> {
        let mut found = Vec::new(alloc);
        for one in self.list.as_slice() {
            let is_near = match value {
                Some(t) => one.is_about_number || one.numerals.as_slice().contains(&t),
                None => one.is_about_number,
            };
            if is_near && found.len() < MOST_FORMULAS {
                found.push(one.own)?;
            }
        }
        Ok(found)
    }

    // Closes the last node, on whose path a formula about the number is a fact, by a search with what is near.
    fn close(
        &self,
        alloc: Global,
        terms: &mut Terms,
        limits: &Limits,
        whole: &mut Assembly,
        formula: TermId,
        fact: u32,
        value: Option<TermId>,
    ) -> Result<Attempt<()>, AllocError>
        ensures grows { Extends terms.old terms.new }
    {
        let others = self.near(alloc, value)?;
        let given = formulas_behind(alloc, terms, formula, others.as_slice())?;
        let part = Condition {
            given,
            goal: self.base.falsity,
            origin: self.origin,
        };
        match search_part(alloc, terms, &part, limits, MOST_SPLITS)? {
            Attempt::Done(nodes) => {
                let sources = sources_behind(alloc, fact, others.as_slice())?;
                whole.embed(alloc, nodes.as_slice(), sources.as_slice())?;
                Ok(Attempt::Done(()))
            }
            Attempt::Table(numbers) => Ok(Attempt::Table(numbers)),
            Attempt::Nothing => Ok(Attempt::Nothing),
        }
    }

    // The sum of two orders of numbers that leave nothing between them ends the path of the last node.
    fn contradict(
        &self,
        alloc: Global,
        whole: &mut Assembly,
        first: u32,
        second: u32,
    ) -> Result<(), AllocError> {
        let mut multiples = List::new(alloc);
        multiples.push((Frac::whole(1), first))?;
        multiples.push((Frac::whole(1), second))?;
        let relation = Relation::AtMost(self.base.one, self.base.zero);
        let fact = whole.add(Step::Linear(relation, multiples, List::new(alloc)))?;
        whole.end(fact)
    }

    // Closes the case that the number is below the first value.
    fn close_first(
        &self,
        alloc: Global,
        terms: &mut Terms,
        limits: &Limits,
        whole: &mut Assembly,
        value: TermId,
        fact: u32,
    ) -> Result<Attempt<()>, AllocError>
        ensures grows { Extends terms.old terms.new }
    {
        match self.range.cover {
            Cover::Bounds(_, _) => {
                let bound = whole.fact_from(alloc, self.first)?;
                self.contradict(alloc, whole, bound, fact)?;
                Ok(Attempt::Done(()))
            }
            Cover::Choice(_) => {
                let Some(order) = order_of(terms, self.range.number, value)? else {
                    return Ok(Attempt::Nothing);
                };
                self.close(alloc, terms, limits, whole, order, fact, None)
            }
        }
    }

    // Closes the case that the number is below a value, behind the one before.
    fn close_below(
        &self,
        alloc: Global,
        terms: &mut Terms,
        limits: &Limits,
        whole: &mut Assembly,
        value: TermId,
        fact: u32,
        before: Option<Passed>,
    ) -> Result<Attempt<()>, AllocError>
        ensures grows { Extends terms.old terms.new }
    {
        match before {
            Some(passed) => {
                self.contradict(alloc, whole, passed.above, fact)?;
                Ok(Attempt::Done(()))
            }
            None => self.close_first(alloc, terms, limits, whole, value, fact),
        }
    }

    // Writes the cases of a value: the number is equal to it, below it, or above it. What is known where it is above.
    fn write(
        &self,
        alloc: Global,
        terms: &mut Terms,
        limits: &Limits,
        whole: &mut Assembly,
        value: TermId,
        before: Option<Passed>,
    ) -> Result<Attempt<Passed>, AllocError>
        ensures grows { Extends terms.old terms.new }
    {
        let Some(equation) = equation_of(terms, self.range.number, value)? else {
            return Ok(Attempt::Nothing);
        };
        let fork = whole.split(alloc, equation);
        let equal = whole.case(alloc, fork)?;
        match self.close(alloc, terms, limits, whole, equation, equal, Some(value))? {
            Attempt::Done(_) => {}
            Attempt::Table(numbers) => return Ok(Attempt::Table(numbers)),
            Attempt::Nothing => return Ok(Attempt::Nothing),
        }
        let below = whole.case(alloc, fork)?;
        match self.close_below(alloc, terms, limits, whole, value, below, before)? {
            Attempt::Done(_) => {}
            Attempt::Table(numbers) => return Ok(Attempt::Table(numbers)),
            Attempt::Nothing => return Ok(Attempt::Nothing),
        }
        let above = whole.case(alloc, fork)?;
        Ok(Attempt::Done(Passed { equation, above }))
    }

    // Closes the last case: the number is above all values.
    fn close_last(
        &self,
        alloc: Global,
        whole: &mut Assembly,
        passed: &[Passed],
    ) -> Result<(), AllocError> {
        let cover = whole.fact_from(alloc, self.last)?;
        match self.range.cover {
            Cover::Bounds(_, _) => match passed {
                [.., last] => self.contradict(alloc, whole, last.above, cover),
                [] => Ok(()),
            },
            Cover::Choice(_) => {
                let mut cites = List::new(alloc);
                cites.push(cover)?;
                for one in passed {
                    let falsity = self.base.falsity;
                    cites.push(whole.deny(alloc, one.equation, one.above, falsity)?)?;
                }
                let fact = whole.evaluate(Stated::Is(self.base.falsity, true), cites)?;
                whole.end(fact)
            }
        }
    }
}

// One value more that is passed.
fn push_passed(all: &mut Vec<Passed>, one: Passed) -> Result<(), AllocError> {
    all.push(one)?;
    Ok(())
}

/// What is found of a condition by the values of a number.
#[tactic(auto, using(spv_term::proofs::ArenaLemmas::growth))]
pub(crate) fn by_values(
    alloc: Global,
    terms: &mut Terms,
    condition: &Condition,
    limits: &Limits,
    base: Base,
) -> Result<Attempt<Assembly>, AllocError>
    ensures grows { Extends terms.old terms.new }
{
    let Some(found) = distinguish(alloc, terms, condition, base)? else {
        return Ok(Attempt::Nothing);
    };
    let mut whole = Assembly::new(alloc)?;
    let mut all = Vec::new(alloc);
    let mut before = None;
    for value in found.range.values.as_slice() {
        match found.write(alloc, terms, limits, &mut whole, *value, before)? {
            Attempt::Done(passed) => {
                push_passed(&mut all, passed)?;
                before = Some(passed);
            }
            Attempt::Table(numbers) => return Ok(Attempt::Table(numbers)),
            Attempt::Nothing => return Ok(Attempt::Nothing),
        }
    }
    found.close_last(alloc, &mut whole, all.as_slice())?;
    Ok(Attempt::Done(whole))
}
