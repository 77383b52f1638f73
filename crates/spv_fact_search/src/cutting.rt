// Cuts: equations that each way of a choice gives. Where a condition has many choices, a search goes through their ways in each combination; an equation that
// all ways of a choice give is proved of the choice alone, once, and the condition is searched through with all of these equations at hand.

ghost use Rattle.spv_term.specs.Arena.{Extends};

use crate::assembling::{Assembly, Fork, Source, number_at, source_of};
use crate::claims::{Claim, Said, Taking, all_said, is_choice, taken_apart};
use crate::parts::{Attempt, equation_of, formula_of, search_part};
use spv_atoms::{ProofNode, Stated};
use spv_logic::list::List;
use spv_proof_steps::candidates::sides;
use spv_term::{Condition, Sort, TermId, Terms};
use spv_trimming::testing::is_there;
use spv_verdicts::answers::Limits;
use std::alloc::{AllocError, Global};

// In how many choices there have to be such equations, and how many ways a choice may have.
const LEAST_CHOICES: usize = 4;

const MOST_WAYS: usize = 16;

// How many different sides the equations of one way may have, and how many cuts there may be.
const MOST_SIDES: usize = 64;

const MOST_CUTS: usize = 64;

// How many choices are looked at.
const MOST_CHOICES: usize = 256;

// How many splits the proof of a cut may make, and the search with all of them at hand.
const MOST_SPLITS: u64 = 100;

const MOST_SPLITS_BEHIND: u64 = 2_000;

// Terms in classes of equal ones.
#[derive(Drop)]
struct Classes {
    terms: Vec<TermId>,
    // The class of each term, beside it.
    classes: Vec<usize>,
}

impl Classes {
    fn new(alloc: Global) -> Classes {
        Classes {
            terms: Vec::new(alloc),
            classes: Vec::new(alloc),
        }
    }

    // The class of a term.
    fn class_of(&self, t: TermId) -> Option<usize> {
        for (place, u) in self.terms.as_slice().iter().enumerate() {
            if *u == t {
                return self.classes.get(place).copied();
            }
        }
        None
    }

    // The class of a term, which is there from now on.
    fn enter(&mut self, t: TermId) -> Result<usize, AllocError> {
        if let Some(class) = self.class_of(t) {
            return Ok(class);
        }
        let class = self.terms.len();
        self.terms.push(t)?;
        self.classes.push(class)?;
        Ok(class)
    }

    // Two terms are equal.
    fn join(&mut self, s: TermId, t: TermId) -> Result<(), AllocError> {
        let left = self.enter(s)?;
        let right = self.enter(t)?;
        for place in 0..self.classes.len() {
            if let Some(class) = self.classes.get_mut(place) {
                if *class == left {
                    *class = right;
                }
            }
        }
        Ok(())
    }

    // Whether two terms are in one class.
    fn are_equal(&self, s: TermId, t: TermId) -> bool {
        match (self.class_of(s), self.class_of(t)) {
            (Some(left), Some(right)) => left == right,
            _ => false,
        }
    }
}

// Two terms that are equal in each way of a choice.
#[derive(Clone, Copy)]
struct Cut {
    choice: Said,
    left: TermId,
    right: TermId,
}

// A cut, its equation, and the nodes of a proof of it of the choice alone.
#[derive(Drop)]
struct Lemma {
    equation: TermId,
    is_of_numbers: bool,
    choice: Source,
    nodes: Vec<ProofNode>,
}

// What is searched through behind the cuts, and where its hypotheses come from but for the equations of the lemmas, which stand behind the others.
#[derive(Drop)]
struct Main {
    part: Condition,
    sources: Vec<Source>,
}

// The sides of an equation that a claim is, if it is one of terms that are no truths.
fn equal_terms(terms: &Terms, claim: Claim) -> Option<(TermId, TermId)> {
    if !claim.truth || !is_there(terms, claim.term) {
        return None;
    }
    let (s, t) = sides(terms, claim.term)?;
    match terms.sort(s) {
        Sort::Bool => None,
        _ => Some((s, t)),
    }
}

// The classes of the equations of a way; no terms where these are too many.
fn classes_of(alloc: Global, terms: &Terms, way: Claim) -> Result<Classes, AllocError> {
    let mut classes = Classes::new(alloc);
    let found = taken_apart(alloc, terms, way, Taking::Both)?;
    for claim in found.as_slice() {
        if let Some((s, t)) = equal_terms(terms, *claim) {
            classes.join(s, t)?;
        }
        if classes.terms.len() > MOST_SIDES {
            return Ok(Classes::new(alloc));
        }
    }
    Ok(classes)
}

// Whether two terms are equal in each of these.
fn are_equal_in_all(all: &[Classes], s: TermId, t: TermId) -> bool {
    for classes in all {
        if !classes.are_equal(s, t) {
            return false;
        }
    }
    true
}

// A term among these first ones that is equal to the one behind them in all.
fn equal_before(first: &[TermId], t: TermId, all: &[Classes]) -> Option<TermId> {
    for s in first {
        if *s == t {
            return None;
        }
        if are_equal_in_all(all, *s, t) {
            return Some(*s);
        }
    }
    None
}

// Puts the cuts of a choice behind others; how many these are.
fn add_cuts(
    alloc: Global,
    terms: &Terms,
    choice: Said,
    cuts: &mut Vec<Cut>,
) -> Result<usize, AllocError> {
    let ways = taken_apart(alloc, terms, choice.claim, Taking::Either)?;
    let mut all = Vec::new(alloc);
    if ways.len() < 2 || ways.len() > MOST_WAYS {
        return Ok(0);
    }
    for way in ways.as_slice() {
        all.push(classes_of(alloc, terms, *way)?)?;
    }
    let mut count = 0;
    if let [first, ..] = all.as_slice() {
        let list = first.terms.as_slice();
        for t in list {
            if let Some(s) = equal_before(list, *t, all.as_slice()) {
                cuts.push(Cut {
                    choice,
                    left: s,
                    right: *t,
                })?;
                count = 1;
            }
        }
    }
    Ok(count)
}

// The cuts of a condition; none where few choices have any.
fn cuts_of(alloc: Global, terms: &Terms, condition: &Condition) -> Result<Vec<Cut>, AllocError> {
    let all = all_said(alloc, terms, condition)?;
    let mut cuts = Vec::new(alloc);
    let mut choices: usize = 0;
    let mut looks: usize = 0;
    for one in all.as_slice() {
        if is_choice(terms, one.claim) {
            looks = looks.saturating_add(1);
            choices = choices.saturating_add(add_cuts(alloc, terms, *one, &mut cuts)?);
        }
        if cuts.len() > MOST_CUTS || looks > MOST_CHOICES {
            break;
        }
    }
    if choices < LEAST_CHOICES {
        return Ok(Vec::new(alloc));
    }
    Ok(cuts)
}

/// Whether a condition has cuts.
pub(crate) fn has_cuts(
    alloc: Global,
    terms: &Terms,
    condition: &Condition,
) -> Result<bool, AllocError> {
    let cuts = cuts_of(alloc, terms, condition)?;
    Ok(!cuts.as_slice().is_empty())
}

// A condition that one formula alone gives another one.
fn part_of(
    alloc: Global,
    condition: &Condition,
    given: TermId,
    goal: TermId,
) -> Result<Condition, AllocError> {
    let mut list = List::new(alloc);
    list.push(given)?;
    Ok(Condition {
        given: list,
        goal,
        origin: condition.origin,
    })
}

// Whether a term is a number.
fn is_of_numbers(terms: &Terms, t: TermId) -> bool {
    is_there(terms, t) && matches!(terms.sort(t), Sort::Int)
}

// A cut with its proof, if there is one.
fn lemma_of(
    alloc: Global,
    terms: &mut Terms,
    condition: &Condition,
    limits: &Limits,
    cut: Cut,
) -> Result<Option<Lemma>, AllocError>
    ensures grows { Extends terms.old terms.new }
{
    let Some(equation) = equation_of(terms, cut.left, cut.right)? else {
        return Ok(None);
    };
    let Some(choice) = formula_of(terms, cut.choice.claim)? else {
        return Ok(None);
    };
    let part = part_of(alloc, condition, choice, equation)?;
    match search_part(alloc, terms, &part, limits, MOST_SPLITS)? {
        Attempt::Done(nodes) => Ok(Some(Lemma {
            equation,
            is_of_numbers: is_of_numbers(terms, cut.left),
            choice: source_of(condition, cut.choice),
            nodes,
        })),
        _ => Ok(None),
    }
}

// One lemma more, if there is one.
fn push_lemma(lemmas: &mut Vec<Lemma>, lemma: Option<Lemma>) -> Result<(), AllocError> {
    if let Some(lemma) = lemma {
        lemmas.push(lemma)?;
    }
    Ok(())
}

// The cuts that have a proof, each with it.
#[tactic(auto, using(spv_term::proofs::ArenaLemmas::growth))]
fn lemmas_of(
    alloc: Global,
    terms: &mut Terms,
    condition: &Condition,
    limits: &Limits,
    cuts: &[Cut],
) -> Result<Vec<Lemma>, AllocError>
    ensures grows { Extends terms.old terms.new }
{
    let mut lemmas = Vec::new(alloc);
    for cut in cuts {
        let lemma = lemma_of(alloc, terms, condition, limits, *cut)?;
        push_lemma(&mut lemmas, lemma)?;
    }
    Ok(lemmas)
}

// Puts the equations of lemmas behind formulas.
fn add_equations(given: &mut List<TermId>, lemmas: &[Lemma]) -> Result<(), AllocError> {
    for lemma in lemmas {
        given.push(lemma.equation)?;
    }
    Ok(())
}

// A condition with the equations of these lemmas as further hypotheses.
fn with_lemmas(alloc: Global, condition: &Condition, lemmas: &[Lemma]) -> Result<Main, AllocError> {
    let mut given = List::new(alloc);
    let mut sources = Vec::new(alloc);
    sources.push(Source::Given(0))?;
    for (place, f) in condition.given.as_slice().iter().enumerate() {
        given.push(*f)?;
        sources.push(Source::Given(number_at(place)))?;
    }
    add_equations(&mut given, lemmas)?;
    Ok(Main {
        part: Condition {
            given,
            goal: condition.goal,
            origin: condition.origin,
        },
        sources,
    })
}

// Whether a claim is a choice with a cut.
fn is_cut(cuts: &[Cut], one: Said) -> bool {
    for cut in cuts {
        if cut.choice.claim.term == one.claim.term && cut.choice.place == one.place {
            return true;
        }
    }
    false
}

// The claims of a condition that are no choices with cuts.
fn uncut(alloc: Global, all: &[Said], cuts: &[Cut]) -> Result<Vec<Said>, AllocError> {
    let mut left = Vec::new(alloc);
    for one in all {
        if !is_cut(cuts, *one) {
            left.push(*one)?;
        }
    }
    Ok(left)
}

// One source more.
fn push_source(sources: &mut Vec<Source>, source: Source) -> Result<(), AllocError> {
    sources.push(source)?;
    Ok(())
}

// One formula more with its source, if there is one.
fn push_formula(
    given: &mut List<TermId>,
    sources: &mut Vec<Source>,
    formula: Option<TermId>,
    source: Source,
) -> Result<(), AllocError> {
    if let Some(f) = formula {
        given.push(f)?;
        sources.push(source)?;
    }
    Ok(())
}

// The same with these claims in the place of the condition's own hypotheses.
#[tactic(auto, using(spv_term::proofs::ArenaLemmas::growth))]
fn with_claims(
    alloc: Global,
    terms: &mut Terms,
    condition: &Condition,
    claims: &[Said],
    lemmas: &[Lemma],
) -> Result<Main, AllocError>
    ensures grows { Extends terms.old terms.new }
{
    let mut given = List::new(alloc);
    let mut sources = Vec::new(alloc);
    push_source(&mut sources, Source::Given(0))?;
    for one in claims {
        let formula = formula_of(terms, one.claim)?;
        let source = source_of(condition, *one);
        push_formula(&mut given, &mut sources, formula, source)?;
    }
    add_equations(&mut given, lemmas)?;
    Ok(Main {
        part: Condition {
            given,
            goal: condition.goal,
            origin: condition.origin,
        },
        sources,
    })
}

// Closes a case in which the equation of a lemma is false.
fn refute(
    alloc: Global,
    whole: &mut Assembly,
    lemma: &Lemma,
    fork: Fork,
    falsity: TermId,
) -> Result<(), AllocError> {
    let case = whole.case(alloc, fork)?;
    let denied = if lemma.is_of_numbers {
        whole.deny(alloc, lemma.equation, case, falsity)?
    } else {
        case
    };
    let mut sources = Vec::new(alloc);
    sources.push(Source::Fact(denied))?;
    sources.push(lemma.choice)?;
    whole.embed(alloc, lemma.nodes.as_slice(), sources.as_slice())
}

// The proof of a condition from those of its lemmas, and that of what is searched through behind the cuts, whose hypotheses come from these sources.
fn assembled(
    alloc: Global,
    own: &[Source],
    lemmas: &[Lemma],
    nodes: &[ProofNode],
    falsity: TermId,
) -> Result<Assembly, AllocError> {
    let mut whole = Assembly::new(alloc)?;
    let mut forks = Vec::new(alloc);
    let mut sources = Vec::new(alloc);
    sources.extend_from_slice(own)?;
    for lemma in lemmas {
        let fork = whole.split(alloc, lemma.equation);
        forks.push(fork)?;
        let fact = whole.case(alloc, fork)?;
        sources.push(Source::Fact(fact))?;
    }
    whole.embed(alloc, nodes, sources.as_slice())?;
    for place in (0..lemmas.len()).rev() {
        if let Some(fork) = forks.get(place) {
            refute(alloc, &mut whole, &lemmas[place], *fork, falsity)?;
            if lemmas[place].is_of_numbers {
                refute(alloc, &mut whole, &lemmas[place], *fork, falsity)?;
            }
        }
    }
    Ok(whole)
}

// What is found behind the cuts.
fn search_main(
    alloc: Global,
    terms: &mut Terms,
    limits: &Limits,
    main: &Main,
    lemmas: &[Lemma],
    falsity: TermId,
) -> Result<Attempt<Assembly>, AllocError>
    ensures grows { Extends terms.old terms.new }
{
    match search_part(alloc, terms, &main.part, limits, MOST_SPLITS_BEHIND)? {
        Attempt::Done(nodes) => {
            let sources = main.sources.as_slice();
            let found = assembled(alloc, sources, lemmas, nodes.as_slice(), falsity)?;
            Ok(Attempt::Done(found))
        }
        Attempt::Table(numbers) => Ok(Attempt::Table(numbers)),
        Attempt::Nothing => Ok(Attempt::Nothing),
    }
}

/// What is found of a condition that is searched through with its cuts at hand: first without the choices that have them, then with all.
pub(crate) fn by_cuts(
    alloc: Global,
    terms: &mut Terms,
    condition: &Condition,
    limits: &Limits,
    falsity: TermId,
) -> Result<Attempt<Assembly>, AllocError>
    ensures grows { Extends terms.old terms.new }
{
    let cuts = cuts_of(alloc, terms, condition)?;
    if cuts.as_slice().is_empty() {
        return Ok(Attempt::Nothing);
    }
    let lemmas = lemmas_of(alloc, terms, condition, limits, cuts.as_slice())?;
    let list = lemmas.as_slice();
    let all = all_said(alloc, terms, condition)?;
    let left = uncut(alloc, all.as_slice(), cuts.as_slice())?;
    let main = with_claims(alloc, terms, condition, left.as_slice(), list)?;
    if let Attempt::Done(found) = search_main(alloc, terms, limits, &main, list, falsity)? {
        return Ok(Attempt::Done(found));
    }
    let main = with_lemmas(alloc, condition, list)?;
    search_main(alloc, terms, limits, &main, list, falsity)
}
