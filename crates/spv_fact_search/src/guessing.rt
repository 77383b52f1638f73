// A guess of what the terms of a condition are worth, near to numbers that some of them had before.

use crate::numbers::Numbers;
use crate::peers::{Application, Peers, Seen};
use crate::weighing::{is_same, left_of, of_one, of_two, right_of, truth};
use spv_frac::Frac;
use spv_term::{Condition, Head, Node, Sort, TermId, Terms};
use std::alloc::{AllocError, Global};

// How many looks at terms it may take to choose numbers anew, and how often they may be chosen.
const MOST_LOOKS: usize = 1_000_000;

const MOST_TURNS: usize = 64;

// Whether the number of a term may be chosen.
#[derive(Clone, Copy, Debug)]
enum Mark {
    // It had one before, or follows from those of other terms, which may not be chosen.
    Fixed,
    // It follows from the number of a term that may be chosen.
    Above,
    // It may be chosen.
    Open,
}

// Where the way of one that looks into an array, a record or a class goes on behind a change.
enum Way {
    // It ends at this content.
    Here(TermId),
    // It goes on into what was there before.
    Before(TermId),
    // Nothing is known of it.
    Unknown,
}

// A term, and the number that it is to have.
#[derive(Clone, Copy)]
struct Aim {
    term: TermId,
    number: Frac,
}

/// What terms are taken to be worth.
#[derive(Drop)]
pub(crate) struct Guess {
    // Those that a table lists, as far as they had a number before or got one.
    chosen: Numbers,
    // All terms.
    worth: Numbers,
    // Which of them may be chosen, each at the place of its id.
    marks: Vec<Mark>,
    // A number above all that terms had before.
    above: i64,
    // Whether each number of which nothing is known is another one.
    is_spread: bool,
    // The applications by their heads.
    peers: Peers,
}

// The node of a term, if there is one.
fn node_of(terms: &Terms, t: TermId) -> Option<&Node> {
    if t.0 < terms.len() {
        Some(terms.node(t))
    } else {
        None
    }
}

// A whole number as a fraction, if it is small.
fn small(number: i128) -> Option<Frac> {
    match i64::try_from(number) {
        Ok(small) => Some(Frac::whole(small)),
        Err(_) => None,
    }
}

// A number for a term that no other one has, above a number.
fn apart(above: i64, t: TermId) -> Frac {
    match above.checked_add(i64::from(t.0)) {
        Some(number) => Frac::whole(number),
        None => Frac::whole(0),
    }
}

// The mark of a term over these.
fn mark_over(marks: &[Mark], args: &[TermId]) -> Mark {
    for t in args {
        match mark_at(marks, *t) {
            Mark::Fixed => {}
            _ => return Mark::Above,
        }
    }
    Mark::Fixed
}

// The mark of a term.
fn mark_at(marks: &[Mark], t: TermId) -> Mark {
    match marks.get(t.0 as usize) {
        Some(mark) => *mark,
        None => Mark::Fixed,
    }
}

// Marks a term.
fn put_mark(marks: &mut Vec<Mark>, t: TermId, mark: Mark) {
    if let Some(place) = marks.get_mut(t.0 as usize) {
        *place = mark;
    }
}

// Marks for so many terms.
fn no_marks(alloc: Global, count: u32) -> Result<Vec<Mark>, AllocError> {
    let mut marks = Vec::new(alloc);
    for _ in 0..count {
        marks.push(Mark::Fixed)?;
    }
    Ok(marks)
}

// Whether a number is known, and another one than this.
fn is_off(known: Option<Frac>, number: Frac) -> bool {
    match known {
        Some(x) => !is_same(x, number),
        None => false,
    }
}

// Whether both are known and the same.
fn are_same(left: Option<Frac>, right: Option<Frac>) -> bool {
    match (left, right) {
        (Some(x), Some(y)) => is_same(x, y),
        _ => false,
    }
}

impl Guess {
    // No guess yet: a term has the number that it had before.
    fn begin(
        alloc: Global,
        terms: &Terms,
        before: Numbers,
        ids: &[TermId],
    ) -> Result<Guess, AllocError> {
        let above = before.above();
        Ok(Guess {
            chosen: before,
            worth: Numbers::none(alloc, terms.len())?,
            marks: no_marks(alloc, terms.len())?,
            above,
            is_spread: false,
            peers: Peers::new(alloc, terms, ids)?,
        })
    }

    /// What a term is taken to be worth.
    pub(crate) fn at(&self, t: TermId) -> Frac {
        match self.worth.at(t) {
            Some(number) => number,
            None => Frac::whole(0),
        }
    }

    // The number of a term of which nothing is known: another one for each term that is no truth, and is no number unless these are spread.
    fn usual(&self, terms: &Terms, t: TermId) -> Frac {
        if t.0 >= terms.len() {
            return Frac::whole(0);
        }
        match terms.sort(t) {
            Sort::Bool => Frac::whole(0),
            Sort::Int if !self.is_spread => Frac::whole(0),
            _ => apart(self.above, t),
        }
    }

    // Whether two lists of terms are taken to be worth the same, one by one.
    fn are_worth_same(&self, left: &[TermId], right: &[TermId]) -> bool {
        if left.len() != right.len() {
            return false;
        }
        for i in 0..left.len() {
            if !are_same(self.worth.at(left[i]), self.worth.at(right[i])) {
                return false;
            }
        }
        true
    }

    // Whether a term has arguments that are worth the same as these.
    fn is_over(&self, terms: &Terms, args: &[TermId], t: TermId) -> bool {
        match node_of(terms, t) {
            Some(node) => self.are_worth_same(args, node.args.as_slice()),
            None => false,
        }
    }

    // The number of a term that has to have the same one as this.
    fn alike(&self, terms: &Terms, t: TermId) -> Option<Frac> {
        let Some(node) = node_of(terms, t) else {
            return None;
        };
        for u in self.peers.of(node.head) {
            if u.0 != t.0 && self.is_over(terms, node.args.as_slice(), *u) {
                return self.worth.at(*u);
            }
        }
        None
    }

    // Where the way from a changed array, record or class to what it was before ends for one that looks into it: at what was put there.
    fn seen(&self, terms: &Terms, look: &Node) -> Option<Frac> {
        let Some(mut whole) = look.args.as_slice().first().copied() else {
            return None;
        };
        for _ in 0..terms.len() {
            let Some(changed) = node_of(terms, whole) else {
                return None;
            };
            match self.through(look, changed) {
                Way::Here(content) => return self.worth.at(content),
                Way::Before(before) => whole = before,
                Way::Unknown => return self.before(terms, look, whole),
            }
        }
        None
    }

    // The way of one that looks into an array, a record or a class through its last change.
    fn through(&self, look: &Node, changed: &Node) -> Way {
        match (look.head, changed.head) {
            (Head::Select, Head::Store) | (Head::Cell, Head::SetCell) => {
                match (look.args.as_slice(), changed.args.as_slice()) {
                    ([_, index], [before, place, content]) => {
                        if are_same(self.worth.at(*index), self.worth.at(*place)) {
                            Way::Here(*content)
                        } else {
                            Way::Before(*before)
                        }
                    }
                    _ => Way::Unknown,
                }
            }
            (Head::Field(field), Head::Put(place)) => match changed.args.as_slice() {
                [before, content] => {
                    if field == place {
                        Way::Here(*content)
                    } else {
                        Way::Before(*before)
                    }
                }
                _ => Way::Unknown,
            },
            _ => Way::Unknown,
        }
    }

    // What was seen of one that looks as this one does into what was there before all changes, if one was weighed.
    fn before(&self, terms: &Terms, look: &Node, whole: TermId) -> Option<Frac> {
        for number in 0..terms.len() {
            let t = TermId(number);
            if let Some(known) = self.chosen.at(t) {
                let Some(other) = node_of(terms, t) else {
                    return None;
                };
                if other.head == look.head && self.looks_into(other, whole, look) {
                    return Some(known);
                }
            }
        }
        None
    }

    // Whether one looks into this at the place at which another one looks.
    fn looks_into(&self, one: &Node, whole: TermId, other: &Node) -> bool {
        match (one.args.as_slice(), other.args.as_slice()) {
            ([into, place], [_, other_place]) => {
                into.0 == whole.0 && are_same(self.worth.at(*place), self.worth.at(*other_place))
            }
            ([into], [_]) => into.0 == whole.0,
            _ => false,
        }
    }

    // The number of a term by what it looks at, or one that it has to have as another one, or the usual one.
    fn unknown(&self, terms: &Terms, t: TermId) -> Frac {
        let seen = match node_of(terms, t) {
            Some(node) => self.seen(terms, node),
            None => None,
        };
        if let Some(number) = seen {
            return number;
        }
        match self.alike(terms, t) {
            Some(number) => number,
            None => self.usual(terms, t),
        }
    }

    // The number of a term that a table lists.
    fn listed(&self, terms: &Terms, t: TermId) -> Frac {
        match self.chosen.at(t) {
            Some(number) => number,
            None => self.unknown(terms, t),
        }
    }

    // The number of a head over terms, if they have numbers, and it has a meaning of its own.
    fn over(&self, head: Head, args: &[TermId]) -> Option<Frac> {
        match args {
            [t] => {
                let Some(x) = self.worth.at(*t) else {
                    return None;
                };
                of_one(head, x)
            }
            [t, u] => {
                let Some(x) = self.worth.at(*t) else {
                    return None;
                };
                let Some(y) = self.worth.at(*u) else {
                    return None;
                };
                of_two(head, x, y)
            }
            _ => None,
        }
    }

    // The number of a term that no table lists, if it follows from those of its arguments.
    fn computed(&self, terms: &Terms, t: TermId) -> Option<Frac> {
        let Some(node) = node_of(terms, t) else {
            return None;
        };
        match node.head {
            Head::Num(number) => small(number),
            Head::True => Some(truth(true)),
            Head::False => Some(truth(false)),
            _ => self.over(node.head, node.args.as_slice()),
        }
    }

    // Weighs one term, whose arguments were weighed.
    fn weigh_one(&mut self, terms: &Terms, t: TermId, is_listed: bool) {
        let number = if is_listed {
            Some(self.listed(terms, t))
        } else {
            self.computed(terms, t)
        };
        self.worth.put(t, number);
    }

    // Weighs all terms, in order.
    fn weigh(&mut self, terms: &Terms, ids: &[TermId], flags: &[bool]) {
        for place in 0..ids.len() {
            let is_listed = flags.get(place).copied().unwrap_or(false);
            self.weigh_one(terms, ids[place], is_listed);
        }
    }

    // The mark of a term, whose arguments are marked.
    fn mark_of(&self, terms: &Terms, t: TermId, is_listed: bool) -> Mark {
        if is_listed {
            return match self.chosen.at(t) {
                Some(_) => Mark::Fixed,
                None => Mark::Open,
            };
        }
        match node_of(terms, t) {
            Some(node) => mark_over(self.marks.as_slice(), node.args.as_slice()),
            None => Mark::Fixed,
        }
    }

    // Marks all terms, in order.
    fn mark(&mut self, terms: &Terms, ids: &[TermId], flags: &[bool]) {
        for place in 0..ids.len() {
            let is_listed = flags.get(place).copied().unwrap_or(false);
            let mark = self.mark_of(terms, ids[place], is_listed);
            put_mark(&mut self.marks, ids[place], mark);
        }
    }

    // To give a side of a pair a number, if that may be and is not so yet.
    fn at_side(&self, t: TermId, number: Option<Frac>) -> Option<Aim> {
        let Some(number) = number else {
            return None;
        };
        match mark_at(self.marks.as_slice(), t) {
            Mark::Fixed => None,
            _ => {
                if is_off(self.worth.at(t), number) {
                    Some(Aim { term: t, number })
                } else {
                    None
                }
            }
        }
    }

    // How a head over two terms gets a number: by its right side, or by its left one.
    fn by_sides(&self, head: Head, number: Frac, t: TermId, u: TermId) -> Option<Aim> {
        let right = right_of(head, number, self.at(t));
        if let Some(aim) = self.at_side(u, right) {
            return Some(aim);
        }
        let left = left_of(head, number, self.at(u));
        self.at_side(t, left)
    }

    // How a term gets a number: by one of its arguments.
    fn below(&self, terms: &Terms, aim: Aim) -> Option<Aim> {
        let Some(node) = node_of(terms, aim.term) else {
            return None;
        };
        match node.args.as_slice() {
            [t] => self.at_side(*t, of_one(node.head, aim.number)),
            [t, u] => self.by_sides(node.head, aim.number, *t, *u),
            _ => None,
        }
    }

    // The term that may be chosen by which a term gets a number, and which number that is.
    fn reached(&self, terms: &Terms, aim: Aim) -> Option<Aim> {
        let mut aim = aim;
        for _ in 0..terms.len() {
            if let Mark::Open = mark_at(self.marks.as_slice(), aim.term) {
                return Some(aim);
            }
            match self.below(terms, aim) {
                Some(next) => aim = next,
                None => return None,
            }
        }
        None
    }

    // The first formula of a condition that is not as it is to be.
    fn failing(&self, condition: &Condition) -> Option<Aim> {
        for f in condition.given.as_slice() {
            if is_off(self.worth.at(*f), truth(true)) {
                return Some(Aim {
                    term: *f,
                    number: truth(true),
                });
            }
        }
        if is_off(self.worth.at(condition.goal), truth(false)) {
            return Some(Aim {
                term: condition.goal,
                number: truth(false),
            });
        }
        None
    }

    // Chooses another number, so that a formula that is not as it is to be becomes so; whether one was chosen.
    fn mend(&mut self, terms: &Terms, condition: &Condition) -> bool {
        let Some(aim) = self.failing(condition) else {
            return false;
        };
        match self.reached(terms, aim) {
            Some(found) => {
                self.chosen.put(found.term, Some(found.number));
                true
            }
            None => false,
        }
    }

    // How many terms may be chosen.
    fn open_count(&self) -> usize {
        let mut count: usize = 0;
        for mark in self.marks.as_slice() {
            if let Mark::Open = *mark {
                count = count.saturating_add(1);
            }
        }
        count
    }

    // How often numbers may be chosen anew: less often where it takes longer to weigh so many terms.
    fn turns(&self, count: usize) -> usize {
        let each = count.saturating_mul(self.open_count().saturating_add(1));
        if each == 0 {
            return 0;
        }
        let most = MOST_LOOKS / each;
        if most < MOST_TURNS { most } else { MOST_TURNS }
    }

    // What terms are worth.
    fn all_at(&self, alloc: Global, list: &[TermId]) -> Result<Vec<Frac>, AllocError> {
        let mut numbers = Vec::new(alloc);
        for t in list {
            numbers.push(self.at(*t))?;
        }
        Ok(numbers)
    }

    // Looks at an application: one of before from which it is apart, if there is one.
    fn look(
        &self,
        alloc: Global,
        terms: &Terms,
        seen: &mut Seen,
        t: TermId,
    ) -> Result<Option<TermId>, AllocError> {
        let Some(node) = node_of(terms, t) else {
            return Ok(None);
        };
        if node.args.as_slice().is_empty() {
            return Ok(None);
        }
        let one = Application {
            term: t,
            number: self.at(t),
            head: node.head,
            args: self.all_at(alloc, node.args.as_slice())?,
        };
        seen.look(alloc, &one)
    }

    /// Those of these terms that are flagged, have the head of another one of them and arguments that are worth the same, and another number; with the
    /// first of these others.
    pub(crate) fn apart(
        &self,
        alloc: Global,
        terms: &Terms,
        ids: &[TermId],
        flags: &[bool],
    ) -> Result<Vec<TermId>, AllocError> {
        let mut apart = Vec::new(alloc);
        let mut seen = Seen::new(alloc);
        for place in 0..ids.len() {
            if flags.get(place).copied().unwrap_or(false) {
                let found = self.look(alloc, terms, &mut seen, ids[place])?;
                if let Some(other) = found {
                    apart.push(ids[place])?;
                    apart.push(other)?;
                }
            }
        }
        Ok(apart)
    }

    /// Takes all numbers of which nothing is known for different ones.
    pub(crate) fn spread(&mut self, terms: &Terms, ids: &[TermId], flags: &[bool]) {
        self.is_spread = true;
        self.weigh(terms, ids, flags);
    }

    /// A guess of what these terms are worth, where before each its arguments stand, and of which those that are flagged are listed by a table: a
    /// term that had a number before keeps it, and others get one by which the formulas of the condition may be as they are to be.
    pub(crate) fn new(
        alloc: Global,
        terms: &Terms,
        condition: &Condition,
        before: Numbers,
        ids: &[TermId],
        flags: &[bool],
    ) -> Result<Guess, AllocError> {
        let mut guess = Guess::begin(alloc, terms, before, ids)?;
        guess.mark(terms, ids, flags);
        guess.weigh(terms, ids, flags);
        for _ in 0..guess.turns(ids.len()) {
            if !guess.mend(terms, condition) {
                return Ok(guess);
            }
            guess.weigh(terms, ids, flags);
        }
        Ok(guess)
    }
}
