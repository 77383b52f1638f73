// What lines of words and terms say of conditions. A line that says nothing of them, or that stands out of order, is passed over.

ghost use Rattle.std.specs.Prelude.{◌≡◌, ◌≤◌, [], All, IfOk, OnOk, length, map};
ghost use Rattle.spv_logic.specs.names.Names.{IsFolded};
ghost use Rattle.spv_listing_values.specs.declared.keywords.LineWord.TheVariants as line_word;
ghost use Rattle.spv_listing_values.specs.declared.data.Verdict.TheVariants.{GaveUp};
ghost use Rattle.spv_listing_values.specs.declared.told.Looked.{Looked};
ghost use Rattle.spv_listing_values.specs.Written.{Written};
ghost use Rattle.spv_listing_values.specs.Reading as spec;
ghost use Rattle.spv_listing_values.specs.Reading.{line_by, with_header, asking, with_given, with_goal, with_verdict, judged, with_branch, with_instance, with_value, on_node, with_split, with_case, with_line};
ghost use Rattle.spv_listing_values.specs.Mapped.{verdict_at, verdict_terms};
ghost use Rattle.spv_listing_values.specs.Entries.{written_claim};
ghost use Rattle.spv_listing_values.specs.Told.{IsLooked, IsItemOf, AreItemsOf, term_in, terms_in};
ghost use Rattle.spv_listing_values.specs.Kept.{shown, judged_claim};
ghost use Rattle.spv_listing_values.specs.Followed.{IsRead, IsReading, reading_of, Reads, HasEnded};

use crate::current::{Asked, Current, Judged, Showing, no_table};
use crate::data::{Claim, Header, Instance, Split};
use crate::interning::Table;
use crate::keywords::{LineWord, line_word};
use crate::numbers::fraction;
use crate::scanning::{Item, Line};
use crate::texts::{Text, Texts};
use crate::told::Looked;
use spv_frac::Frac;
use spv_logic::list::List;
use std::alloc::{AllocError, Global};
use std::mem;

// A condition that was read, over its terms.
#[derive(Drop)]
pub(crate) struct Read {
    pub(crate) texts: Texts,
    pub(crate) claim: Claim<Text>,
}

// What was read so far: the conditions before the last one, and that one with its terms.
#[derive(Drop)]
pub(crate) struct Reader {
    alloc: Global,
    read: Vec<Read>,
    table: Table,
    current: Current,
}

// A condition whose verdict gets no more.
fn claim_of(alloc: Global, judged: Judged) -> Result<Claim<Text>, AllocError>
    ensures { IfOk result (λ c. c ≡ judged_claim judged) }
{
    let Judged {
        header,
        given,
        goal,
        showing,
    } = judged;
    let verdict = showing.end(alloc)?;
    Ok(Claim {
        header,
        given,
        goal,
        verdict,
    })
}

impl Reader {
    // Nothing is read.
    fn new(alloc: Global) -> Reader
        ensures { Reads result spec.nothing }
    {
        Reader {
            alloc,
            read: Vec::new(alloc),
            table: Table::new(alloc),
            current: Current::Nothing,
        }
    }

    // The last condition is done.
    fn end_entry(&mut self) -> Result<(), AllocError>
        requires { IsReading self.old }
        ensures { OnOk result (HasEnded self.new ((reading_of self.old).claims)) }
    {
        let texts = self.table.take();
        match mem::replace(&mut self.current, Current::Nothing) {
            Current::Judged(judged) => {
                let claim = claim_of(self.alloc, judged)?;
                self.read.push(Read { texts, claim })?;
                Ok(())
            }
            _ => Ok(()),
        }
    }

    // A condition begins.
    fn begin(&mut self, header: Header) -> Result<(), AllocError>
        requires { IsReading self.old }
        ensures { OnOk result (Reads self.new (with_header header (reading_of self.old))) }
    {
        self.end_entry()?;
        self.current = Current::Asked(Asked {
            header,
            given: List::new(self.alloc),
            goal: None,
        });
        Ok(())
    }

    fn heading(&mut self, looked: &Looked, items: &[Item]) -> Result<(), AllocError>
        requires reading { IsReading self.old }
        requires looked { IsLooked looked.now }
        requires items { AreItemsOf looked.now items.now }
        ensures { OnOk result (Reads self.new (line_by line_word.Heading (terms_in looked.now items.now) (reading_of self.old))) }
    {
        match items {
            [_, routine, annotation, _, line] => {
                match looked.header(self.alloc, *routine, *annotation, *line)? {
                    None => Ok(()),
                    Some(header) => self.begin(header),
                }
            }
            _ => Ok(()),
        }
    }

    // A hypothesis stands in front of the goal.
    fn put_given(&mut self, looked: &Looked, item: Item) -> Result<(), AllocError>
        requires reading { IsReading self.old }
        requires looked { IsLooked looked.now }
        requires item { IsItemOf looked.now item }
        ensures { OnOk result (Reads self.new (asking (with_given (term_in looked.now item)) (reading_of self.old))) }
    {
        if !self.current.takes_goal() {
            return Ok(());
        }
        let t = looked.enter(&mut self.table, item)?;
        self.current.put_given(t)?;
        Ok(())
    }

    fn given(&mut self, looked: &Looked, items: &[Item]) -> Result<(), AllocError>
        requires reading { IsReading self.old }
        requires looked { IsLooked looked.now }
        requires items { AreItemsOf looked.now items.now }
        ensures { OnOk result (Reads self.new (line_by line_word.Given (terms_in looked.now items.now) (reading_of self.old))) }
    {
        match items {
            [t] => self.put_given(looked, *t),
            _ => Ok(()),
        }
    }

    // There is one goal.
    fn put_goal(&mut self, looked: &Looked, item: Item) -> Result<(), AllocError>
        requires reading { IsReading self.old }
        requires looked { IsLooked looked.now }
        requires item { IsItemOf looked.now item }
        ensures { OnOk result (Reads self.new (asking (with_goal (term_in looked.now item)) (reading_of self.old))) }
    {
        if !self.current.takes_goal() {
            return Ok(());
        }
        let t = looked.enter(&mut self.table, item)?;
        self.current.put_goal(t);
        Ok(())
    }

    fn goal(&mut self, looked: &Looked, items: &[Item]) -> Result<(), AllocError>
        requires reading { IsReading self.old }
        requires looked { IsLooked looked.now }
        requires items { AreItemsOf looked.now items.now }
        ensures { OnOk result (Reads self.new (line_by line_word.Goal (terms_in looked.now items.now) (reading_of self.old))) }
    {
        match items {
            [t] => self.put_goal(looked, *t),
            _ => Ok(()),
        }
    }

    // The verdict is there, without any term.
    fn put_verdict(&mut self, showing: Showing)
        requires reading { IsReading self.old }
        requires no_terms { verdict_terms (shown showing) ≡ [] }
        ensures { (f : Text → Written) → Reads self.new (with_verdict (verdict_at f (shown showing)) (reading_of self.old)) }
    {
        if self.current.takes_verdict() {
            self.current.put_verdict(showing);
        }
    }

    fn proved(&mut self, items: &[Item])
        requires reading { IsReading self.old }
        ensures { (l : Looked) → Reads self.new (line_by line_word.Proved (terms_in l items.now) (reading_of self.old)) }
    {
        if items.is_empty() {
            self.put_verdict(Showing::Bare);
        }
    }

    fn unproved(&mut self, items: &[Item])
        requires reading { IsReading self.old }
        ensures { (l : Looked) → Reads self.new (line_by line_word.Unproved (terms_in l items.now) (reading_of self.old)) }
    {
        if items.is_empty() {
            self.put_verdict(no_table(self.alloc));
        }
    }

    // The condition was given up.
    fn put_limit(&mut self, looked: &Looked, items: &[Item]) -> Result<(), AllocError>
        requires reading { IsReading self.old }
        requires looked { IsLooked looked.now }
        requires items { AreItemsOf looked.now items.now }
        ensures { OnOk result (Reads self.new (spec.with_some (λ l. with_verdict (GaveUp l)) (spec.limit_of (terms_in looked.now items.now)) (reading_of self.old))) }
    {
        if !self.current.takes_verdict() {
            return Ok(());
        }
        match looked.limit(&mut self.table, items)? {
            None => Ok(()),
            Some(limit) => {
                self.current.put_verdict(Showing::Limit(limit));
                Ok(())
            }
        }
    }

    fn gave_up(&mut self, looked: &Looked, items: &[Item]) -> Result<(), AllocError>
        requires reading { IsReading self.old }
        requires looked { IsLooked looked.now }
        requires items { AreItemsOf looked.now items.now }
        ensures { OnOk result (Reads self.new (line_by line_word.Gave (terms_in looked.now items.now) (reading_of self.old))) }
    {
        match items {
            [] => Ok(()),
            [_, rest @ ..] => self.put_limit(looked, rest),
        }
    }

    // An atom of a table.
    fn put_branch(&mut self, looked: &Looked, item: Item) -> Result<(), AllocError>
        requires reading { IsReading self.old }
        requires looked { IsLooked looked.now }
        requires item { IsItemOf looked.now item }
        ensures { OnOk result (Reads self.new (judged (with_branch (term_in looked.now item)) (reading_of self.old))) }
    {
        if !self.current.takes_branch() {
            return Ok(());
        }
        let t = looked.enter(&mut self.table, item)?;
        self.current.put_branch(t)?;
        Ok(())
    }

    fn branch(&mut self, looked: &Looked, items: &[Item]) -> Result<(), AllocError>
        requires reading { IsReading self.old }
        requires looked { IsLooked looked.now }
        requires items { AreItemsOf looked.now items.now }
        ensures { OnOk result (Reads self.new (line_by line_word.Branch (terms_in looked.now items.now) (reading_of self.old))) }
    {
        match items {
            [t] => self.put_branch(looked, *t),
            _ => Ok(()),
        }
    }

    // An instance of a rule.
    fn put_instance(&mut self, looked: &Looked, rule: u32, items: &[Item]) -> Result<(), AllocError>
        requires reading { IsReading self.old }
        requires looked { IsLooked looked.now }
        requires items { AreItemsOf looked.now items.now }
        ensures { OnOk result (Reads self.new (judged (with_instance (record { rule = rule; values = terms_in looked.now items.now })) (reading_of self.old))) }
    {
        if !self.current.takes_instance() {
            return Ok(());
        }
        let values = looked.enter_all(self.alloc, &mut self.table, items)?;
        self.current.put_instance(Instance { rule, values })?;
        Ok(())
    }

    fn instance(&mut self, looked: &Looked, items: &[Item]) -> Result<(), AllocError>
        requires reading { IsReading self.old }
        requires looked { IsLooked looked.now }
        requires items { AreItemsOf looked.now items.now }
        ensures { OnOk result (Reads self.new (line_by line_word.Instance (terms_in looked.now items.now) (reading_of self.old))) }
    {
        match items {
            [] => Ok(()),
            [rule, rest @ ..] => match looked.fact(*rule) {
                None => Ok(()),
                Some(rule) => self.put_instance(looked, rule, rest),
            },
        }
    }

    // The number of a term.
    fn put_row(&mut self, looked: &Looked, item: Item, value: Frac) -> Result<(), AllocError>
        requires reading { IsReading self.old }
        requires looked { IsLooked looked.now }
        requires item { IsItemOf looked.now item }
        ensures { OnOk result (Reads self.new (judged (with_value (term_in looked.now item, value)) (reading_of self.old))) }
    {
        if !self.current.takes_row() {
            return Ok(());
        }
        let t = looked.enter(&mut self.table, item)?;
        self.current.put_row(t, value)?;
        Ok(())
    }

    fn row_of(&mut self, looked: &Looked, item: Item, value: Item) -> Result<(), AllocError>
        requires reading { IsReading self.old }
        requires looked { IsLooked looked.now }
        requires item { IsItemOf looked.now item }
        requires value { IsItemOf looked.now value }
        ensures { OnOk result (Reads self.new (spec.with_some (λ row. judged (with_value row)) (spec.row_of (term_in looked.now item) (term_in looked.now value)) (reading_of self.old))) }
    {
        match fraction(looked.word(value)) {
            None => Ok(()),
            Some(number) => self.put_row(looked, item, number),
        }
    }

    fn row(&mut self, looked: &Looked, items: &[Item]) -> Result<(), AllocError>
        requires reading { IsReading self.old }
        requires looked { IsLooked looked.now }
        requires items { AreItemsOf looked.now items.now }
        ensures { OnOk result (Reads self.new (line_by line_word.Value (terms_in looked.now items.now) (reading_of self.old))) }
    {
        match looked.pair(items) {
            None => Ok(()),
            Some((item, value)) => self.row_of(looked, item, value),
        }
    }

    fn step(&mut self, looked: &Looked, items: &[Item]) -> Result<(), AllocError>
        requires reading { IsReading self.old }
        requires looked { IsLooked looked.now }
        requires items { AreItemsOf looked.now items.now }
        ensures { OnOk result (Reads self.new (line_by line_word.Step (terms_in looked.now items.now) (reading_of self.old))) }
    {
        if !self.current.takes_step() {
            return Ok(());
        }
        match looked.step(self.alloc, &mut self.table, items)? {
            None => Ok(()),
            Some(step) => {
                self.current.put_step(self.alloc, step)?;
                Ok(())
            }
        }
    }

    // A node is split.
    fn put_split(&mut self, looked: &Looked, cases: u32, item: Item) -> Result<(), AllocError>
        requires reading { IsReading self.old }
        requires looked { IsLooked looked.now }
        requires item { IsItemOf looked.now item }
        ensures { OnOk result (Reads self.new (judged (on_node (with_split cases (term_in looked.now item))) (reading_of self.old))) }
    {
        if !self.current.takes_step() {
            return Ok(());
        }
        let atom = looked.enter(&mut self.table, item)?;
        self.current.put_split(self.alloc, Split { cases, atom });
        Ok(())
    }

    fn split_of(&mut self, looked: &Looked, cases: Item, atom: Item) -> Result<(), AllocError>
        requires reading { IsReading self.old }
        requires looked { IsLooked looked.now }
        requires cases { IsItemOf looked.now cases }
        requires atom { IsItemOf looked.now atom }
        ensures { OnOk result (Reads self.new (spec.with_some (λ n. judged (on_node (with_split n (term_in looked.now atom)))) (spec.fact_in (term_in looked.now cases)) (reading_of self.old))) }
    {
        match looked.fact(cases) {
            None => Ok(()),
            Some(number) => self.put_split(looked, number, atom),
        }
    }

    fn split(&mut self, looked: &Looked, items: &[Item]) -> Result<(), AllocError>
        requires reading { IsReading self.old }
        requires looked { IsLooked looked.now }
        requires items { AreItemsOf looked.now items.now }
        ensures { OnOk result (Reads self.new (line_by line_word.Split (terms_in looked.now items.now) (reading_of self.old))) }
    {
        match looked.pair(items) {
            None => Ok(()),
            Some((cases, atom)) => self.split_of(looked, cases, atom),
        }
    }

    // A case begins.
    fn put_case(&mut self) -> Result<(), AllocError>
        requires { IsReading self.old }
        ensures { OnOk result (Reads self.new (judged with_case (reading_of self.old))) }
    {
        if !self.current.takes_case() {
            return Ok(());
        }
        self.current.put_case(self.alloc)?;
        Ok(())
    }

    fn case(&mut self, items: &[Item]) -> Result<(), AllocError>
        requires { IsReading self.old }
        ensures { (l : Looked) → OnOk result (Reads self.new (line_by line_word.Case (terms_in l items.now) (reading_of self.old))) }
    {
        match items {
            [_] => self.put_case(),
            _ => Ok(()),
        }
    }

    // One line more, by its word and the items behind it.
    fn line_by(&mut self, looked: &Looked, word: LineWord, items: &[Item]) -> Result<(), AllocError>
        requires reading { IsReading self.old }
        requires looked { IsLooked looked.now }
        requires items { AreItemsOf looked.now items.now }
        ensures { OnOk result (Reads self.new (line_by word (terms_in looked.now items.now) (reading_of self.old))) }
    {
        match word {
            LineWord::Heading => self.heading(looked, items),
            LineWord::Given => self.given(looked, items),
            LineWord::Goal => self.goal(looked, items),
            LineWord::Proved => {
                self.proved(items);
                Ok(())
            }
            LineWord::Unproved => {
                self.unproved(items);
                Ok(())
            }
            LineWord::Gave => self.gave_up(looked, items),
            LineWord::Branch => self.branch(looked, items),
            LineWord::Instance => self.instance(looked, items),
            LineWord::Value => self.row(looked, items),
            LineWord::Step => self.step(looked, items),
            LineWord::Split => self.split(looked, items),
            LineWord::Case => self.case(items),
        }
    }

    // One line more.
    fn line(&mut self, looked: &Looked) -> Result<(), AllocError>
        requires reading { IsReading self.old }
        requires looked { IsLooked looked.now }
        ensures { OnOk result (Reads self.new (with_line (reading_of self.old) (terms_in looked.now looked.now.line.now.items.items))) }
    {
        match looked.line.items.as_slice() {
            [] => Ok(()),
            [first, items @ ..] => match line_word(looked.word(*first)) {
                None => Ok(()),
                Some(word) => self.line_by(looked, word, items),
            },
        }
    }
}

// The conditions that these bytes tell, where they are a listing.
pub(crate) fn claims_in(alloc: Global, bytes: &[u8]) -> Result<Vec<Read>, AllocError>
    requires short { length bytes.now ≤ 67108864 }
    requires folded { IsFolded bytes.now }
    ensures claims { IfOk result (λ read. map (λ e. written_claim e.texts e.claim) read.items ≡ spec.claims_in bytes.now) }
    ensures read { IfOk result (λ read. All (λ e. IsRead e.texts e.claim) read.items) }
{
    let mut reader = Reader::new(alloc);
    let mut line = Line::new(alloc);
    let mut at = 0;
    while let Some(next) = line.read(bytes, at)? {
        reader.line(&Looked { bytes, line: &line })?;
        at = next;
    }
    reader.end_entry()?;
    let Reader {
        alloc: _,
        read,
        table: _,
        current: _,
    } = reader;
    Ok(read)
}
