// What statements are made of.

ghost use Rattle.spv_effects.specs.frame_events.Names.{named};
ghost use Rattle.spv_effects.specs.frame_events.Works.{Opens};
ghost use Rattle.spv_effects.specs.declared.frame_events.works.Work.TheVariants as work;

use crate::frame_events::events::{cell_use, name_use};
use crate::frame_events::names::NameSet;
use crate::frame_events::works::{Opened, Work, nothing, one, three, two};
use spv_program::typed::{Annotation, Arm, Counting, Statement, StatementForm};

pub(crate) fn open_statement<'a>(own: &NameSet, statement: &'a Statement) -> Opened<'a>
    ensures { Opens (named own.now) (work.Statement statement.entry) result }
{
    match &statement.form {
        StatementForm::Assign(d, e) => two(Work::Place(d, true), Work::Value(e)),
        StatementForm::Perform(c) => one(Work::Call(c)),
        StatementForm::New(line, d, t) => two(
            Work::Place(d, true),
            Work::Known(cell_use(*t, true, *line)),
        ),
        StatementForm::Block(inside) => one(Work::Statements(inside.as_slice())),
        StatementForm::If(_, e, a, b) => {
            three(Work::Value(e), Work::Statement(a), Work::Statement(b))
        }
        StatementForm::Case(_, e, arms) => { two(Work::Value(e), Work::Arms(arms.as_slice())) }
        StatementForm::While(_, f, e, s) => {
            three(Work::Annotation(f), Work::Value(e), Work::Statement(s))
        }
        StatementForm::Repeat(_, f, s, e) => {
            three(Work::Annotation(f), Work::Statement(s), Work::Value(e))
        }
        StatementForm::For(line, f, count, s) => three(
            Work::Annotation(f),
            Work::Head(*line, count),
            Work::Statement(s),
        ),
        StatementForm::Assert(a) => one(Work::Noted(&a.formula)),
    }
}

pub(crate) fn open_head<'a>(own: &NameSet, line: u32, head: &'a Counting) -> Opened<'a>
    ensures { Opens (named own.now) (work.Head line head.entry) result }
{
    three(
        Work::Known(name_use(own, head.variable, true, line)),
        Work::Value(&head.first),
        Work::Value(&head.last),
    )
}

pub(crate) fn open_statements<'a>(own: &NameSet, statements: &'a [Statement]) -> Opened<'a>
    ensures { Opens (named own.now) (work.Statements statements.entry) result }
{
    match statements {
        [] => nothing(),
        [s, rest @ ..] => two(Work::Statement(s), Work::Statements(rest)),
    }
}

pub(crate) fn open_arms<'a>(own: &NameSet, arms: &'a [Arm]) -> Opened<'a>
    ensures { Opens (named own.now) (work.Arms arms.entry) result }
{
    match arms {
        [] => nothing(),
        [arm, rest @ ..] => two(Work::Statement(&arm.body), Work::Arms(rest)),
    }
}

pub(crate) fn open_annotation<'a>(own: &NameSet, annotation: &'a Option<Annotation>) -> Opened<'a>
    ensures { Opens (named own.now) (work.Annotation annotation.entry) result }
{
    match annotation {
        None => nothing(),
        Some(a) => one(Work::Noted(&a.formula)),
    }
}
