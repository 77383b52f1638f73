// What is read of the last condition. Each part stands behind the one before; what stands out of order changes nothing.

ghost use Rattle.std.specs.Prelude.{◌≡◌, OnOk, IfOk};
ghost use Rattle.spv_listing_values.specs.Kept as kept;

use crate::data::{Header, Instance, Limit, ProofNode, Split, Step, Verdict};
use crate::texts::Text;
use spv_frac::Frac;
use spv_logic::list::List;
use std::alloc::{AllocError, Global};
use std::mem;

// A condition whose verdict is still to come.
#[derive(Drop)]
pub(crate) struct Asked {
    pub(crate) header: Header,
    pub(crate) given: List<Text>,
    pub(crate) goal: Option<Text>,
}

// A verdict that may get more: a proof without nodes; the nodes of a proof in front of the last one, and that one; the parts of a table; or a limit.
#[derive(Drop)]
pub(crate) enum Showing {
    Bare,
    Proof(List<ProofNode<Text>>, ProofNode<Text>),
    Table(List<Text>, List<Instance<Text>>, List<(Text, Frac)>),
    Limit(Limit<Text>),
}

// A condition whose verdict may get more.
#[derive(Drop)]
pub(crate) struct Judged {
    pub(crate) header: Header,
    pub(crate) given: List<Text>,
    pub(crate) goal: Text,
    pub(crate) showing: Showing,
}

// What is read of the last condition.
#[derive(Drop)]
pub(crate) enum Current {
    Nothing,
    Asked(Asked),
    Judged(Judged),
}

impl Asked {
    // A hypothesis more.
    fn put_given(&mut self, t: Text) -> Result<(), AllocError>
        ensures { OnOk result (self.new ≡ kept.asked_given t self.old) }
    {
        self.given.push(t)
    }
}

impl Showing {
    // Whether the next line may be an atom of a table.
    fn takes_branch(&self) -> bool
        ensures { result ≡ kept.showing_takes_branch self.now }
    {
        match self {
            Showing::Table(_, instances, rows) => instances.len() == 0 && rows.len() == 0,
            _ => false,
        }
    }

    fn put_branch(&mut self, t: Text) -> Result<(), AllocError>
        ensures { OnOk result (self.new ≡ kept.showing_branch t self.old) }
    {
        match self {
            Showing::Table(branch, _, _) => branch.push(t),
            _ => Ok(()),
        }
    }

    // Whether the next line may be an instance.
    fn takes_instance(&self) -> bool
        ensures { result ≡ kept.showing_takes_instance self.now }
    {
        match self {
            Showing::Table(_, _, rows) => rows.len() == 0,
            _ => false,
        }
    }

    fn put_instance(&mut self, instance: Instance<Text>) -> Result<(), AllocError>
        ensures { OnOk result (self.new ≡ kept.showing_instance instance self.old) }
    {
        match self {
            Showing::Table(_, instances, _) => instances.push(instance),
            _ => Ok(()),
        }
    }

    // Whether the next line may be the number of a term.
    fn takes_row(&self) -> bool
        ensures { result ≡ kept.showing_takes_row self.now }
    {
        matches!(self, Showing::Table(..))
    }

    fn put_row(&mut self, t: Text, value: Frac) -> Result<(), AllocError>
        ensures { OnOk result (self.new ≡ kept.showing_row (t, value) self.old) }
    {
        match self {
            Showing::Table(_, _, rows) => rows.push((t, value)),
            _ => Ok(()),
        }
    }

    // Whether the last node may get a step or a split.
    fn takes_step(&self) -> bool
        ensures { result ≡ kept.showing_takes_step self.now }
    {
        match self {
            Showing::Bare => true,
            Showing::Proof(_, last) => last.split.is_none(),
            _ => false,
        }
    }

    fn put_step(&mut self, alloc: Global, step: Step<Text>) -> Result<(), AllocError>
        ensures { OnOk result (self.new ≡ kept.showing_step step self.old) }
    {
        match self {
            Showing::Bare => {
                let mut steps = List::new(alloc);
                steps.push(step)?;
                *self = Showing::Proof(List::new(alloc), ProofNode { steps, split: None });
                Ok(())
            }
            Showing::Proof(_, last) => last.steps.push(step),
            _ => Ok(()),
        }
    }

    fn put_split(&mut self, alloc: Global, split: Split<Text>)
        ensures { self.new ≡ kept.showing_split split self.old }
    {
        match self {
            Showing::Bare => {
                let steps = List::new(alloc);
                *self = Showing::Proof(
                    List::new(alloc),
                    ProofNode {
                        steps,
                        split: Some(split),
                    },
                );
            }
            Showing::Proof(_, last) => last.split = Some(split),
            _ => {}
        }
    }

    // Whether a case may begin.
    fn takes_case(&self) -> bool
        ensures { result ≡ kept.showing_takes_case self.now }
    {
        matches!(self, Showing::Bare | Showing::Proof(..))
    }

    // A case begins.
    fn put_case(&mut self, alloc: Global) -> Result<(), AllocError>
        ensures { OnOk result (self.new ≡ kept.showing_case self.old) }
    {
        match self {
            Showing::Bare => {
                *self = Showing::Proof(List::new(alloc), no_steps(alloc));
                Ok(())
            }
            Showing::Proof(nodes, last) => nodes.push(mem::replace(last, no_steps(alloc))),
            _ => Ok(()),
        }
    }

    // The verdict, with all that it got.
    pub(crate) fn end(self, alloc: Global) -> Result<Verdict<Text>, AllocError>
        ensures { IfOk result (λ v. v ≡ kept.shown self) }
    {
        match self {
            Showing::Bare => Ok(Verdict::Proved(List::new(alloc))),
            Showing::Proof(nodes, last) => {
                let mut nodes = nodes;
                nodes.push(last)?;
                Ok(Verdict::Proved(nodes))
            }
            Showing::Table(branch, instances, rows) => {
                Ok(Verdict::Unproved(branch, instances, rows))
            }
            Showing::Limit(limit) => Ok(Verdict::GaveUp(limit)),
        }
    }
}

// A table that is still empty.
pub(crate) fn no_table(alloc: Global) -> Showing
    ensures { result ≡ kept.no_table }
{
    Showing::Table(List::new(alloc), List::new(alloc), List::new(alloc))
}

// A node that is still without steps.
fn no_steps(alloc: Global) -> ProofNode<Text>
    ensures { result ≡ kept.no_steps }
{
    ProofNode {
        steps: List::new(alloc),
        split: None,
    }
}

impl Current {
    // Whether hypotheses or the goal are still to come.
    pub(crate) fn takes_goal(&self) -> bool
        ensures { result ≡ kept.takes_goal self.now }
    {
        match self {
            Current::Asked(asked) => asked.goal.is_none(),
            _ => false,
        }
    }

    pub(crate) fn put_given(&mut self, t: Text) -> Result<(), AllocError>
        ensures { OnOk result (self.new ≡ kept.put_given t self.old) }
    {
        match self {
            Current::Asked(asked) => asked.put_given(t),
            _ => Ok(()),
        }
    }

    pub(crate) fn put_goal(&mut self, t: Text)
        ensures { self.new ≡ kept.put_goal t self.old }
    {
        match self {
            Current::Asked(asked) => asked.goal = Some(t),
            _ => {}
        }
    }

    // Whether the verdict is the next to come.
    pub(crate) fn takes_verdict(&self) -> bool
        ensures { result ≡ kept.takes_verdict self.now }
    {
        match self {
            Current::Asked(asked) => asked.goal.is_some(),
            _ => false,
        }
    }

    // With its verdict.
    fn with_verdict(self, showing: Showing) -> Current
        ensures { result ≡ kept.put_verdict showing self }
    {
        match self {
            Current::Asked(asked) => {
                let Asked {
                    header,
                    given,
                    goal,
                } = asked;
                match goal {
                    Some(goal) => Current::Judged(Judged {
                        header,
                        given,
                        goal,
                        showing,
                    }),
                    None => Current::Asked(Asked {
                        header,
                        given,
                        goal: None,
                    }),
                }
            }
            other => other,
        }
    }

    // The verdict is there.
    pub(crate) fn put_verdict(&mut self, showing: Showing)
        ensures { self.new ≡ kept.put_verdict showing self.old }
    {
        let current = mem::replace(self, Current::Nothing);
        *self = current.with_verdict(showing);
    }

    pub(crate) fn takes_branch(&self) -> bool
        ensures { result ≡ kept.takes kept.showing_takes_branch self.now }
    {
        match self {
            Current::Judged(judged) => judged.showing.takes_branch(),
            _ => false,
        }
    }

    pub(crate) fn put_branch(&mut self, t: Text) -> Result<(), AllocError>
        ensures { OnOk result (self.new ≡ kept.puts (kept.showing_branch t) self.old) }
    {
        match self {
            Current::Judged(judged) => judged.showing.put_branch(t),
            _ => Ok(()),
        }
    }

    pub(crate) fn takes_instance(&self) -> bool
        ensures { result ≡ kept.takes kept.showing_takes_instance self.now }
    {
        match self {
            Current::Judged(judged) => judged.showing.takes_instance(),
            _ => false,
        }
    }

    pub(crate) fn put_instance(&mut self, instance: Instance<Text>) -> Result<(), AllocError>
        ensures { OnOk result (self.new ≡ kept.puts (kept.showing_instance instance) self.old) }
    {
        match self {
            Current::Judged(judged) => judged.showing.put_instance(instance),
            _ => Ok(()),
        }
    }

    pub(crate) fn takes_row(&self) -> bool
        ensures { result ≡ kept.takes kept.showing_takes_row self.now }
    {
        match self {
            Current::Judged(judged) => judged.showing.takes_row(),
            _ => false,
        }
    }

    pub(crate) fn put_row(&mut self, t: Text, value: Frac) -> Result<(), AllocError>
        ensures { OnOk result (self.new ≡ kept.puts (kept.showing_row (t, value)) self.old) }
    {
        match self {
            Current::Judged(judged) => judged.showing.put_row(t, value),
            _ => Ok(()),
        }
    }

    pub(crate) fn takes_step(&self) -> bool
        ensures { result ≡ kept.takes kept.showing_takes_step self.now }
    {
        match self {
            Current::Judged(judged) => judged.showing.takes_step(),
            _ => false,
        }
    }

    pub(crate) fn put_step(&mut self, alloc: Global, step: Step<Text>) -> Result<(), AllocError>
        ensures { OnOk result (self.new ≡ kept.puts (kept.showing_step step) self.old) }
    {
        match self {
            Current::Judged(judged) => judged.showing.put_step(alloc, step),
            _ => Ok(()),
        }
    }

    pub(crate) fn put_split(&mut self, alloc: Global, split: Split<Text>)
        ensures { self.new ≡ kept.puts (kept.showing_split split) self.old }
    {
        match self {
            Current::Judged(judged) => judged.showing.put_split(alloc, split),
            _ => {}
        }
    }

    pub(crate) fn takes_case(&self) -> bool
        ensures { result ≡ kept.takes kept.showing_takes_case self.now }
    {
        match self {
            Current::Judged(judged) => judged.showing.takes_case(),
            _ => false,
        }
    }

    pub(crate) fn put_case(&mut self, alloc: Global) -> Result<(), AllocError>
        ensures { OnOk result (self.new ≡ kept.puts kept.showing_case self.old) }
    {
        match self {
            Current::Judged(judged) => judged.showing.put_case(alloc),
            _ => Ok(()),
        }
    }
}
