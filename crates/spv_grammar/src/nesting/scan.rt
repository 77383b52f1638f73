// The level of a text, token after token.

ghost use Rattle.std.specs.Prelude.{◌≡◌, ◌≤◌, OnOk, IfOk};
ghost use Rattle.spv_grammar.specs.declared.nesting.effects.Effect.TheVariants.{Opens, Closes, Restarts, Counts};
ghost use Rattle.spv_grammar.specs.nesting.Level.{changed};
ghost use Rattle.spv_grammar.specs.nesting.Level as spec;
ghost use Rattle.spv_grammar.specs.nesting.Seen.{counters, IsCounted};

use crate::nesting::effects::{self, Effect};
use spv_tree::tokens::Token;
use std::alloc::{AllocError, Global};

// The level that no text may exceed.
const LARGEST_LEVEL: u32 = 200;

/// The counters after some tokens.
#[derive(Drop)]
pub struct Scan {
    /// The last counter.
    last: u32,
    /// Those before it, the nearest at the end.
    others: Vec<u32>,
    /// The number of the counters and their sum.
    level: u32,
}

// Adds a counter that is 0.
fn open(scan: &mut Scan) -> Result<(), AllocError>
    requires counted { IsCounted scan.old }
    requires low { scan.old.level ≤ 200 }
    ensures counted { OnOk result (IsCounted scan.new) }
    ensures changed { OnOk result (counters scan.new ≡ changed Opens (counters scan.old)) }
{
    scan.others.push(scan.last)?;
    scan.last = 0;
    scan.level += 1;
    Ok(())
}

// Takes the last counter away, if it is not the only one.
fn close(scan: &mut Scan)
    requires counted { IsCounted scan.old }
    ensures counted { IsCounted scan.new }
    ensures changed { counters scan.new ≡ changed Closes (counters scan.old) }
{
    if let Some(nearest) = scan.others.pop() {
        scan.level -= scan.last;
        scan.level -= 1;
        scan.last = nearest;
    }
}

// Sets the last counter to 0.
fn restart(scan: &mut Scan)
    requires counted { IsCounted scan.old }
    ensures counted { IsCounted scan.new }
    ensures changed { counters scan.new ≡ changed Restarts (counters scan.old) }
{
    scan.level -= scan.last;
    scan.last = 0;
}

// Adds 1 to the last counter. It does not exceed the level, and the level is low.
fn count(scan: &mut Scan)
    requires counted { IsCounted scan.old }
    requires low { scan.old.level ≤ 200 }
    ensures counted { IsCounted scan.new }
    ensures changed { counters scan.new ≡ changed Counts (counters scan.old) }
{
    scan.level += 1;
    scan.last += 1;
}

// Does to the counters what a token does.
fn change(scan: &mut Scan, effect: Effect) -> Result<(), AllocError>
    requires counted { IsCounted scan.old }
    requires low { scan.old.level ≤ 200 }
    ensures counted { OnOk result (IsCounted scan.new) }
    ensures changed { OnOk result (counters scan.new ≡ changed effect (counters scan.old)) }
{
    match effect {
        Effect::Opens => return open(scan),
        Effect::Closes => close(scan),
        Effect::Restarts => restart(scan),
        Effect::Counts => count(scan),
        Effect::Passes => {}
    }
    Ok(())
}

/// The line of the first token after which the level of a text exceeds 200, where there is one.
pub fn too_deep(alloc: Global, tokens: &[Token]) -> Result<Option<u32>, AllocError>
    ensures line { IfOk result (λ line. line ≡ spec.too_deep tokens.now) }
{
    let mut scan = Scan {
        last: 0,
        others: Vec::new(alloc),
        level: 1,
    };
    for token in tokens {
        change(&mut scan, effects::of_kind(token.kind))?;
        if scan.level > LARGEST_LEVEL {
            return Ok(Some(token.line));
        }
    }
    Ok(None)
}
