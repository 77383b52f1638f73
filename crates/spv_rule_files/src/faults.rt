// Why a rule file is refused.

ghost use Rattle.std.specs.Prelude.{◌≡◌};
ghost use Rattle.spv_rule_files.specs.declared.faults.RuleFault.TheVariants.{Memory};
ghost use Rattle.spv_rule_files.specs.Outcomes.{rule_fault};

use spv_logic::names::Symbol;
use spv_typing::TypeFault;
use std::alloc::AllocError;

/// The first thing in a rule file, in the order of the text, that breaks a rule.
#[derive(Clone, Copy, PartialEq, Eq, Debug)]
pub enum RuleFault {
    /// A rule of names and types is broken.
    Typing(TypeFault),
    /// A variable of a rule is not in its trigger: the line where it first stands in the rule, and its name. It comes where nothing else
    /// is wrong with the rule.
    Unbound(u32, Symbol),
    /// The memory was not enough.
    Memory,
}

impl From<AllocError> for RuleFault {
    ghost from_gives = { λ _ fault. fault ≡ Memory };

    fn from(_refused: AllocError) -> RuleFault {
        RuleFault::Memory
    }
}

// A fault of names and types in a rule file.
pub(crate) fn rule_fault(fault: TypeFault) -> RuleFault
    ensures { result ≡ rule_fault fault }
{
    match fault {
        TypeFault::Memory => RuleFault::Memory,
        fault => RuleFault::Typing(fault),
    }
}
