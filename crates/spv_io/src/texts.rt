// Texts that are read by name.
ghost use Rattle.std.specs.Prelude.{◌≡◌, ◌≤◌, ℕ, List, Option, take, vec_len, IfOk, IfSome, OnOk, IsErrOf};
ghost use Rattle.spv_io.specs.Faults.{Rose};
ghost use Rattle.spv_io.specs.Texts.{named};

use crate::TextFault;

/// Texts that are read by name.
pub trait Texts {
    /// The text of a name, by the name's bytes, where the object tells it.
    ghost told: { Self → List ℕ → Option (List ℕ) };

    /// The names of the reads so far in their order, where the object tells them. A read that
    /// ended for want of memory is not among them.
    ghost asked: { Self → Option (List (List ℕ)) };

    /// How often the outside has failed. The count stays at 18446744073709551615 once it is there.
    ghost faults: { Self → ℕ };

    /// The text that has this name, cut off after `most` bytes.
    fn read(&mut self, name: &str, most: usize) -> Result<Vec<u8>, TextFault>
        ensures text { IfOk result (λ bytes. IfSome (told self.old name.now)
            (λ text. bytes.items ≡ take most text)) }
        ensures bound { IfOk result (λ bytes. vec_len bytes ≤ most) }
        ensures told { told self.new ≡ told self.old }

        ensures asked_ok { OnOk result (asked self.new ≡ named (asked self.old) name.now) }
        ensures asked_failed { IsErrOf result TextFault.Failed
            → asked self.new ≡ named (asked self.old) name.now }
        ensures asked_memory { IsErrOf result TextFault.Memory → asked self.new ≡ asked self.old }

        // It fails only where the outside did.
        ensures rose { IsErrOf result TextFault.Failed → Rose (faults self.old) (faults self.new) }
        ensures faults_ok { OnOk result (faults self.new ≡ faults self.old) }
        ensures faults_memory { IsErrOf result TextFault.Memory → faults self.new ≡ faults self.old }
        ensures never_falls { faults self.old ≤ faults self.new };
}
