// What is written piece by piece.
ghost use Rattle.std.specs.Prelude.{◌≡◌, ◌≤◌, ℕ, List, Option, OnOk, OnErr};
ghost use Rattle.spv_io.specs.Faults.{Rose};
ghost use Rattle.spv_io.specs.Sink.{added, AddsPrefix};

use crate::Failed;

/// Something that is written piece by piece.
pub trait Sink {
    /// The bytes written up to now, if the object tells them. An object that tells them goes on
    /// doing so, and one that does not never will.
    ghost written: { Self → Option (List ℕ) };

    /// How often the outside has failed. The count stays at 18446744073709551615 once it is there.
    ghost faults: { Self → ℕ };

    /// Adds all of the bytes, or only some of the first ones where the outside fails.
    fn write(&mut self, bytes: &[u8]) -> Result<(), Failed>
        ensures all { OnOk result (written self.new ≡ added (written self.old) bytes.now) }
        ensures prefix { OnErr result (AddsPrefix (written self.old) (written self.new) bytes.now) }

        // It fails only where the outside did.
        ensures rose { OnErr result (Rose (faults self.old) (faults self.new)) }
        ensures faults_ok { OnOk result (faults self.new ≡ faults self.old) }
        ensures never_falls { faults self.old ≤ faults self.new };
}
