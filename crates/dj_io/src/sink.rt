// Where output goes: pieces that are appended, and a count of faults.
ghost use Rattle.std.specs.Prelude.{◌≡◌, ◌≤◌, List, ℕ, Option, length, take, OnOk, OnErr};
ghost use Rattle.dj_io.specs.Count.{Follows, Rises};
ghost use Rattle.std.specs.Io.KnownBytes.{Keeps, append_known};

use crate::Failed;

/// A place that output is written to, piece behind piece.
pub trait Sink {
    /// What was written so far, where the object tells it.
    ghost written: { Self → Option (List ℕ) };

    /// How often writing has failed: a count that never falls, and stays at its greatest value.
    ghost faults: { Self → ℕ };

    /// Appends the whole piece. `Failed` may leave a prefix of it appended. What the object still tells is what it
    /// told before with this behind it.
    fn put(&mut self, piece: &[u8]) -> Result<(), Failed>
        ensures whole { OnOk result (Keeps (written self.new) (append_known (written self.old) piece.now)) }
        ensures part { OnErr result ((kept : ℕ) × (kept ≤ length piece.now)
            × Keeps (written self.new) (append_known (written self.old) (take kept piece.now))) }

        ensures no_fault { OnOk result (faults self.new ≡ faults self.old) }
        ensures failed { OnErr result (Rises (faults self.old) (faults self.new)) }
        ensures counts { Follows (faults self.old) (faults self.new) };
}
