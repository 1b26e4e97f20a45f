//! An output of the system.
ghost use Rattle.std.specs.Prelude.{◌≡◌, ◌≤◌, ℕ, None, length, take, OnOk, OnErr};
ghost use Rattle.std.specs.Io.KnownBytes.{Appends};
ghost use Rattle.dj_io.specs.Count.{Follows, Rises};

use dj_io::{Failed, Sink};
use std::io::{self, ErrorKind, Write};

/// An output of the system. What was written isn't told, so nothing is said of `written`.
#[derive(Drop)]
pub struct Output<W: Write + Drop> {
    writer: W,
    faults: u64,
}

impl<W: Write + Drop> Output<W> {
    ghost use Rattle.dj_system.specs.Holding.{held_by, write_faults};

    /// The output that the writer takes, with a count of faults of 0.
    pub fn new(writer: W) -> Self
        ensures count { write_faults result ≡ 0 }
        ensures writer { held_by W.contents result ≡ W.contents writer }
    {
        Output { writer, faults: 0 }
    }
}

// Writes the whole piece, or a front of it before a failure. A writer that takes nothing of it has failed.
fn write_whole<W: Write>(writer: &mut W, piece: &[u8]) -> io::Result<()>
    ensures whole { OnOk result (Appends (W.contents writer.old) (W.contents writer.new) piece.now) }
    ensures part { OnErr result ((kept : ℕ) × (kept ≤ length piece.now)
        × Appends (W.contents writer.old) (W.contents writer.new) (take kept piece.now)) }
{
    let mut written = 0;
    'pieces: for _ in 0..u64::MAX {
        if written == piece.len() {
            return Ok(());
        }
        match writer.write(&piece[written..]) {
            Ok(0) => return Err(io::Error::from(ErrorKind::WriteZero)),
            Ok(count) => written += count,
            Err(error) if error.kind() == ErrorKind::Interrupted => {}
            Err(error) => return Err(error),
        }
    }
    Err(io::Error::from(ErrorKind::Interrupted))
}

impl<W: Write + Drop> Sink for Output<W> {
    ghost use Rattle.dj_system.specs.Holding.{held_by, write_faults};

    ghost written = { λ _. None };

    ghost faults = { λ s. s.faults };

    /// What the writer holds grows by the piece, and after `Failed` by a front of it.
    fn put(&mut self, piece: &[u8]) -> Result<(), Failed>
        ensures appended { OnOk result (Appends (held_by W.contents self.old) (held_by W.contents self.new) piece.now) }
        ensures front { OnErr result ((kept : ℕ) × (kept ≤ length piece.now)
            × Appends (held_by W.contents self.old) (held_by W.contents self.new) (take kept piece.now)) }
        ensures no_fault { OnOk result (write_faults self.new ≡ write_faults self.old) }
        ensures failed { OnErr result (Rises (write_faults self.old) (write_faults self.new)) }
        ensures counts { Follows (write_faults self.old) (write_faults self.new) }
    {
        if write_whole(&mut self.writer, piece).is_err() {
            self.faults = self.faults.saturating_add(1);
            return Err(Failed);
        }
        Ok(())
    }
}
