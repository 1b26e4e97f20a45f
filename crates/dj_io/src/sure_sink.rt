// A sink in memory that never fails.
ghost use Rattle.std.specs.Prelude.{◌≡◌, ◌≤◌, ◌+◌, ◌-◌, ◌++◌, List, [], ℕ, length, take, min, vec_len, IsOk, IfOk, IfSome, OnOk};
ghost use Rattle.dj_io.specs.Count.{greatest_count};
ghost use Rattle.std.specs.Io.KnownBytes.{Keeps, append_known};
ghost use Rattle.dj_io.specs.BoundedOutput.{fitting, told};

use crate::{Failed, Sink};
use std::alloc::{AllocError as NoMemory, Global};
use std::marker::Model;

/// A sink that keeps in memory as many bytes as it has room for. It never fails: it counts the bytes that find no
/// room, and tells what was written while there are none.
#[derive(Drop)]
pub struct SureSink {
    bytes: Vec<u8>,
    room: usize,
    past: u64,
}

impl Model for SureSink {
    ghost use Rattle.std.specs.Prelude.{◌≤◌, vec_len, vec_capacity};
    ghost use Rattle.dj_io.specs.BoundedOutput.{BoundedOutput};

    ghost Value = { BoundedOutput };

    ghost view = { λ s. record { bytes = s.bytes.items; room = s.room; past = s.past } };

    ghost invariant = { λ s. (vec_len s.bytes ≤ s.room) × (s.room ≤ vec_capacity s.bytes) };
}

impl SureSink {
    /// An empty sink with memory for `room` bytes.
    pub fn with_room(alloc: Global, room: usize) -> Result<SureSink, NoMemory>
        ensures { IfOk result (λ made. made ≡ record { bytes = []; room = room; past = 0 }) }
    {
        Ok(SureSink {
            bytes: Vec::with_capacity(alloc, room)?,
            room,
            past: 0,
        })
    }

    /// The bytes that were kept, which are all that was written where that is told.
    pub fn bytes(&self) -> &[u8]
        ensures kept { result.now ≡ self.now.bytes }
        ensures all { IfSome (told self.now) (λ written. result.now ≡ written) }
        ensures within { length result.now ≤ self.now.room }
    {
        &self.bytes
    }
}

impl Sink for SureSink {
    ghost written = { told };

    ghost faults = { λ _. 0 };

    fn put(&mut self, piece: &[u8]) -> Result<(), Failed>
        ensures sure { IsOk result }
        ensures kept { self.new.bytes ≡ self.old.bytes ++ take (fitting self.old.bytes self.old.room (length piece.now)) piece.now }
        ensures past { self.new.past ≡ min (self.old.past + (length piece.now - fitting self.old.bytes self.old.room (length piece.now))) greatest_count }
        ensures room { self.new.room ≡ self.old.room }
        ensures whole { OnOk result (Keeps (told self.new) (append_known (told self.old) piece.now)) }
    {
        let kept = piece.len().min(self.room - self.bytes.len());
        self.bytes.extend_from_slice(&piece[..kept]).unwrap();
        self.past = self.past.saturating_add((piece.len() - kept) as u64);
        Ok(())
    }
}
