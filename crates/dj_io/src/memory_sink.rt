// A sink in memory that fails at chosen calls.
ghost use Rattle.std.specs.Prelude.{◌≡◌, ◌≤◌, ◌+◌, ◌==◌, ◌++◌, List, [], ℕ, Some, length, take, find, option_map, is_err, IfOk, OnOk, OnErr};
ghost use Rattle.dj_io.specs.Count.{Follows, Rises, one_more};
ghost use Rattle.std.specs.Io.KnownBytes.{Keeps, append_known};

use crate::calls::is_next;
use crate::{Failed, Sink};
use std::alloc::{AllocError as NoMemory, Global};
use std::marker::Model;

/// A put call that fails: its number, from 1, and how many bytes of its piece are kept, as far as the piece goes
/// and there is room.
#[derive(Clone, Copy, Debug, PartialEq, Eq)]
pub struct Fail {
    pub call: u64,
    pub kept: usize,
}

/// A sink that keeps what is written in memory. It fails at chosen calls, and at each piece that finds too little
/// room, of which it keeps what fits.
#[derive(Drop)]
pub struct MemorySink {
    bytes: Vec<u8>,
    room: usize,
    failing: Vec<Fail>,
    calls: u64,
    faults: u64,
}

impl Model for MemorySink {
    ghost use Rattle.std.specs.Prelude.{◌≤◌, vec_len, vec_capacity};
    ghost use Rattle.dj_io.specs.FailingOutput.{FailingOutput};

    ghost Value = { FailingOutput };

    ghost view = { λ s. record { bytes = s.bytes.items; room = s.room; failing = s.failing.items; calls = s.calls; faults = s.faults } };

    ghost invariant = { λ s. (vec_len s.bytes ≤ s.room) × (s.room ≤ vec_capacity s.bytes) };
}

impl MemorySink {
    /// An empty sink with memory for `room` bytes. The put calls that are listed in `failing` will fail; where a
    /// call is listed twice, the first entry counts.
    pub fn with_room(alloc: Global, room: usize, failing: Vec<Fail>) -> Result<MemorySink, NoMemory>
        ensures { IfOk result (λ made. made
            ≡ record { bytes = []; room = room; failing = failing.items; calls = 0; faults = 0 }) }
    {
        Ok(MemorySink {
            bytes: Vec::with_capacity(alloc, room)?,
            room,
            failing,
            calls: 0,
            faults: 0,
        })
    }

    /// The bytes that were written.
    pub fn bytes(&self) -> &[u8]
        ensures written { result.now ≡ self.now.bytes }
        ensures within { length result.now ≤ self.now.room }
    {
        &self.bytes
    }
}

fn listed_kept(failing: &[Fail], calls: u64) -> Option<usize>
    ensures { result ≡ option_map (λ fail. fail.kept) (find (λ fail. fail.call == calls + 1) failing.now) }
{
    failing
        .iter()
        .find(|fail| is_next(fail.call, calls))
        .map(|fail| fail.kept)
}

impl Sink for MemorySink {
    ghost use Rattle.dj_io.specs.FailingOutput.{put_fails, kept_of};

    ghost written = { λ s. Some s.bytes };

    ghost faults = { λ s. s.faults };

    fn put(&mut self, piece: &[u8]) -> Result<(), Failed>
        ensures fails { is_err result ≡ put_fails self.old piece.now }
        ensures kept { self.new.bytes ≡ self.old.bytes ++ take (kept_of self.old piece.now) piece.now }
        ensures room { self.new.room ≡ self.old.room }
        ensures failing { self.new.failing ≡ self.old.failing }
        ensures calls { self.new.calls ≡ one_more self.old.calls }
        ensures raised { OnErr result (self.new.faults ≡ one_more self.old.faults) }

        ensures whole { OnOk result (Keeps (Some self.new.bytes) (append_known (Some self.old.bytes) piece.now)) }
        ensures part { OnErr result ((kept : ℕ) × (kept ≤ length piece.now)
            × Keeps (Some self.new.bytes) (append_known (Some self.old.bytes) (take kept piece.now))) }
        ensures no_fault { OnOk result (self.new.faults ≡ self.old.faults) }
        ensures failed { OnErr result (Rises self.old.faults self.new.faults) }
        ensures counts { Follows self.old.faults self.new.faults }
    {
        let listed = listed_kept(&self.failing, self.calls);
        let wanted = listed.unwrap_or(piece.len());
        let kept = wanted.min(piece.len()).min(self.room - self.bytes.len());
        self.bytes.extend_from_slice(&piece[..kept]).unwrap();
        self.calls = self.calls.saturating_add(1);
        if listed.is_some() || kept < piece.len() {
            self.faults = self.faults.saturating_add(1);
            return Err(Failed);
        }
        Ok(())
    }
}
