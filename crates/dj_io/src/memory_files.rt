// Files in memory whose reading fails at chosen calls.
ghost use Rattle.std.specs.Prelude.{◌≡◌, ◌≢◌, ◌+◌, ◌<◌, ◌≤◌, ◌==◌, List, [], ℕ, Some, length, take, drop, min, map, slice_set, string_bytes, is_ok, is_err, if◌then◌else◌, IfOk, OnOk, OnErr};
ghost use Rattle.std.specs.Option.{ForSome};
ghost use Rattle.std.specs.List.{list_any};
ghost use Rattle.dj_io.specs.Count.{Follows, Rises, one_more};
ghost use Rattle.dj_io.specs.Contents.{left_of, place_of};
ghost use Rattle.dj_io.specs.FailingFiles.{faults_of, read_fails};

use crate::calls::is_next;
use crate::source::{self, Source};
use crate::{Failed, Files};
use std::alloc::{AllocError as NoMemory, Global};
use std::marker::Model;

/// Files in memory whose reading fails at chosen calls, and at each call for a path that isn't among them. Where a
/// path is given twice, the first entry counts. There is a count of faults for each file, and one that all other
/// paths share.
#[derive(Drop)]
pub struct MemoryFiles {
    files: Vec<Source>,
    counts: Vec<u64>,
    calls: u64,
    failing: Vec<u64>,
}

impl Model for MemoryFiles {
    ghost use Rattle.std.specs.Prelude.{◌≡◌, ◌+◌, length};
    ghost use Rattle.dj_io.specs.FailingFiles.{FailingFiles};

    ghost Value = { FailingFiles };

    ghost view = { λ s. record { files = s.files.items; counts = s.counts.items; calls = s.calls; failing = s.failing.items } };

    ghost invariant = { λ s. length s.counts.items ≡ length s.files.items + 1 };
}

impl MemoryFiles {
    /// Files of these paths and contents, none of them read yet. The read calls whose numbers are in `failing`,
    /// counted from 1, will fail.
    pub fn new(
        alloc: Global,
        files: Vec<(String, Vec<u8>)>,
        failing: Vec<u64>,
    ) -> Result<MemoryFiles, NoMemory>
        ensures files { IfOk result (λ made. made.files
            ≡ map (λ file. (string_bytes file.0, file.1.items)) files.items) }
        ensures failing { IfOk result (λ made. made.failing ≡ failing.items) }
        ensures calls { IfOk result (λ made. made.calls ≡ 0) }
        ensures no_faults { IfOk result (λ made. (path : List ℕ) → faults_of made path ≡ 0) }
    {
        let files = source::sources(alloc, files)?;
        let counts = vec![in alloc; 0; files.len() + 1]?;
        Ok(MemoryFiles {
            files,
            counts,
            calls: 0,
            failing,
        })
    }
}

fn is_listed(failing: &[u64], calls: u64) -> bool
    ensures { result ≡ list_any (λ call. call == calls + 1) failing.now }
{
    failing.iter().any(|call| is_next(*call, calls))
}

impl Files for MemoryFiles {
    ghost left = { λ s path. Some (left_of s.files path) };

    ghost faults = { faults_of };

    fn read(&mut self, path: &str, into: &mut [u8]) -> Result<usize, Failed>
        ensures fails { is_err result ≡ read_fails self.old path.now }
        ensures amount { IfOk result (λ n. n
            ≡ min (length into.old) (length (left_of self.old.files path.now))) }
        ensures tally { self.new.counts ≡ (if is_ok result then self.old.counts
            else slice_set self.old.counts (place_of self.old.files path.now) (one_more (faults_of self.old path.now))) }
        ensures paths { map (λ file. file.0) self.new.files ≡ map (λ file. file.0) self.old.files }
        ensures calls { self.new.calls ≡ one_more self.old.calls }
        ensures failing { self.new.failing ≡ self.old.failing }

        ensures count { IfOk result (λ n. n ≤ length into.old) }
        ensures enough { IfOk result (λ n.
            ForSome (Some (left_of self.old.files path.now)) (λ bytes. n ≤ length bytes)) }
        ensures moved { IfOk result (λ n.
            ForSome (Some (left_of self.old.files path.now)) (λ bytes. take n into.new ≡ take n bytes)) }
        ensures rest { IfOk result (λ n. Some (left_of self.new.files path.now)
            ≡ Some (drop n (left_of self.old.files path.now))) }
        ensures ended { IfOk result (λ n. n ≡ 0 → 0 < length into.old →
            ForSome (Some (left_of self.old.files path.now)) (λ bytes. bytes ≡ [])) }
        ensures kept { OnErr result (Some (left_of self.new.files path.now)
            ≡ Some (left_of self.old.files path.now)) }
        ensures others { (other : List ℕ) → other ≢ path.now → Some (left_of self.new.files other)
            ≡ Some (left_of self.old.files other) }
        ensures no_fault { OnOk result ((each : List ℕ) → faults_of self.new each
            ≡ faults_of self.old each) }
        ensures failed { OnErr result (Rises (faults_of self.old path.now) (faults_of self.new path.now)) }
        ensures counts { (each : List ℕ) → Follows (faults_of self.old each) (faults_of self.new each) }
    {
        let listed = is_listed(&self.failing, self.calls);
        self.calls = self.calls.saturating_add(1);
        if !listed {
            if let Some(count) = source::take_of(&mut self.files, path, into) {
                return Ok(count);
            }
        }
        let place = source::place(&self.files, path);
        let faults = &mut self.counts[place];
        *faults = faults.saturating_add(1);
        Err(Failed)
    }
}
