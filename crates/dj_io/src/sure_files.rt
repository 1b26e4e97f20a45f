// Files in memory that never fail.
ghost use Rattle.std.specs.Prelude.{◌≡◌, ◌≢◌, ◌<◌, ◌≤◌, List, [], ℕ, Some, length, take, drop, min, map, string_bytes, option_map, IsOk, IfOk, OnOk, OnErr};
ghost use Rattle.std.specs.Option.{ForSome};
ghost use Rattle.dj_io.specs.Count.{Follows, Rises};
ghost use Rattle.dj_io.specs.Contents.{left_of};

use crate::source::{self, Source};
use crate::{Failed, Files};
use std::alloc::{AllocError as NoMemory, Global};
use std::marker::Model;

/// Files in memory whose reading never fails. A path that isn't among them is an empty file. Where a path is given
/// twice, the first entry counts.
#[derive(Drop)]
pub struct SureFiles {
    files: Vec<Source>,
}

impl Model for SureFiles {
    ghost use Rattle.std.specs.Prelude.{List, ℕ};

    // Each path with the bytes that are left of it.
    ghost Value = { List (List ℕ × List ℕ) };

    ghost view = { λ s. s.files.items };
}

impl SureFiles {
    /// Files of these paths and contents, none of them read yet.
    pub fn new(alloc: Global, files: Vec<(String, Vec<u8>)>) -> Result<SureFiles, NoMemory>
        ensures { IfOk result (λ made. made
            ≡ map (λ file. (string_bytes file.0, file.1.items)) files.items) }
    {
        Ok(SureFiles {
            files: source::sources(alloc, files)?,
        })
    }
}

impl Files for SureFiles {
    ghost left = { λ s path. Some (left_of s path) };

    ghost faults = { λ _ _. 0 };

    fn read(&mut self, path: &str, into: &mut [u8]) -> Result<usize, Failed>
        ensures sure { IsOk result }
        ensures amount { IfOk result (λ n. n ≡ min (length into.old) (length (left_of self.old path.now))) }

        ensures count { IfOk result (λ n. n ≤ length into.old) }
        ensures enough { IfOk result (λ n.
            ForSome (Some (left_of self.old path.now)) (λ bytes. n ≤ length bytes)) }
        ensures moved { IfOk result (λ n.
            ForSome (Some (left_of self.old path.now)) (λ bytes. take n into.new ≡ take n bytes)) }
        ensures rest { IfOk result (λ n. Some (left_of self.new path.now)
            ≡ Some (drop n (left_of self.old path.now))) }
        ensures ended { IfOk result (λ n. n ≡ 0 → 0 < length into.old →
            ForSome (Some (left_of self.old path.now)) (λ bytes. bytes ≡ [])) }
        ensures others { (other : List ℕ) → other ≢ path.now → Some (left_of self.new other)
            ≡ Some (left_of self.old other) }
    {
        Ok(source::take_of(&mut self.files, path, into).unwrap_or(0))
    }
}
