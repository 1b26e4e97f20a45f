// A file in memory, which is read on from where its reading stands.
ghost use Rattle.std.specs.Prelude.{◌≡◌, ◌≢◌, ◌≤◌, List, [], ℕ, length, take, drop, min, map, vec_len, string_bytes, is_some, IfOk, IfSome, IfNone};
ghost use Rattle.std.specs.Str.{bytes_eq};
ghost use Rattle.dj_io.specs.Contents.{place_of, left_of, is_among};

use std::alloc::{AllocError, Global};
use std::marker::Model;

#[derive(Drop)]
pub(crate) struct Source {
    path: String,
    bytes: Vec<u8>,
    // How many of the bytes were read.
    at: usize,
}

impl Model for Source {
    // The path, and the bytes that are left.
    ghost Value = { List ℕ × List ℕ };

    ghost view = { λ s. (string_bytes s.path, drop s.at s.bytes.items) };

    ghost invariant = { λ s. s.at ≤ vec_len s.bytes };
}

impl Source {
    pub(crate) fn has_path(&self, path: &str) -> bool
        ensures { result ≡ bytes_eq self.now.0 path.now }
    {
        self.path.as_str() == path
    }

    pub(crate) fn take(&mut self, into: &mut [u8]) -> usize
        ensures count { result ≡ min (length into.old) (length self.old.1) }
        ensures moved { take result into.new ≡ take result self.old.1 }
        ensures rest { self.new ≡ (self.old.0, drop result self.old.1) }
    {
        let count = into.len().min(self.bytes.len() - self.at);
        let next = self.at + count;
        into[..count].copy_from_slice(&self.bytes[self.at..next]);
        self.at = next;
        count
    }
}

// The files, none of them read yet.
pub(crate) fn sources(
    alloc: Global,
    files: Vec<(String, Vec<u8>)>,
) -> Result<Vec<Source>, AllocError>
    ensures { IfOk result (λ made. made.items
        ≡ map (λ file. (string_bytes file.0, file.1.items)) files.items) }
{
    let mut made = Vec::with_capacity(alloc, files.len())?;
    for (path, bytes) in files {
        made.push(Source { path, bytes, at: 0 })?;
    }
    Ok(made)
}

// Moves bytes that are left of a path into the front of the buffer, and answers how many, or None where no file
// has the path.
pub(crate) fn take_of(files: &mut [Source], path: &str, into: &mut [u8]) -> Option<usize>
    ensures found { is_some result ≡ is_among files.old path.now }
    ensures count { IfSome result (λ n. n ≡ min (length into.old) (length (left_of files.old path.now))) }
    ensures moved { IfSome result (λ n. take n into.new ≡ take n (left_of files.old path.now)) }
    ensures rest { IfSome result (λ n. left_of files.new path.now ≡ drop n (left_of files.old path.now)) }
    ensures unknown { IfNone result ((left_of files.old path.now ≡ []) × (files.new ≡ files.old)) }
    ensures others { (other : List ℕ) → other ≢ path.now → left_of files.new other
        ≡ left_of files.old other }
    ensures paths { map (λ file. file.0) files.new ≡ map (λ file. file.0) files.old }
    ensures places { (each : List ℕ) → place_of files.new each ≡ place_of files.old each }
{
    let place = place(files, path);
    if place == files.len() {
        return None;
    }
    let file = &mut files[place];
    Some(file.take(into))
}

// The place of the first file of a path, or the number of files.
pub(crate) fn place(files: &[Source], path: &str) -> usize
    ensures place { result ≡ place_of files.now path.now }
    ensures within { result ≤ length files.now }
{
    for (i, file) in files.iter().enumerate() {
        if file.has_path(path) {
            return i;
        }
    }
    files.len()
}
