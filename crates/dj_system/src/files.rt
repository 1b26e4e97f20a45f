//! Files of the system.
ghost use Rattle.std.specs.Prelude.{◌≡◌, ◌≢◌, ◌<◌, ◌≤◌, List, [], ℕ, Option, None, length, take, drop, option_map, IfOk, OnOk, OnErr};
ghost use Rattle.std.specs.Option.{ForSome};
ghost use Rattle.std.specs.Io.{ReadsAtMost};
ghost use Rattle.std.specs.Io.KnownBytes.{ReadConsumes};
ghost use Rattle.dj_io.specs.Count.{Follows, Rises};

use dj_io::{Failed, Files};
use std::fs;
use std::io::{self, ErrorKind, Read};

/// The files of the system, one of them open at a time. A file is read on while the path stays the same, and from
/// its start where another was read in between. What files hold isn't told, so nothing is said of `left`.
#[derive(Drop)]
pub struct SystemFiles<'a, R: fs::Files + AllocGlobal> {
    system: &'a R,
    /// The path that is open, and its file.
    reading: Option<(String, R::File)>,
    faults: u64,
}

impl<'a, R: fs::Files + AllocGlobal> SystemFiles<'a, R> {
    ghost use Rattle.dj_system.specs.Holding.{left_of, read_faults};

    /// No file is open yet, and the count of faults, which all paths share, is 0.
    pub fn new(system: &'a R) -> Self
        ensures count { read_faults result ≡ 0 }
        ensures closed { (path : List ℕ) → left_of R.File.remaining result path ≡ None }
    {
        SystemFiles {
            system,
            reading: None,
            faults: 0,
        }
    }

    // Reads on, where the path is open, and else from its start.
    fn read_open(&mut self, path: &str, into: &mut [u8]) -> io::Result<usize>
        ensures bound { ReadsAtMost result into.new }
        ensures faults { read_faults self.new ≡ read_faults self.old }
        ensures consumed { ReadConsumes (left_of R.File.remaining self.old path.now)
            (left_of R.File.remaining self.new path.now) result into.new }
    {
        let (name, mut file) = match self.reading.take() {
            Some((name, file)) if name.as_str() == path => (name, file),
            _ => (
                String::from_str(self.system.alloc(), path)?,
                fs::open(self.system, path)?,
            ),
        };
        let count = read_again(&mut file, into);
        self.reading = Some((name, file));
        count
    }
}

// Reads once, and again where the read was interrupted.
fn read_again<F: Read>(file: &mut F, into: &mut [u8]) -> io::Result<usize>
    ensures bound { ReadsAtMost result into.new }
    ensures consumed { ReadConsumes (F.remaining file.old) (F.remaining file.new) result into.new }
{
    for _ in 0..u64::MAX {
        match file.read(into) {
            Err(error) if error.kind() == ErrorKind::Interrupted => {}
            answer => return answer,
        }
    }
    Err(io::Error::from(ErrorKind::Interrupted))
}

impl<R: fs::Files + AllocGlobal> Files for SystemFiles<'_, R> {
    ghost use Rattle.dj_system.specs.Holding.{left_of, read_faults};

    ghost left = { λ _ _. None };

    ghost faults = { λ s _. s.faults };

    /// Reads on where the path is open, and else from its start: what its file has left loses the bytes that are moved,
    /// and after `Failed` it is as before.
    fn read(&mut self, path: &str, into: &mut [u8]) -> Result<usize, Failed>
        ensures count { IfOk result (λ n. n ≤ length into.old) }
        ensures consumed { ReadConsumes (left_of R.File.remaining self.old path.now)
            (left_of R.File.remaining self.new path.now) result into.new }
        ensures no_fault { OnOk result (read_faults self.new ≡ read_faults self.old) }
        ensures failed { OnErr result (Rises (read_faults self.old) (read_faults self.new)) }
        ensures counts { Follows (read_faults self.old) (read_faults self.new) }
    {
        match self.read_open(path, into) {
            Ok(count) => Ok(count),
            Err(_) => {
                self.faults = self.faults.saturating_add(1);
                Err(Failed)
            }
        }
    }
}
