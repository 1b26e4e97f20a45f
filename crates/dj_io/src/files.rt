// Files as a reader sees them: bytes that are left of each path, and a count of faults of each.
ghost use Rattle.std.specs.Prelude.{◌≡◌, ◌≢◌, ◌<◌, ◌≤◌, List, [], ℕ, Option, length, take, drop, option_map, IfOk, OnOk, OnErr};
ghost use Rattle.std.specs.Option.{ForSome};
ghost use Rattle.dj_io.specs.Count.{Follows, Rises};

/// A call to the outside that didn't do its work. The object's count of faults rose in that call.
#[derive(Clone, Copy, Debug, PartialEq, Eq)]
pub struct Failed;

/// Files that are read by their paths. Each path is read on from where its reading stands.
pub trait Files {
    /// The bytes that are left of a path, where the object tells them.
    ghost left: { Self → List ℕ → Option (List ℕ) };

    /// How often reading a path has failed: a count that never falls, and stays at its greatest value.
    ghost faults: { Self → List ℕ → ℕ };

    /// Moves bytes that are left of the path into the front of the buffer. `Ok` holds their number, which is 0
    /// for a buffer that isn't empty only where nothing is left. After `Failed` the same bytes are left as before.
    fn read(&mut self, path: &str, into: &mut [u8]) -> Result<usize, Failed>
        ensures count { IfOk result (λ n. n ≤ length into.old) }
        ensures enough { IfOk result (λ n. ForSome (left self.old path.now) (λ bytes. n ≤ length bytes)) }
        ensures moved { IfOk result (λ n.
            ForSome (left self.old path.now) (λ bytes. take n into.new ≡ take n bytes)) }
        ensures rest { IfOk result (λ n. left self.new path.now
            ≡ option_map (drop n) (left self.old path.now)) }
        ensures ended { IfOk result (λ n. n ≡ 0 → 0 < length into.old →
            ForSome (left self.old path.now) (λ bytes. bytes ≡ [])) }
        ensures kept { OnErr result (left self.new path.now ≡ left self.old path.now) }

        // Whatever the answer, what is left of the other paths stays.
        ensures others { (other : List ℕ) → other ≢ path.now → left self.new other ≡ left self.old other }

        ensures no_fault { OnOk result ((each : List ℕ) → faults self.new each ≡ faults self.old each) }
        ensures failed { OnErr result (Rises (faults self.old path.now) (faults self.new path.now)) }
        ensures counts { (each : List ℕ) → Follows (faults self.old each) (faults self.new each) };
}
