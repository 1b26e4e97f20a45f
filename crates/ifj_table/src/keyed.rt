//! Entries in the order of the texts of their names, and how one is found.
ghost use Rattle.std.specs.Prelude.{◌≡◌, ℕ, map, slice_get, slice_set, Some, All, MatchResult, OnOk, OnErr};
ghost use Rattle.std.specs.List.{insert, remove};
ghost use Rattle.dj_tree.specs.WellFormed.{IsKnown};
ghost use Rattle.ifj_table.specs.Sorted.{AreRising, IsGap};
ghost use Rattle.ifj_table.specs.Entries.{text_at};

use dj_names::Names;
use dj_tree::Spot;
use std::alloc::AllocError as NoMemory;
use std::cmp::Ordering;

/// What stands by its name.
pub trait Keyed {
    ghost use Rattle.dj_tree.specs.declared.declarations.Spot.{Spot};

    ghost key_of: { Self → Spot };

    /// The name, with its place.
    fn key(&self) -> Spot
        ensures { result ≡ key_of self.now };
}

/// The number of the entry of this name, and else the number at which it would stand.
pub fn search<E: Keyed>(names: &Names, entries: &[E], text: &str) -> Result<usize, usize>
    requires known { All (λ e. IsKnown names.now (E.key_of e)) entries.now }
    requires rising { AreRising (map (λ e. text_at names.now (E.key_of e)) entries.now) }
    ensures { MatchResult result
        (λ at. slice_get (map (λ e. text_at names.now (E.key_of e)) entries.now) at ≡ Some text.now)
        (IsGap (map (λ e. text_at names.now (E.key_of e)) entries.now) text.now) }
{
    let mut low = 0;
    let mut high = entries.len();
    'halves: while low < high {
        let middle = low + (high - low) / 2;
        match names.text(entries[middle].key().name).cmp(text) {
            Ordering::Less => low = middle + 1,
            Ordering::Equal => return Ok(middle),
            Ordering::Greater => high = middle,
        }
    }
    Err(low)
}

/// The number of the entry of a name that has one.
pub fn place<E: Keyed>(names: &Names, entries: &[E], text: &str) -> usize
    requires known { All (λ e. IsKnown names.now (E.key_of e)) entries.now }
    requires rising { AreRising (map (λ e. text_at names.now (E.key_of e)) entries.now) }
    requires there { (at : ℕ) × (slice_get (map (λ e. text_at names.now (E.key_of e)) entries.now) at ≡ Some text.now) }
    ensures { slice_get (map (λ e. text_at names.now (E.key_of e)) entries.now) result ≡ Some text.now }
{
    match search(names, entries, text) {
        Ok(at) => at,
        Err(at) => at,
    }
}

/// The number at which an entry of a name that has none would stand.
pub fn gap<E: Keyed>(names: &Names, entries: &[E], text: &str) -> usize
    requires known { All (λ e. IsKnown names.now (E.key_of e)) entries.now }
    requires rising { AreRising (map (λ e. text_at names.now (E.key_of e)) entries.now) }
    requires absent { (at : ℕ) → ¬ (slice_get (map (λ e. text_at names.now (E.key_of e)) entries.now) at ≡ Some text.now) }
    ensures { IsGap (map (λ e. text_at names.now (E.key_of e)) entries.now) text.now result }
{
    match search(names, entries, text) {
        Ok(at) => at,
        Err(at) => at,
    }
}

/// Puts an entry whose name has none yet in its order. Without memory the entries stay.
pub fn insert_entry<E: Keyed + Drop>(
    names: &Names,
    entries: &mut Vec<E>,
    entry: E,
) -> Result<(), NoMemory>
    requires known { All (λ e. IsKnown names.now (E.key_of e)) entries.old.items }
    requires rising { AreRising (map (λ e. text_at names.now (E.key_of e)) entries.old.items) }
    requires own { IsKnown names.now (E.key_of entry) }
    requires absent { (at : ℕ) → ¬ (slice_get (map (λ e. text_at names.now (E.key_of e)) entries.old.items) at ≡ Some (text_at names.now (E.key_of entry))) }
    ensures ok { OnOk result ((at : ℕ)
        × IsGap (map (λ e. text_at names.now (E.key_of e)) entries.old.items) (text_at names.now (E.key_of entry)) at
        × (entries.new.items ≡ insert entries.old.items at entry)) }
    ensures err { OnErr result (entries.new.items ≡ entries.old.items) }
{
    let at = gap(names, entries.as_slice(), names.text(entry.key().name));
    entries.insert(at, entry)?;
    Ok(())
}

/// Takes out the entry of a name that has one.
pub fn remove_entry<E: Keyed + Drop>(names: &Names, entries: &mut Vec<E>, text: &str)
    requires known { All (λ e. IsKnown names.now (E.key_of e)) entries.old.items }
    requires rising { AreRising (map (λ e. text_at names.now (E.key_of e)) entries.old.items) }
    requires there { (at : ℕ) × (slice_get (map (λ e. text_at names.now (E.key_of e)) entries.old.items) at ≡ Some text.now) }
    ensures { (at : ℕ)
        × (slice_get (map (λ e. text_at names.now (E.key_of e)) entries.old.items) at ≡ Some text.now)
        × (entries.new.items ≡ remove entries.old.items at) }
{
    let at = place(names, entries.as_slice(), text);
    entries.remove(at);
}

/// Puts an entry in the place of the one of its name.
pub fn replace_entry<E: Keyed + Drop>(names: &Names, entries: &mut Vec<E>, entry: E)
    requires known { All (λ e. IsKnown names.now (E.key_of e)) entries.old.items }
    requires rising { AreRising (map (λ e. text_at names.now (E.key_of e)) entries.old.items) }
    requires own { IsKnown names.now (E.key_of entry) }
    requires there { (at : ℕ) × (slice_get (map (λ e. text_at names.now (E.key_of e)) entries.old.items) at ≡ Some (text_at names.now (E.key_of entry))) }
    ensures { (at : ℕ)
        × (slice_get (map (λ e. text_at names.now (E.key_of e)) entries.old.items) at ≡ Some (text_at names.now (E.key_of entry)))
        × (entries.new.items ≡ slice_set entries.old.items at entry) }
{
    let at = place(names, entries.as_slice(), names.text(entry.key().name));
    entries[at] = entry;
}
