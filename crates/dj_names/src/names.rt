//! A table of names, each with the number of its place.
ghost use Rattle.std.specs.Prelude.{◌≡◌, ◌+◌, ◌-◌, ◌^◌, ◌<◌, ◌≤◌, ◌↔◌, [], length, Contains, IsNone, IfSome, IfOk, OnOk, OnErr, slice_get};
ghost use Rattle.dj_names.specs.Texts.{AreDistinct, with_text, Extends};

use indexmap::IndexSet;
use std::alloc::{AllocError as NoMemory, Global};
use std::marker::Model;

/// A name by its place in a table of names, counted from 0.
#[derive(Clone, Copy, Debug, PartialEq, Eq)]
pub struct Name(pub u32);

/// Distinct texts in the order in which they were first added. A clause sees the list of the texts.
#[derive(Drop)]
pub struct Names {
    texts: IndexSet<String>,
}

impl Model for Names {
    ghost use Rattle.std.specs.Prelude.{ℕ, List, ◌^◌, ◌<◌, length, map};
    ghost use Rattle.std.specs.String.{string_bytes, string_eq};
    ghost use Rattle.indexmap.specs.IndexSet.{IsUnique};

    ghost Value = { List (List ℕ) };

    ghost view = { λ a. map string_bytes a.texts.keys };

    ghost invariant = { λ a. IsUnique string_eq a.texts × (length a.texts.keys < 2 ^ 32) };
}

impl Names {
    /// A table without names.
    pub fn new(alloc: Global) -> Names
        ensures { result ≡ [] }
    {
        Names {
            texts: IndexSet::new(alloc),
        }
    }

    /// The name of a text, which goes last in the table where it is new. Without memory the table stays as it is.
    pub fn add(&mut self, text: &str) -> Result<Name, NoMemory>
        requires { length self.old < 2 ^ 32 - 1 }
        ensures ok { OnOk result (self.new ≡ with_text self.old text.now) }
        ensures name { IfOk result (λ name. slice_get self.new name.0 ≡ Some text.now) }
        ensures err { OnErr result (self.new ≡ self.old) }
        ensures numbers { Extends self.old self.new }
        ensures few { length self.new ≤ length self.old + 1 }
        ensures distinct { AreDistinct self.new }
    {
        if let Some(index) = self.texts.get_index_of(text) {
            return Ok(Name(index as u32));
        }
        let text = String::from_str(*self.texts.allocator(), text)?;
        let (index, _) = self.texts.insert_full(text)?;
        Ok(Name(index as u32))
    }

    /// The text of a name of this table.
    pub fn text(&self, name: Name) -> &str
        requires { name.0 < length self.now }
        ensures { slice_get self.now name.0 ≡ Some result.now }
    {
        self.texts.as_slice()[name.0 as usize].as_str()
    }

    /// The name of a text that is in the table, and else `None`.
    pub fn find(&self, text: &str) -> Option<Name>
        ensures absent { IsNone result ↔ ¬ Contains self.now text.now }
        ensures found { IfSome result (λ name. slice_get self.now name.0 ≡ Some text.now) }
        ensures distinct { AreDistinct self.now }
    {
        let index = self.texts.get_index_of(text)?;
        Some(Name(index as u32))
    }
}

/// The names of a table are distinct.
pub fn names_are_distinct(names: &Names)
    ensures { AreDistinct names.now }
{
    let _ = names.find("");
}
