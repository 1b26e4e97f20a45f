//! Members that a class has or inherits, and which class is below which.
use crate::entry::{FieldEntry, MethodEntry};
use crate::keyed::search;
use crate::table::Table;
use dj_names::Name;

/// Where a member was found: the class that has it, and the member's number, from 0, in the list of that class.
#[derive(Clone, Copy, Debug, PartialEq, Eq)]
pub struct Found {
    pub owner: Name,
    pub place: usize,
}

impl Table {
    ghost use Rattle.std.specs.Prelude.{◌≡◌, ◌<◌, None, Some, length, IfSome, MatchOption, Decides};
    ghost use Rattle.dj_calculus.specs.Subclasses.{class_kind, Below, Above};
    ghost use Rattle.ifj_table.specs.Entries.{plain_field, plain_method};
    ghost use Rattle.ifj_table.specs.Held.{IsMethodEntry};
    ghost use Rattle.ifj_table.specs.Tables.{plain_table, table_names, table_nodes, name_text};
    ghost use Rattle.ifj_table.specs.Lookups.{own_field, own_method, IsFoundField, IsFoundMethod, HasNoField, HasNoMethod};

    /// The field of this name that the class of this name has itself. `None` where it has none, and where there is no
    /// such class.
    pub fn own_field(&self, class: &str, field: &str) -> Option<&FieldEntry>
        ensures { MatchOption result (own_field (plain_table self.now) class.now field.now ≡ None)
            (λ entry. own_field (plain_table self.now) class.now field.now ≡ Some (plain_field (table_names self.now) entry.now)) }
    {
        let entry = match self.class_named(class) {
            Some(entry) => entry,
            None => return None,
        };
        match search(&self.names, entry.fields.as_slice(), field) {
            Ok(at) => Some(&entry.fields[at]),
            Err(_) => None,
        }
    }

    /// The method of this name that the class of this name has itself, likewise.
    pub fn own_method(&self, class: &str, method: &str) -> Option<&MethodEntry>
        ensures found { MatchOption result (own_method (plain_table self.now) class.now method.now ≡ None)
            (λ entry. own_method (plain_table self.now) class.now method.now ≡ Some (plain_method (table_names self.now) (table_nodes self.now) entry.now)) }
        ensures held { IfSome result (λ entry. IsMethodEntry (table_names self.now) (table_nodes self.now) entry.now) }
    {
        let entry = match self.class_named(class) {
            Some(entry) => entry,
            None => return None,
        };
        match search(&self.names, entry.methods.as_slice(), method) {
            Ok(at) => Some(&entry.methods[at]),
            Err(_) => None,
        }
    }

    /// The field of this name that a class has or inherits: that of the nearest class, from the class on up. `None`
    /// where no class on the chain has one, however the chain goes on. It takes no memory.
    pub fn find_field(&self, class: Name, field: Name) -> Option<Found>
        requires class { class.0 < length (table_names self.now) }
        requires field { field.0 < length (table_names self.now) }
        ensures { MatchOption result (HasNoField self.now (name_text self.now class.0) (name_text self.now field.0))
            (IsFoundField self.now (name_text self.now class.0) (name_text self.now field.0)) }
    {
        let text = self.names.text(field);
        let mut at = class;
        'up: for _turn in 0..self.classes.len() {
            let entry = match self.class_of(at) {
                Some(entry) => entry,
                None => return None,
            };
            match search(&self.names, entry.fields.as_slice(), text) {
                Ok(place) => return Some(Found { owner: at, place }),
                Err(_) => at = entry.parent.name,
            }
        }
        None
    }

    /// The method of this name that a class has or inherits, likewise.
    pub fn find_method(&self, class: Name, method: Name) -> Option<Found>
        requires class { class.0 < length (table_names self.now) }
        requires method { method.0 < length (table_names self.now) }
        ensures { MatchOption result (HasNoMethod self.now (name_text self.now class.0) (name_text self.now method.0))
            (IsFoundMethod self.now (name_text self.now class.0) (name_text self.now method.0)) }
    {
        let text = self.names.text(method);
        let mut at = class;
        'up: for _turn in 0..self.classes.len() {
            let entry = match self.class_of(at) {
                Some(entry) => entry,
                None => return None,
            };
            match search(&self.names, entry.methods.as_slice(), text) {
                Ok(place) => return Some(Found { owner: at, place }),
                Err(_) => at = entry.parent.name,
            }
        }
        None
    }

    /// Whether the class `lower` is below the class `upper`: they are one class, `upper` is on the chain of superclasses
    /// of `lower`, or it is `Object`. It takes no memory.
    pub fn is_subclass(&self, lower: Name, upper: Name) -> bool
        requires lower { lower.0 < length (table_names self.now) }
        requires upper { upper.0 < length (table_names self.now) }
        ensures { Decides result (Below (plain_table self.now) (class_kind (name_text self.now lower.0)) (class_kind (name_text self.now upper.0))) }
    {
        let text = self.names.text(upper);
        if self.names.text(lower) == text {
            return true;
        }
        if text == "Object" {
            return true;
        }
        self.is_above(text, lower)
    }

    // Whether the class of this name is a superclass of the other, or of one above it.
    fn is_above(&self, upper: &str, lower: Name) -> bool
        requires { lower.0 < length (table_names self.now) }
        ensures { Decides result (Above (plain_table self.now) (name_text self.now lower.0) upper.now) }
    {
        let mut at = lower;
        'up: for _turn in 0..self.classes.len() {
            let parent = match self.super_of(at) {
                Some(parent) => parent,
                None => return false,
            };
            if self.names.text(parent) == upper {
                return true;
            }
            at = parent;
        }
        false
    }
}
