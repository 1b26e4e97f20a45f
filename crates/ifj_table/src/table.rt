//! A table of classes.
ghost use Rattle.std.specs.Prelude.{◌≡◌};
ghost use Rattle.ifj_table.specs.Held.{AreClasses, AreClasses-prop};

use crate::entry::ClassEntry;
use crate::keyed::{gap, place, search};
use arena_walk::Arena;
use dj_names::{Name, Names};
use dj_tree::{ExprNode, Spot};
use std::alloc::{AllocError as NoMemory, Global};

/// Classes with their fields, their methods and the bodies of these. A table owns the names and the nodes that it
/// speaks of by number. `plain_table` gives the class table that it stands for.
#[derive(Drop)]
pub struct Table {
    pub(crate) names: Names,
    pub(crate) exprs: Arena<ExprNode>,
    pub(crate) classes: Vec<ClassEntry>,
    ghost held: { AreClasses names exprs classes.items } by { AreClasses-prop names exprs classes.items },
}

impl Table {
    ghost use Rattle.std.specs.Prelude.{◌≡◌, ◌≢◌, ◌+◌, ◌^◌, ◌<◌, ◌≤◌, ℕ, None, Some, [], length, slice_get, IsSome, IfSome, IfOk, OnOk, OnErr, MatchOption, MatchResult};
    ghost use Rattle.std.specs.FinMap as map;
    ghost use Rattle.dj_names.specs.Texts.{Extends};
    ghost use Rattle.dj_tree.specs.Plain.{plain_spot};
    ghost use Rattle.dj_tree.specs.WellFormed.{IsKnown};
    ghost use Rattle.dj_calculus.specs.Tables.{empty_table};
    ghost use Rattle.dj_calculus.specs.TableForms.{IsTable};
    ghost use Rattle.dj_calculus.specs.Subclasses.{object, HasSuperclass};
    ghost use Rattle.ifj_table.specs.Entries.{plain_class};
    ghost use Rattle.ifj_table.specs.Held.{AreClasses};
    ghost use Rattle.ifj_table.specs.Tables.{plain_table, table_names, table_nodes, table_classes, name_text, class_keys};
    ghost use Rattle.ifj_table.specs.Sorted.{IsGap};
    ghost use Rattle.ifj_table.specs.Lookups.{IsClassNamed};
    ghost use Rattle.ifj_table.specs.Changes.{changed_at, bare_class, with_parent};

    /// A table without classes.
    pub fn new(alloc: Global) -> Table
        ensures classes { plain_table result ≡ empty_table }
        ensures names { table_names result ≡ [] }
        ensures nodes { table_nodes result ≡ [] }
    {
        Table {
            names: Names::new(alloc),
            exprs: Arena::new(alloc),
            classes: Vec::new(alloc),
        }
    }

    /// The names that the table speaks of by number.
    pub fn names(&self) -> &Names
        ensures { result.now ≡ table_names self.now }
    {
        &self.names
    }

    /// The nodes of the bodies.
    pub fn exprs(&self) -> &Arena<ExprNode>
        ensures { result.now ≡ table_nodes self.now }
    {
        &self.exprs
    }

    /// The classes by the bytes of their names.
    pub fn classes(&self) -> &[ClassEntry]
        ensures classes { result.now ≡ table_classes self.now }
        ensures held { AreClasses (table_names self.now) (table_nodes self.now) result.now }
    {
        self.classes.as_slice()
    }

    /// The class of this name, and `None` where the table has none.
    pub fn class_named(&self, class: &str) -> Option<&ClassEntry>
        ensures found { MatchOption result (map.get (plain_table self.now) class.now ≡ None)
            (λ entry. map.get (plain_table self.now) class.now ≡ Some (plain_class (table_names self.now) (table_nodes self.now) entry.now)) }
        ensures class { IfSome result (λ entry. IsClassNamed self.now class.now entry.now) }
    {
        match self.find_class(class) {
            Ok(at) => Some(&self.classes[at]),
            Err(_) => None,
        }
    }

    /// The class of a name of the table, and `None` where it has none.
    pub fn class_of(&self, class: Name) -> Option<&ClassEntry>
        requires { class.0 < length (table_names self.now) }
        ensures found { MatchOption result (map.get (plain_table self.now) (name_text self.now class.0) ≡ None)
            (λ entry. map.get (plain_table self.now) (name_text self.now class.0)
            ≡ Some (plain_class (table_names self.now) (table_nodes self.now) entry.now)) }
        ensures class { IfSome result (λ entry. IsClassNamed self.now (name_text self.now class.0) entry.now) }
    {
        self.class_named(self.names.text(class))
    }

    /// The number of the class of this name, from 0 in the order of `classes`, and `None` where the table has none.
    pub fn class_number(&self, class: Name) -> Option<usize>
        requires { class.0 < length (table_names self.now) }
        ensures { MatchOption result (map.get (plain_table self.now) (name_text self.now class.0) ≡ None)
            (λ at. slice_get (class_keys self.now) at ≡ Some (name_text self.now class.0)) }
    {
        match self.find_class(self.names.text(class)) {
            Ok(at) => Some(at),
            Err(_) => None,
        }
    }

    // The number of the class of this name, and else the number at which it would stand.
    fn find_class(&self, class: &str) -> Result<usize, usize>
        ensures { MatchResult result (λ at. slice_get (class_keys self.now) at ≡ Some class.now) (IsGap (class_keys self.now) class.now) }
    {
        search(&self.names, &self.classes, class)
    }

    // The number of the class of a name that has one.
    pub(crate) fn class_place(&self, class: &str) -> usize
        requires { IsSome (map.get (plain_table self.now) class.now) }
        ensures { slice_get (class_keys self.now) result ≡ Some class.now }
    {
        place(&self.names, &self.classes, class)
    }

    // The number at which the class of a name that has none would stand.
    pub(crate) fn class_gap(&self, class: &str) -> usize
        requires { map.get (plain_table self.now) class.now ≡ None }
        ensures { IsGap (class_keys self.now) class.now result }
    {
        gap(&self.names, &self.classes, class)
    }

    // Puts a name into the table of names.
    pub(crate) fn spot(&mut self, text: &str, at: u32) -> Result<Spot, NoMemory>
        requires room { length (table_names self.old) + 1 < 2 ^ 32 }
        ensures means { IfOk result (λ spot. plain_spot (table_names self.new) spot ≡ record { text = text.now; at = at }) }
        ensures known { IfOk result (IsKnown (table_names self.new)) }
        ensures table { plain_table self.new ≡ plain_table self.old }
        ensures classes { table_classes self.new ≡ table_classes self.old }
        ensures nodes { table_nodes self.new ≡ table_nodes self.old }
        ensures numbers { Extends (table_names self.old) (table_names self.new) }
        ensures few { length (table_names self.new) ≤ length (table_names self.old) + 1 }
    {
        let name = self.names.add(text)?;
        Ok(Spot { name, at })
    }

    /// Adds a class without members. The class isn't there yet and isn't `Object`. `at` and `parent_at` are the byte
    /// offsets of its name and of the name of its superclass. Without memory the class table stays as it is, while the
    /// names may have grown.
    pub fn add_class(
        &mut self,
        class: &str,
        parent: &str,
        at: u32,
        parent_at: u32,
    ) -> Result<(), NoMemory>
        requires absent { map.get (plain_table self.old) class.now ≡ None }
        requires declarable { class.now ≢ object }
        requires room { length (table_names self.old) + 2 < 2 ^ 32 }
        ensures added { OnOk result (plain_table self.new ≡ map.insert (plain_table self.old) class.now (bare_class at (record { text = parent.now; at = parent_at }))) }
        ensures err { OnErr result (plain_table self.new ≡ plain_table self.old) }
        ensures nodes { table_nodes self.new ≡ table_nodes self.old }
        ensures numbers { Extends (table_names self.old) (table_names self.new) }
        ensures few { length (table_names self.new) ≤ length (table_names self.old) + 2 }
    {
        let spot = self.spot(class, at)?;
        let parent = self.spot(parent, parent_at)?;
        let gap = self.class_gap(class);
        let alloc = *self.classes.allocator();
        let entry = ClassEntry {
            spot,
            parent,
            fields: Vec::new(alloc),
            methods: Vec::new(alloc),
        };
        self.classes.insert(gap, entry)?;
        Ok(())
    }

    /// Gives a class that is there another superclass. `parent_at` is the byte offset of its name. Without memory the
    /// class table stays as it is, while the names may have grown.
    pub fn set_parent(&mut self, class: &str, parent: &str, parent_at: u32) -> Result<(), NoMemory>
        requires there { IsSome (map.get (plain_table self.old) class.now) }
        requires room { length (table_names self.old) + 1 < 2 ^ 32 }
        ensures changed { OnOk result (plain_table self.new ≡ changed_at (plain_table self.old) class.now (with_parent (record { text = parent.now; at = parent_at }))) }
        ensures err { OnErr result (plain_table self.new ≡ plain_table self.old) }
        ensures nodes { table_nodes self.new ≡ table_nodes self.old }
        ensures numbers { Extends (table_names self.old) (table_names self.new) }
        ensures few { length (table_names self.new) ≤ length (table_names self.old) + 1 }
    {
        let parent = self.spot(parent, parent_at)?;
        let at = self.class_place(class);
        self.classes[at].parent = parent;
        Ok(())
    }

    /// Takes out a class that is there, with its members. It takes no memory.
    pub fn remove_class(&mut self, class: &str)
        requires { IsSome (map.get (plain_table self.old) class.now) }
        ensures removed { plain_table self.new ≡ map.remove (plain_table self.old) class.now }
        ensures nodes { table_nodes self.new ≡ table_nodes self.old }
        ensures names { table_names self.new ≡ table_names self.old }
    {
        let at = self.class_place(class);
        self.classes.remove(at);
    }

    /// The superclass of a class, and `None` where the table has no class of this name.
    pub fn super_of(&self, class: Name) -> Option<Name>
        requires { class.0 < length (table_names self.now) }
        ensures found { MatchOption result (map.get (plain_table self.now) (name_text self.now class.0) ≡ None)
            (λ parent. HasSuperclass (plain_table self.now) (name_text self.now class.0) (name_text self.now parent.0)) }
        ensures known { IfSome result (λ parent. parent.0 < length (table_names self.now)) }
    {
        let entry = self.class_of(class)?;
        Some(entry.parent.name)
    }
}
