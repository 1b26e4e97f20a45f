//! What is in force for each class of a table.
ghost use Rattle.std.specs.Prelude.{◌≡◌};

use crate::chains::go_up;
use crate::clashes::{put_names, turning_names};
use crate::members::{put_fields, put_methods};
use dj_names::{Name, names_are_distinct};
use ifj_table::{ClassEntry, Found, Table};
use persistent_trie::{Root, Trie};
use std::alloc::{AllocError as NoMemory, Global};

/// The versions that tell of one class: of its fields, of its methods, of the classes above it, and of
/// the names whose methods have more than one signature.
#[derive(Clone, Copy)]
pub(crate) struct Lineage {
    pub(crate) fields: Root,
    pub(crate) methods: Root,
    pub(crate) above: Root,
    pub(crate) clashes: Root,
}

/// What is in force for each class of a table, by the numbers of names: the fields and the methods that it has or
/// inherits, and which classes are above it. A class whose chain of superclasses never ends has no lineage; the table
/// itself answers for it.
#[derive(Drop)]
pub struct Lineages {
    pub(crate) fields: Trie<Found>,
    pub(crate) methods: Trie<Found>,
    pub(crate) above: Trie<()>,
    pub(crate) clashes: Trie<()>,
    // By the numbers of the classes.
    pub(crate) lineages: Vec<Option<Lineage>>,
}

impl Lineages {
    ghost use Rattle.std.specs.Prelude.{◌≡◌, ◌<◌, All, length, IfOk, OnOk, IfSome, MatchOption, Decides};
    ghost use Rattle.dj_calculus.specs.Subclasses.{class_kind, Below};
    ghost use Rattle.ifj_table.specs.Entries.{text_at};
    ghost use Rattle.ifj_table.specs.Held.{IsClassEntry};
    ghost use Rattle.ifj_table.specs.Tables.{plain_table, table_names, table_nodes, table_classes, name_text};
    ghost use Rattle.ifj_table.specs.Lookups.{IsFoundField, IsFoundMethod, HasNoField, HasNoMethod, IsClassNamed};
    ghost use Rattle.ifj_lineages.specs.Lineages.{Tells, AreLineages};
    ghost use Rattle.ifj_lineages.specs.Overrides.{Clashes};

    /// The lineages of the classes of a table, each put on that of its superclass. It takes as many steps as there are
    /// classes and members, each as many as a number has bits. The one error is want of memory.
    pub fn new(alloc: Global, table: &Table) -> Result<Lineages, NoMemory>
        ensures { IfOk result (AreLineages table.now) }
    {
        let count = table.classes().len();
        let mut seen = vec![in alloc; false; count]?;
        let mut all = Lineages::unknown(alloc, table)?;
        'starts: for start in 0..count {
            let path = go_up(alloc, table, &mut seen, start)?;
            all.go_down(table, path)?;
        }
        Ok(all)
    }

    // Lineages of which none is known yet.
    fn unknown(alloc: Global, table: &Table) -> Result<Lineages, NoMemory>
        ensures { IfOk result (AreLineages table.now) }
    {
        let lineages = vec![in alloc; None; table.classes().len()]?;
        Ok(Lineages {
            fields: Trie::new(alloc)?,
            methods: Trie::new(alloc)?,
            above: Trie::new(alloc)?,
            clashes: Trie::new(alloc)?,
            lineages,
        })
    }

    // Finds the lineages of classes, the last one first.
    fn go_down(&mut self, table: &Table, mut path: Vec<usize>) -> Result<(), NoMemory>
        requires lineages { AreLineages table.now self.old }
        requires within { All (λ number. number < length (table_classes table.now)) path.items }
        ensures { OnOk result (AreLineages table.now self.new) }
    {
        'down: while let Some(number) = path.pop() {
            self.add(table, number)?;
        }
        Ok(())
    }

    // Finds the lineage of a class, if that of its superclass is known.
    fn add(&mut self, table: &Table, number: usize) -> Result<(), NoMemory>
        requires lineages { AreLineages table.now self.old }
        requires number { number < length (table_classes table.now) }
        ensures { OnOk result (AreLineages table.now self.new) }
    {
        let class = &table.classes()[number];
        match self.lineage(table, class.parent.name) {
            Some(parent) => {
                let lineage = self.below(table, class, parent)?;
                self.lineages[number] = Some(lineage);
                Ok(())
            }
            None => Ok(()),
        }
    }

    // The lineage of a class on that of its superclass.
    fn below(
        &mut self,
        table: &Table,
        class: &ClassEntry,
        parent: Lineage,
    ) -> Result<Lineage, NoMemory>
        requires lineages { AreLineages table.now self.old }
        requires class { IsClassNamed table.now (text_at (table_names table.now) class.now.spot) class.now }
        requires parent { Tells table.now self.old (text_at (table_names table.now) class.now.parent) parent }
        ensures lineages { OnOk result (AreLineages table.now self.new) }
        ensures lineage { IfOk result (Tells table.now self.new (text_at (table_names table.now) class.now.spot)) }
    {
        names_are_distinct(table.names());
        let turning = turning_names(*self.lineages.allocator(), table, self, class)?;
        let fields = put_fields(&mut self.fields, parent.fields, class)?;
        let methods = put_methods(&mut self.methods, parent.methods, class)?;
        let above = self.above.insert(parent.above, class.parent.name.0, ())?;
        let clashes = put_names(&mut self.clashes, parent.clashes, turning.as_slice())?;
        Ok(Lineage {
            fields,
            methods,
            above,
            clashes,
        })
    }

    // The lineage of a class, if it is known. A name of no class has nothing above it.
    fn lineage(&self, table: &Table, class: Name) -> Option<Lineage>
        requires lineages { AreLineages table.now self.now }
        requires class { class.0 < length (table_names table.now) }
        ensures { IfSome result (Tells table.now self.now (name_text table.now class.0)) }
    {
        match table.class_number(class) {
            Some(number) => self.lineages[number],
            None => Some(Lineage {
                fields: self.fields.empty(),
                methods: self.methods.empty(),
                above: self.above.empty(),
                clashes: self.clashes.empty(),
            }),
        }
    }

    /// The field of this name that a class has or inherits, as `Table::find_field` gives it. It takes no memory.
    pub fn find_field(&self, table: &Table, class: Name, field: Name) -> Option<Found>
        requires lineages { AreLineages table.now self.now }
        requires class { class.0 < length (table_names table.now) }
        requires field { field.0 < length (table_names table.now) }
        ensures { MatchOption result (HasNoField table.now (name_text table.now class.0) (name_text table.now field.0))
            (IsFoundField table.now (name_text table.now class.0) (name_text table.now field.0)) }
    {
        match self.lineage(table, class) {
            Some(lineage) => self.fields.get(lineage.fields, field.0),
            None => table.find_field(class, field),
        }
    }

    /// The method of this name that a class has or inherits, likewise.
    pub fn find_method(&self, table: &Table, class: Name, method: Name) -> Option<Found>
        requires lineages { AreLineages table.now self.now }
        requires class { class.0 < length (table_names table.now) }
        requires method { method.0 < length (table_names table.now) }
        ensures { MatchOption result (HasNoMethod table.now (name_text table.now class.0) (name_text table.now method.0))
            (IsFoundMethod table.now (name_text table.now class.0) (name_text table.now method.0)) }
    {
        match self.lineage(table, class) {
            Some(lineage) => self.methods.get(lineage.methods, method.0),
            None => table.find_method(class, method),
        }
    }

    /// Whether the class `lower` is below the class `upper`, as `Table::is_subclass` tells it. It takes no memory.
    pub fn is_subclass(&self, table: &Table, lower: Name, upper: Name) -> bool
        requires lineages { AreLineages table.now self.now }
        requires lower { lower.0 < length (table_names table.now) }
        requires upper { upper.0 < length (table_names table.now) }
        ensures { Decides result (Below (plain_table table.now) (class_kind (name_text table.now lower.0)) (class_kind (name_text table.now upper.0))) }
    {
        let text = table.names().text(upper);
        if table.names().text(lower) == text {
            return true;
        }
        if text == "Object" {
            return true;
        }
        match self.lineage(table, lower) {
            Some(lineage) => self.above.get(lineage.above, upper.0).is_some(),
            None => table.is_subclass(lower, upper),
        }
    }

    /// Whether the method of this name that a class has or inherits has another signature than one above it. None where the
    /// class has no lineage. It takes no memory.
    pub fn clashes(&self, table: &Table, class: Name, method: Name) -> Option<bool>
        requires lineages { AreLineages table.now self.now }
        requires class { class.0 < length (table_names table.now) }
        requires method { method.0 < length (table_names table.now) }
        ensures { IfSome result (λ clashes. Decides clashes (Clashes (plain_table table.now) (name_text table.now class.0) (name_text table.now method.0))) }
    {
        match self.lineage(table, class) {
            Some(lineage) => Some(self.clashes.get(lineage.clashes, method.0).is_some()),
            None => None,
        }
    }
}
