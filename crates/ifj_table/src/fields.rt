//! Fields that are added to a class of a table and taken out of it.
use crate::entry::FieldEntry;
use crate::keyed::{insert_entry, remove_entry};
use crate::table::Table;
use std::alloc::AllocError as NoMemory;

impl Table {
    ghost use Rattle.std.specs.Prelude.{◌≡◌, ◌+◌, ◌^◌, ◌<◌, ◌≤◌, None, length, IsSome, OnOk, OnErr};
    ghost use Rattle.std.specs.FinMap as map;
    ghost use Rattle.dj_names.specs.Texts.{Extends};
    ghost use Rattle.ifj_table.specs.Tables.{plain_table, table_names, table_nodes};
    ghost use Rattle.ifj_table.specs.Lookups.{own_field};
    ghost use Rattle.ifj_table.specs.Changes.{changed_at, with_field, without_field};

    /// Adds a field of the type `kind` to a class that is there and has no field of this name. `at` and `kind_at` are
    /// the byte offsets of the names of the field and of its type. Without memory the class table stays as it is, while
    /// the names may have grown.
    pub fn add_field(
        &mut self,
        class: &str,
        field: &str,
        kind: &str,
        at: u32,
        kind_at: u32,
    ) -> Result<(), NoMemory>
        requires there { IsSome (map.get (plain_table self.old) class.now) }
        requires absent { own_field (plain_table self.old) class.now field.now ≡ None }
        requires room { length (table_names self.old) + 2 < 2 ^ 32 }
        ensures added { OnOk result (plain_table self.new ≡ changed_at (plain_table self.old) class.now
            (with_field field.now (record { at = at; kind = record { text = kind.now; at = kind_at } }))) }
        ensures err { OnErr result (plain_table self.new ≡ plain_table self.old) }
        ensures nodes { table_nodes self.new ≡ table_nodes self.old }
        ensures numbers { Extends (table_names self.old) (table_names self.new) }
        ensures few { length (table_names self.new) ≤ length (table_names self.old) + 2 }
    {
        let spot = self.spot(field, at)?;
        let kind = self.spot(kind, kind_at)?;
        let place = self.class_place(class);
        let entry = FieldEntry { spot, kind };
        insert_entry(&self.names, &mut self.classes[place].fields, entry)
    }

    /// Takes a field that is there out of a class. It takes no memory.
    pub fn remove_field(&mut self, class: &str, field: &str)
        requires there { IsSome (map.get (plain_table self.old) class.now) }
        requires field_there { IsSome (own_field (plain_table self.old) class.now field.now) }
        ensures removed { plain_table self.new ≡ changed_at (plain_table self.old) class.now (without_field field.now) }
        ensures nodes { table_nodes self.new ≡ table_nodes self.old }
        ensures names { table_names self.new ≡ table_names self.old }
    {
        let place = self.class_place(class);
        remove_entry(&self.names, &mut self.classes[place].fields, field);
    }
}
