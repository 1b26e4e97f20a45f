//! Methods that are added to a class of a table, declared again, and taken out of it.
ghost use Rattle.std.specs.Prelude.{◌≡◌, ℕ, All, map, slice_get, Some, OnOk, OnErr};
ghost use Rattle.dj_tree.specs.WellFormed.{IsKnown};
ghost use Rattle.ifj_table.specs.Sorted.{AreRising};
ghost use Rattle.ifj_table.specs.Entries.{text_at};
ghost use Rattle.ifj_table.specs.Redeclared.{IsRedeclaredAmong, AreSameMethods};

use crate::entry::MethodEntry;
use crate::keyed::{insert_entry, place, remove_entry, replace_entry};
use crate::owned::OwnMethod;
use crate::table::Table;
use arena_walk::Arena;
use dj_names::Names;
use dj_tree::{ExprNode, Method};
use std::alloc::AllocError as NoMemory;

impl Table {
    ghost use Rattle.std.specs.Prelude.{◌≡◌, ◌+◌, ◌-◌, ◌^◌, ◌<◌, ◌≤◌, ◌∷◌, [], None, All, map, length, IsSome, IfSome, IfOk, OnOk, OnErr, IsTrue};
    ghost use Rattle.std.specs.FinMap as finite;
    ghost use Rattle.arena_walk.specs.Tree.{size};
    ghost use Rattle.dj_names.specs.Texts.{Extends};
    ghost use Rattle.dj_tree.specs.Plain.{plain_method};
    ghost use Rattle.dj_tree.specs.PostOrder.{KeepsNodes};
    ghost use Rattle.dj_tree.specs.WellFormed.{IsExprNode, IsMethod};
    ghost use Rattle.dj_calculus.specs.Expressions.{IsExpression};
    ghost use Rattle.dj_calculus.specs.Entries.{signature_of, same_signature, method_entry as plain_entry};
    ghost use Rattle.ifj_table.specs.Entries.{plain_method as plain_kept, text_at};
    ghost use Rattle.ifj_table.specs.Held.{IsMethodEntry};
    ghost use Rattle.ifj_table.specs.Tables.{plain_table, table_names, table_nodes, table_classes};
    ghost use Rattle.ifj_table.specs.Lookups.{own_method};
    ghost use Rattle.ifj_table.specs.Changes.{changed_at, with_method, without_method, with_body, names_said};

    // The entry of a declaration, with its body alone.
    fn method_entry(
        &mut self,
        from: &Names,
        method: &Method,
        exprs: &Arena<ExprNode>,
    ) -> Result<MethodEntry, NoMemory>
        requires known { IsMethod from.now exprs.now method.now }
        requires nodes_known { All (IsExprNode from.now) exprs.now }
        requires expression { IsExpression (plain_method from.now exprs.now method.now).body }
        requires room { length (table_names self.old) + names_said (plain_method from.now exprs.now method.now) < 2 ^ 32 }
        requires space { length (table_nodes self.old) + size (plain_method from.now exprs.now method.now).body < 2 ^ 32 - 1 }
        ensures entry { IfOk result (λ own. plain_kept (table_names self.new) (table_nodes self.new) own ≡ plain_entry (plain_method from.now exprs.now method.now)) }
        ensures name { IfOk result (λ own. text_at (table_names self.new) own.spot ≡ (plain_method from.now exprs.now method.now).name.text) }
        ensures own { IfOk result (IsMethodEntry (table_names self.new) (table_nodes self.new)) }
        ensures table { plain_table self.new ≡ plain_table self.old }
        ensures numbers { Extends (table_names self.old) (table_names self.new) }
        ensures kept { KeepsNodes (table_nodes self.old) (table_nodes self.new) }
        ensures few_names { length (table_names self.new) ≤ length (table_names self.old) + names_said (plain_method from.now exprs.now method.now) }
        ensures few_nodes { length (table_nodes self.new) ≤ length (table_nodes self.old) + size (plain_method from.now exprs.now method.now).body }
    {
        let own = self.own_declaration(from, method, exprs)?;
        let OwnMethod {
            result,
            spot,
            types,
            body,
        } = own;
        let mut bodies = Vec::new(*self.classes.allocator());
        bodies.push(body)?;
        Ok(MethodEntry {
            result,
            spot,
            parameters: types,
            bodies,
        })
    }

    /// Adds a method to a class that is there and has none of this name. The method is one of `from` and `exprs`: its
    /// names, its body and its places are copied. Without memory the class table stays as it is, while names and nodes
    /// may have grown.
    pub fn add_method(
        &mut self,
        class: &str,
        from: &Names,
        method: &Method,
        exprs: &Arena<ExprNode>,
    ) -> Result<(), NoMemory>
        requires there { IsSome (finite.get (plain_table self.old) class.now) }
        requires absent { own_method (plain_table self.old) class.now (plain_method from.now exprs.now method.now).name.text ≡ None }
        requires known { IsMethod from.now exprs.now method.now }
        requires nodes_known { All (IsExprNode from.now) exprs.now }
        requires expression { IsExpression (plain_method from.now exprs.now method.now).body }
        requires room { length (table_names self.old) + names_said (plain_method from.now exprs.now method.now) < 2 ^ 32 }
        requires space { length (table_nodes self.old) + size (plain_method from.now exprs.now method.now).body < 2 ^ 32 - 1 }
        ensures added { OnOk result (plain_table self.new ≡ changed_at (plain_table self.old) class.now
            (with_method (plain_method from.now exprs.now method.now).name.text (plain_entry (plain_method from.now exprs.now method.now)))) }
        ensures err { OnErr result (plain_table self.new ≡ plain_table self.old) }
        ensures numbers { Extends (table_names self.old) (table_names self.new) }
        ensures kept { KeepsNodes (table_nodes self.old) (table_nodes self.new) }
        ensures few_names { length (table_names self.new) ≤ length (table_names self.old) + names_said (plain_method from.now exprs.now method.now) }
        ensures few_nodes { length (table_nodes self.new) ≤ length (table_nodes self.old) + size (plain_method from.now exprs.now method.now).body }
    {
        let entry = self.method_entry(from, method, exprs)?;
        let place = self.class_place(class);
        insert_entry(&self.names, &mut self.classes[place].methods, entry)
    }

    /// Declares a method that is there again: its list of bodies is then this one body, and its places are those of the
    /// new declaration. Without memory the class table stays as it is, while names and nodes may have grown.
    pub fn put_body(
        &mut self,
        class: &str,
        from: &Names,
        method: &Method,
        exprs: &Arena<ExprNode>,
    ) -> Result<(), NoMemory>
        requires there { IsSome (finite.get (plain_table self.old) class.now) }
        requires method_there { IsSome (own_method (plain_table self.old) class.now (plain_method from.now exprs.now method.now).name.text) }
        requires known { IsMethod from.now exprs.now method.now }
        requires nodes_known { All (IsExprNode from.now) exprs.now }
        requires expression { IsExpression (plain_method from.now exprs.now method.now).body }
        requires room { length (table_names self.old) + names_said (plain_method from.now exprs.now method.now) < 2 ^ 32 }
        requires space { length (table_nodes self.old) + size (plain_method from.now exprs.now method.now).body < 2 ^ 32 - 1 }
        ensures put { OnOk result (plain_table self.new ≡ changed_at (plain_table self.old) class.now
            (with_method (plain_method from.now exprs.now method.now).name.text (plain_entry (plain_method from.now exprs.now method.now)))) }
        ensures err { OnErr result (plain_table self.new ≡ plain_table self.old) }
        ensures numbers { Extends (table_names self.old) (table_names self.new) }
        ensures kept { KeepsNodes (table_nodes self.old) (table_nodes self.new) }
        ensures few_names { length (table_names self.new) ≤ length (table_names self.old) + names_said (plain_method from.now exprs.now method.now) }
        ensures few_nodes { length (table_nodes self.new) ≤ length (table_nodes self.old) + size (plain_method from.now exprs.now method.now).body }
    {
        let entry = self.method_entry(from, method, exprs)?;
        let place = self.class_place(class);
        replace_entry(&self.names, &mut self.classes[place].methods, entry);
        Ok(())
    }

    /// Takes a method that is there out of a class, with its bodies. It takes no memory.
    pub fn remove_method(&mut self, class: &str, method: &str)
        requires there { IsSome (finite.get (plain_table self.old) class.now) }
        requires method_there { IsSome (own_method (plain_table self.old) class.now method.now) }
        ensures removed { plain_table self.new ≡ changed_at (plain_table self.old) class.now (without_method method.now) }
        ensures nodes { table_nodes self.new ≡ table_nodes self.old }
        ensures names { table_names self.new ≡ table_names self.old }
    {
        let place = self.class_place(class);
        remove_entry(&self.names, &mut self.classes[place].methods, method);
    }

    /// Declares a method that is there again, with the same signature: its body is then the last of the method's
    /// bodies, and its places are those of the new declaration. Without memory the class table stays as it is, while
    /// names and nodes may have grown.
    pub fn push_body(
        &mut self,
        class: &str,
        from: &Names,
        method: &Method,
        exprs: &Arena<ExprNode>,
    ) -> Result<(), NoMemory>
        requires there { IsSome (finite.get (plain_table self.old) class.now) }
        requires method_there { IsSome (own_method (plain_table self.old) class.now (plain_method from.now exprs.now method.now).name.text) }
        requires same { IfSome (own_method (plain_table self.old) class.now (plain_method from.now exprs.now method.now).name.text)
            (λ old. IsTrue (same_signature old.signature (signature_of (plain_method from.now exprs.now method.now)))) }
        requires known { IsMethod from.now exprs.now method.now }
        requires nodes_known { All (IsExprNode from.now) exprs.now }
        requires expression { IsExpression (plain_method from.now exprs.now method.now).body }
        requires room { length (table_names self.old) + names_said (plain_method from.now exprs.now method.now) < 2 ^ 32 }
        requires space { length (table_nodes self.old) + size (plain_method from.now exprs.now method.now).body < 2 ^ 32 - 1 }
        ensures pushed { OnOk result (plain_table self.new ≡ changed_at (plain_table self.old) class.now
            (with_body (plain_method from.now exprs.now method.now))) }
        ensures err { OnErr result (plain_table self.new ≡ plain_table self.old) }
        ensures numbers { Extends (table_names self.old) (table_names self.new) }
        ensures kept { KeepsNodes (table_nodes self.old) (table_nodes self.new) }
        ensures few_names { length (table_names self.new) ≤ length (table_names self.old) + names_said (plain_method from.now exprs.now method.now) }
        ensures few_nodes { length (table_nodes self.new) ≤ length (table_nodes self.old) + size (plain_method from.now exprs.now method.now).body }
    {
        let own = self.own_declaration(from, method, exprs)?;
        let place = self.class_place(class);
        redeclare(&self.names, &mut self.classes[place].methods, own)
    }
}

// Declares the method of its name again.
fn redeclare(names: &Names, methods: &mut Vec<MethodEntry>, own: OwnMethod) -> Result<(), NoMemory>
    requires known { All (λ m. IsKnown names.now m.spot) methods.old.items }
    requires rising { AreRising (map (λ m. text_at names.now m.spot) methods.old.items) }
    requires spot { IsKnown names.now own.spot }
    requires there { (at : ℕ) × (slice_get (map (λ m. text_at names.now m.spot) methods.old.items) at ≡ Some (text_at names.now own.spot)) }
    ensures ok { OnOk result (IsRedeclaredAmong methods.old.items (text_at names.now own.spot) names.now own.result own.spot own.types own.body methods.new.items) }
    ensures err { OnErr result (AreSameMethods methods.old.items methods.new.items) }
{
    let at = place(names, methods.as_slice(), names.text(own.spot.name));
    let method = &mut methods[at];
    method.bodies.push(own.body)?;
    method.result = own.result;
    method.spot = own.spot;
    method.parameters = own.types;
    Ok(())
}
