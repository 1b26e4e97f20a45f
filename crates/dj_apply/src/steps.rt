//! Members of a class of a growing table, which are added, modified and removed.
use crate::bodies::{body_size, says_original};
use crate::growing::GrowingTable;
use crate::members::Member;
use dj_names::Names;
use dj_tree::{FieldDecl, Method, Source, Spot};
use std::alloc::AllocError as NoMemory;

impl GrowingTable {
    ghost use Rattle.std.specs.Prelude.{◌≡◌, ◌+◌, ◌≤◌, ◌∷◌, [], All, length, OnOk};
    ghost use Rattle.arena_walk.specs.Tree.{size};
    ghost use Rattle.dj_tree.specs.Trees.{adds_field, adds_method, modifies_method, removes_field, removes_method};
    ghost use Rattle.dj_tree.specs.Plain.{plain_spot, plain_field, plain_method};
    ghost use Rattle.dj_tree.specs.WellFormed.{IsKnown, IsField, IsMethod, IsExprNode};
    ghost use Rattle.dj_calculus.specs.Expressions.{IsExpression};
    ghost use Rattle.dj_calculus.specs.Things.{does};
    ghost use Rattle.ifj_table.specs.Changes.{names_said};
    ghost use Rattle.ifj_table.specs.Tables.{plain_table, table_names, table_nodes};
    ghost use Rattle.dj_apply.specs.Members.{plain_taken, IsTaken};
    ghost use Rattle.dj_apply.specs.Ready.{HasBody};
    ghost use Rattle.dj_apply.specs.Taking.{CanTake, Takes};

    // Adds, modifies or removes a member.
    pub fn take_member(
        &mut self,
        source: &Source,
        class: &str,
        member: Member,
    ) -> Result<(), NoMemory>
        requires known { IsTaken source.now.names source.now.exprs member }
        requires nodes_known { All (IsExprNode source.now.names) source.now.exprs }
        requires body { HasBody (plain_taken source.now.names source.now.exprs member) }
        requires can { CanTake (plain_table self.old.table) class.now (does (plain_taken source.now.names source.now.exprs member) ∷ []) }
        ensures { OnOk result (Takes (plain_table self.old.table) (plain_table self.new.table) class.now (does (plain_taken source.now.names source.now.exprs member.entry) ∷ [])) }
    {
        match member {
            Member::AddsField(field) => self.add_field(&source.names, class, field),
            Member::AddsMethod(method) => self.add_method(source, class, method),
            Member::ModifiesMethod(method) => self.modify_method(source, class, method),
            Member::RemovesField(spot) => {
                self.remove_field(&source.names, class, spot);
                Ok(())
            }
            Member::RemovesMethod(spot) => {
                self.remove_method(&source.names, class, spot);
                Ok(())
            }
        }
    }

    // Adds a field.
    fn add_field(&mut self, names: &Names, class: &str, field: &FieldDecl) -> Result<(), NoMemory>
        requires known { IsField names.now field.now }
        requires can { CanTake (plain_table self.old.table) class.now (does (adds_field (plain_field names.now field.now)) ∷ []) }
        ensures { OnOk result (Takes (plain_table self.old.table) (plain_table self.new.table) class.now (does (adds_field (plain_field names.now field.now)) ∷ [])) }
    {
        self.count_names(2)?;
        let name = names.text(field.spot.name);
        let kind = names.text(field.kind.name);
        self.table
            .add_field(class, name, kind, field.spot.at, field.kind.at)
    }

    // Takes a field out.
    fn remove_field(&mut self, names: &Names, class: &str, field: Spot)
        requires known { IsKnown names.now field }
        requires can { CanTake (plain_table self.old.table) class.now (does (removes_field (plain_spot names.now field)) ∷ []) }
        ensures { Takes (plain_table self.old.table) (plain_table self.new.table) class.now (does (removes_field (plain_spot names.now field)) ∷ []) }
    {
        self.table.remove_field(class, names.text(field.name));
    }

    // Takes a method out.
    fn remove_method(&mut self, names: &Names, class: &str, method: Spot)
        requires known { IsKnown names.now method }
        requires can { CanTake (plain_table self.old.table) class.now (does (removes_method (plain_spot names.now method)) ∷ []) }
        ensures { Takes (plain_table self.old.table) (plain_table self.new.table) class.now (does (removes_method (plain_spot names.now method)) ∷ []) }
    {
        self.table.remove_method(class, names.text(method.name));
    }

    // Counts the names and the nodes of a method that will be put into the table.
    fn count_method(&mut self, source: &Source, method: &Method) -> Result<(), NoMemory>
        requires known { IsMethod source.now.names source.now.exprs method.now }
        ensures table { self.new.table ≡ self.old.table }
        ensures names { OnOk result (length (table_names self.old.table) + names_said (plain_method source.now.names source.now.exprs method.now) ≤ self.new.names) }
        ensures nodes { OnOk result (length (table_nodes self.old.table) + size (plain_method source.now.names source.now.exprs method.now).body ≤ self.new.nodes) }
    {
        let nodes = body_size(source, method.body);
        let parameters = method.parameters.as_slice().len() as u64;
        self.count_names(2 + 2 * parameters + nodes)?;
        self.count_nodes(nodes)
    }

    // Adds a method.
    fn add_method(&mut self, source: &Source, class: &str, method: &Method) -> Result<(), NoMemory>
        requires known { IsMethod source.now.names source.now.exprs method.now }
        requires nodes_known { All (IsExprNode source.now.names) source.now.exprs }
        requires expression { IsExpression (plain_method source.now.names source.now.exprs method.now).body }
        requires can { CanTake (plain_table self.old.table) class.now (does (adds_method (plain_method source.now.names source.now.exprs method.now)) ∷ []) }
        ensures { OnOk result (Takes (plain_table self.old.table) (plain_table self.new.table) class.now (does (adds_method (plain_method source.now.names source.now.exprs method.now)) ∷ [])) }
    {
        self.count_method(source, method)?;
        self.table
            .add_method(class, &source.names, method, &source.exprs)
    }

    // Declares a method again: its body goes behind those that it has, where it says `original`, and else stands alone.
    fn modify_method(
        &mut self,
        source: &Source,
        class: &str,
        method: &Method,
    ) -> Result<(), NoMemory>
        requires known { IsMethod source.now.names source.now.exprs method.now }
        requires nodes_known { All (IsExprNode source.now.names) source.now.exprs }
        requires expression { IsExpression (plain_method source.now.names source.now.exprs method.now).body }
        requires can { CanTake (plain_table self.old.table) class.now (does (modifies_method (plain_method source.now.names source.now.exprs method.now)) ∷ []) }
        ensures { OnOk result (Takes (plain_table self.old.table) (plain_table self.new.table) class.now (does (modifies_method (plain_method source.now.names source.now.exprs method.now)) ∷ [])) }
    {
        self.count_method(source, method)?;
        if says_original(source, method.body) {
            self.table
                .push_body(class, &source.names, method, &source.exprs)
        } else {
            self.table
                .put_body(class, &source.names, method, &source.exprs)
        }
    }
}
