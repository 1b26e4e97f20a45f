//! Declarations of methods, taken into a table.
use crate::entry::Body;
use crate::table::Table;
use arena_walk::Arena;
use dj_names::Names;
use dj_tree::{ExprNode, FieldDecl, Listed, Method, Spot};
use std::alloc::AllocError as NoMemory;

/// The types and the names of parameters, in the table's own names.
#[derive(Drop)]
pub struct OwnParameters {
    pub types: Vec<Spot>,
    pub names: Vec<Spot>,
}

/// A declaration in the table's own names, with its body among the table's nodes.
#[derive(Drop)]
pub struct OwnMethod {
    pub result: Spot,
    pub spot: Spot,
    pub types: Listed<Spot>,
    pub body: Body,
}

impl Table {
    ghost use Rattle.std.specs.Prelude.{◌≡◌, ◌+◌, ◌*◌, ◌-◌, ◌^◌, ◌<◌, ◌≤◌, ◌++◌, ◌∷◌, [], All, map, length, IfOk};
    ghost use Rattle.arena_walk.specs.Tree.{size};
    ghost use Rattle.dj_names.specs.Texts.{Extends};
    ghost use Rattle.dj_tree.specs.Plain.{plain_spot, plain_method, plain_expr};
    ghost use Rattle.dj_tree.specs.PostOrder.{KeepsNodes};
    ghost use Rattle.dj_tree.specs.WellFormed.{IsKnown, IsExprNode, IsField, IsMethod};
    ghost use Rattle.dj_calculus.specs.Expressions.{IsExpression};
    ghost use Rattle.dj_calculus.specs.Entries.{signature_of, body_of};
    ghost use Rattle.ifj_table.specs.Entries.{plain_body};
    ghost use Rattle.ifj_table.specs.Held.{IsBody};
    ghost use Rattle.ifj_table.specs.Tables.{plain_table, table_names, table_nodes, table_classes};
    ghost use Rattle.ifj_table.specs.Changes.{names_said};

    // The same parameters, in the table's own names.
    fn own_parameters(
        &mut self,
        from: &Names,
        parameters: &[FieldDecl],
    ) -> Result<OwnParameters, NoMemory>
        requires known { All (IsField from.now) parameters.now }
        requires room { length (table_names self.old) + 2 * length parameters.now < 2 ^ 32 }
        ensures types { IfOk result (λ own. map (plain_spot (table_names self.new)) own.types.items ≡ map (λ p. plain_spot from.now p.kind) parameters.now) }
        ensures names { IfOk result (λ own. map (plain_spot (table_names self.new)) own.names.items ≡ map (λ p. plain_spot from.now p.spot) parameters.now) }
        ensures own_types { IfOk result (λ own. All (IsKnown (table_names self.new)) own.types.items) }
        ensures own_names { IfOk result (λ own. All (IsKnown (table_names self.new)) own.names.items) }
        ensures table { plain_table self.new ≡ plain_table self.old }
        ensures classes { table_classes self.new ≡ table_classes self.old }
        ensures nodes { table_nodes self.new ≡ table_nodes self.old }
        ensures numbers { Extends (table_names self.old) (table_names self.new) }
        ensures few { length (table_names self.new) ≤ length (table_names self.old) + 2 * length parameters.now }
    {
        let alloc = *self.classes.allocator();
        let mut types = Vec::new(alloc);
        let mut names = Vec::new(alloc);
        for parameter in parameters {
            types.push(self.own_spot(from, parameter.kind)?)?;
            names.push(self.own_spot(from, parameter.spot)?)?;
        }
        Ok(OwnParameters { types, names })
    }

    // The same declaration, with its body copied.
    pub(crate) fn own_declaration(
        &mut self,
        from: &Names,
        method: &Method,
        exprs: &Arena<ExprNode>,
    ) -> Result<OwnMethod, NoMemory>
        requires known { IsMethod from.now exprs.now method.now }
        requires nodes_known { All (IsExprNode from.now) exprs.now }
        requires expression { IsExpression (plain_method from.now exprs.now method.now).body }
        requires room { length (table_names self.old) + names_said (plain_method from.now exprs.now method.now) < 2 ^ 32 }
        requires space { length (table_nodes self.old) + size (plain_method from.now exprs.now method.now).body < 2 ^ 32 - 1 }
        ensures spot { IfOk result (λ own. plain_spot (table_names self.new) own.spot ≡ (plain_method from.now exprs.now method.now).name) }
        ensures result_type { IfOk result (λ own. plain_spot (table_names self.new) own.result ≡ (plain_method from.now exprs.now method.now).kind) }
        ensures types { IfOk result (λ own. map (plain_spot (table_names self.new)) own.types ≡ (signature_of (plain_method from.now exprs.now method.now)).parameters) }
        ensures body { IfOk result (λ own. plain_body (table_names self.new) (table_nodes self.new) own.body ≡ body_of (plain_method from.now exprs.now method.now)) }
        ensures own_spot { IfOk result (λ own. IsKnown (table_names self.new) own.spot) }
        ensures own_result { IfOk result (λ own. IsKnown (table_names self.new) own.result) }
        ensures own_types { IfOk result (λ own. All (IsKnown (table_names self.new)) own.types) }
        ensures own_body { IfOk result (λ own. IsBody (table_names self.new) (table_nodes self.new) (length own.types) own.body) }
        ensures table { plain_table self.new ≡ plain_table self.old }
        ensures classes { table_classes self.new ≡ table_classes self.old }
        ensures numbers { Extends (table_names self.old) (table_names self.new) }
        ensures kept { KeepsNodes (table_nodes self.old) (table_nodes self.new) }
        ensures few_names { length (table_names self.new) ≤ length (table_names self.old) + names_said (plain_method from.now exprs.now method.now) }
        ensures few_nodes { length (table_nodes self.new) ≤ length (table_nodes self.old) + size (plain_method from.now exprs.now method.now).body }
    {
        let result = self.own_spot(from, method.result)?;
        let spot = self.own_spot(from, method.spot)?;
        let parameters = self.own_parameters(from, method.parameters.as_slice())?;
        let root = self.copy_expr(from, exprs, method.body)?;
        Ok(OwnMethod {
            result,
            spot,
            types: Listed::from_vec(parameters.types),
            body: Body {
                parameters: Listed::from_vec(parameters.names),
                root,
            },
        })
    }
}
