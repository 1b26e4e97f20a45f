//! Names, nodes and expressions of another source, taken into a table.
use crate::table::Table;
use arena_walk::{Arena, NodeId};
use dj_names::Names;
use dj_tree::{ExprNode, Spot};
use std::alloc::AllocError as NoMemory;

impl Table {
    ghost use Rattle.std.specs.Prelude.{◌≡◌, ◌+◌, ◌-◌, ◌^◌, ◌<◌, ◌≤◌, ◌++◌, ◌∷◌, [], All, length, IfOk, OnOk, OnErr};
    ghost use Rattle.arena_walk.specs.Tree.{size};
    ghost use Rattle.arena_walk.specs.Forest.{trees};
    ghost use Rattle.dj_names.specs.Texts.{Extends};
    ghost use Rattle.dj_tree.specs.Arities.{expr_arity};
    ghost use Rattle.dj_tree.specs.Plain.{plain_spot, expr_form, plain_expr};
    ghost use Rattle.dj_tree.specs.PostOrder.{KeepsNodes};
    ghost use Rattle.dj_tree.specs.WellFormed.{IsKnown, IsExprNode};
    ghost use Rattle.dj_tree.specs.declared.expression.ExprNode.{ExprNode};
    ghost use Rattle.ifj_table.specs.Tables.{plain_table, table_names, table_nodes, table_classes};

    // The same name, in the table's own names.
    pub(crate) fn own_spot(&mut self, from: &Names, spot: Spot) -> Result<Spot, NoMemory>
        requires known { IsKnown from.now spot }
        requires room { length (table_names self.old) + 1 < 2 ^ 32 }
        ensures means { IfOk result (λ own. plain_spot (table_names self.new) own ≡ plain_spot from.now spot) }
        ensures own { IfOk result (IsKnown (table_names self.new)) }
        ensures table { plain_table self.new ≡ plain_table self.old }
        ensures classes { table_classes self.new ≡ table_classes self.old }
        ensures nodes { table_nodes self.new ≡ table_nodes self.old }
        ensures numbers { Extends (table_names self.old) (table_names self.new) }
        ensures few { length (table_names self.new) ≤ length (table_names self.old) + 1 }
    {
        self.spot(from.text(spot.name), spot.at)
    }

    // The same node over the table's own names.
    fn own_node(&mut self, from: &Names, node: ExprNode) -> Result<ExprNode, NoMemory>
        requires known { IsExprNode from.now node }
        requires room { length (table_names self.old) + 1 < 2 ^ 32 }
        ensures form { IfOk result (λ own. expr_form (table_names self.new) own ≡ expr_form from.now node) }
        ensures arity { IfOk result (λ own. expr_arity own ≡ expr_arity node) }
        ensures own { IfOk result (IsExprNode (table_names self.new)) }
        ensures table { plain_table self.new ≡ plain_table self.old }
        ensures classes { table_classes self.new ≡ table_classes self.old }
        ensures nodes { table_nodes self.new ≡ table_nodes self.old }
        ensures numbers { Extends (table_names self.old) (table_names self.new) }
        ensures few { length (table_names self.new) ≤ length (table_names self.old) + 1 }
    {
        match node {
            ExprNode::Variable(x) => Ok(ExprNode::Variable(self.own_spot(from, x)?)),
            ExprNode::This(at) => Ok(ExprNode::This(at)),
            ExprNode::Null(at) => Ok(ExprNode::Null(at)),
            ExprNode::Field(field) => Ok(ExprNode::Field(self.own_spot(from, field)?)),
            ExprNode::Call(method, arguments) => {
                Ok(ExprNode::Call(self.own_spot(from, method)?, arguments))
            }
            ExprNode::New(class) => Ok(ExprNode::New(self.own_spot(from, class)?)),
            ExprNode::Cast(class) => Ok(ExprNode::Cast(self.own_spot(from, class)?)),
            ExprNode::Assign(field) => Ok(ExprNode::Assign(self.own_spot(from, field)?)),
            ExprNode::Original(at, arguments) => Ok(ExprNode::Original(at, arguments)),
        }
    }

    // Puts a node behind those of the table.
    fn push_node(&mut self, node: ExprNode) -> Result<NodeId, NoMemory>
        requires known { IsExprNode (table_names self.old) node }
        requires enough { expr_arity node ≤ length (trees expr_arity (table_nodes self.old)) }
        requires space { length (table_nodes self.old) < 2 ^ 32 - 1 }
        ensures number { IfOk result (λ at. at.0 ≡ length (table_nodes self.old)) }
        ensures nodes { OnOk result (table_nodes self.new ≡ table_nodes self.old ++ node ∷ []) }
        ensures err { OnErr result (table_nodes self.new ≡ table_nodes self.old) }
        ensures table { plain_table self.new ≡ plain_table self.old }
        ensures classes { table_classes self.new ≡ table_classes self.old }
        ensures names { table_names self.new ≡ table_names self.old }
    {
        self.exprs.push(node)
    }

    // Puts the same node behind those of the table.
    fn copy_node(&mut self, from: &Names, node: ExprNode) -> Result<NodeId, NoMemory>
        requires known { IsExprNode from.now node }
        requires enough { expr_arity node ≤ length (trees expr_arity (table_nodes self.old)) }
        requires room { length (table_names self.old) + 1 < 2 ^ 32 }
        requires space { length (table_nodes self.old) < 2 ^ 32 - 1 }
        ensures number { IfOk result (λ at. at.0 ≡ length (table_nodes self.old)) }
        ensures node { OnOk result ((own : ExprNode) × (table_nodes self.new ≡ table_nodes self.old ++ own ∷ [])
            × (expr_form (table_names self.new) own ≡ expr_form from.now node)
            × (expr_arity own ≡ expr_arity node)
            × IsExprNode (table_names self.new) own) }
        ensures err { OnErr result (table_nodes self.new ≡ table_nodes self.old) }
        ensures table { plain_table self.new ≡ plain_table self.old }
        ensures classes { table_classes self.new ≡ table_classes self.old }
        ensures numbers { Extends (table_names self.old) (table_names self.new) }
        ensures few { length (table_names self.new) ≤ length (table_names self.old) + 1 }
    {
        let own = self.own_node(from, node)?;
        self.push_node(own)
    }

    // Puts the same expression behind the nodes of the table, and gives its root.
    pub(crate) fn copy_expr(
        &mut self,
        from: &Names,
        exprs: &Arena<ExprNode>,
        root: NodeId,
    ) -> Result<NodeId, NoMemory>
        requires there { root.0 < length exprs.now }
        requires known { All (IsExprNode from.now) exprs.now }
        requires room { length (table_names self.old) + size (plain_expr from.now exprs.now root.0) < 2 ^ 32 }
        requires space { length (table_nodes self.old) + size (plain_expr from.now exprs.now root.0) < 2 ^ 32 - 1 }
        ensures tree { IfOk result (λ own. plain_expr (table_names self.new) (table_nodes self.new) own.0 ≡ plain_expr from.now exprs.now root.0) }
        ensures own { IfOk result (λ own. own.0 < length (table_nodes self.new)) }
        ensures table { plain_table self.new ≡ plain_table self.old }
        ensures classes { table_classes self.new ≡ table_classes self.old }
        ensures numbers { Extends (table_names self.old) (table_names self.new) }
        ensures kept { KeepsNodes (table_nodes self.old) (table_nodes self.new) }
        ensures few_names { length (table_names self.new) ≤ length (table_names self.old) + size (plain_expr from.now exprs.now root.0) }
        ensures few_nodes { length (table_nodes self.new) ≤ length (table_nodes self.old) + size (plain_expr from.now exprs.now root.0) }
    {
        let first = exprs.first(root);
        let mut own = root;
        for number in first.0..root.0 + 1 {
            own = self.copy_node(from, *exprs.get(NodeId(number)))?;
        }
        Ok(own)
    }
}
