//! The names and the nodes of a method that is being made.
ghost use Rattle.std.specs.Prelude.{◌≡◌, ◌≤◌, length};

use arena_walk::{Arena, NodeId};
use dj_names::{Name, Names};
use dj_tree::{ExprNode, Spot};
use std::alloc::{AllocError as NoMemory, Global};

/// Names and nodes with a count of each, so that a method which would run out of numbers for them is refused as one
/// that runs out of memory.
#[derive(Drop)]
pub struct Made {
    pub names: Names,
    pub exprs: Arena<ExprNode>,
    pub name_count: u32,
    pub node_count: u32,
    ghost names_counted: { length names ≤ name_count },
    ghost nodes_counted: { length exprs ≡ node_count },
}

impl Made {
    ghost use Rattle.std.specs.Prelude.{◌≡◌, ◌≤◌, ◌++◌, ◌∷◌, [], All, Some, slice_get, length, IfOk, OnOk};
    ghost use Rattle.arena_walk.specs.Forest.{trees};
    ghost use Rattle.dj_names.specs.Texts.{Extends};
    ghost use Rattle.dj_tree.specs.Arities.{expr_arity};
    ghost use Rattle.dj_tree.specs.Plain.{plain_spot, expr_form};
    ghost use Rattle.dj_tree.specs.WellFormed.{IsKnown, IsExprNode};
    ghost use Rattle.ifj_flatten.specs.Pieces.{called_form, called_arity};

    // No names and no nodes.
    pub fn new(alloc: Global) -> Made
        ensures names { result.names ≡ [] }
        ensures exprs { result.exprs ≡ [] }
    {
        Made {
            names: Names::new(alloc),
            exprs: Arena::new(alloc),
            name_count: 0,
            node_count: 0,
        }
    }

    // The name of a text.
    fn name(&mut self, text: &str) -> Result<Name, NoMemory>
        ensures named { IfOk result (λ name. slice_get self.new.names name.0 ≡ Some text.now) }
        ensures exprs { self.new.exprs ≡ self.old.exprs }
        ensures grown { OnOk result (Extends self.old.names self.new.names) }
    {
        if self.name_count == u32::MAX {
            return Err(NoMemory);
        }
        self.name_count += 1;
        self.names.add(text)
    }

    // A text at a place.
    pub fn place(&mut self, text: &str, at: u32) -> Result<Spot, NoMemory>
        ensures means { IfOk result (λ spot. plain_spot self.new.names spot ≡ record { text = text.now; at = at }) }
        ensures known { IfOk result (IsKnown self.new.names) }
        ensures exprs { self.new.exprs ≡ self.old.exprs }
        ensures grown { OnOk result (Extends self.old.names self.new.names) }
    {
        let name = self.name(text)?;
        Ok(Spot { name, at })
    }

    // The same name, among these.
    pub fn spot(&mut self, from: &Names, spot: Spot) -> Result<Spot, NoMemory>
        requires known { IsKnown from.now spot }
        ensures means { IfOk result (λ own. plain_spot self.new.names own ≡ plain_spot from.now spot) }
        ensures known { IfOk result (IsKnown self.new.names) }
        ensures exprs { self.new.exprs ≡ self.old.exprs }
        ensures grown { OnOk result (Extends self.old.names self.new.names) }
    {
        self.place(from.text(spot.name), spot.at)
    }

    // The node as it is made: `original(..)` calls the method of this name, and any other stays.
    pub fn called_node(
        &mut self,
        from: &Names,
        node: ExprNode,
        called: &str,
    ) -> Result<ExprNode, NoMemory>
        requires known { IsExprNode from.now node }
        ensures form { IfOk result (λ own. expr_form self.new.names own ≡ called_form called.now (expr_form from.now node)) }
        ensures arity { IfOk result (λ own. expr_arity own ≡ called_arity node) }
        ensures own { IfOk result (IsExprNode self.new.names) }
        ensures exprs { self.new.exprs ≡ self.old.exprs }
        ensures grown { OnOk result (Extends self.old.names self.new.names) }
    {
        match node {
            ExprNode::Variable(x) => Ok(ExprNode::Variable(self.spot(from, x)?)),
            ExprNode::This(at) => Ok(ExprNode::This(at)),
            ExprNode::Null(at) => Ok(ExprNode::Null(at)),
            ExprNode::Field(field) => Ok(ExprNode::Field(self.spot(from, field)?)),
            ExprNode::Call(method, arguments) => {
                Ok(ExprNode::Call(self.spot(from, method)?, arguments))
            }
            ExprNode::New(class) => Ok(ExprNode::New(self.spot(from, class)?)),
            ExprNode::Cast(class) => Ok(ExprNode::Cast(self.spot(from, class)?)),
            ExprNode::Assign(field) => Ok(ExprNode::Assign(self.spot(from, field)?)),
            ExprNode::Original(at, arguments) => {
                Ok(ExprNode::Call(self.place(called, at)?, arguments))
            }
        }
    }

    // Puts a node behind the others.
    pub fn push(&mut self, node: ExprNode) -> Result<NodeId, NoMemory>
        requires enough { expr_arity node ≤ length (trees expr_arity self.old.exprs) }
        ensures nodes { OnOk result (self.new.exprs ≡ self.old.exprs ++ node ∷ []) }
        ensures names { self.new.names ≡ self.old.names }
    {
        if self.node_count == u32::MAX {
            return Err(NoMemory);
        }
        let at = self.exprs.push(node)?;
        self.node_count += 1;
        Ok(at)
    }
}
