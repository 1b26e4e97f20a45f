//! Whole bodies, judged by one walk over their nodes.
ghost use Rattle.std.specs.Prelude.{◌≡◌, List};
ghost use Rattle.dj_names.specs.Texts.{Text};
ghost use Rattle.dj_tree.specs.Plain.{expr_form};
ghost use Rattle.dj_calculus.specs.BodyRules.{place_of_form};

use crate::kind::{Kind, Typed};
use crate::least::least_fault;
use crate::scope::Scope;
use arena_walk::{NodeId, Visit};
use dj_tree::{ExprNode, Instance};
use std::convert::Infallible;

// The byte offset of the place of an expression with this root.
fn place_of(node: &ExprNode) -> u32
    ensures { (names : List Text) → result ≡ place_of_form (expr_form names node.now) }
{
    match *node {
        ExprNode::Variable(x) => x.at,
        ExprNode::This(at) | ExprNode::Null(at) | ExprNode::Original(at, _) => at,
        ExprNode::Field(field) | ExprNode::Assign(field) => field.at,
        ExprNode::Call(method, _) => method.at,
        ExprNode::New(class) | ExprNode::Cast(class) => class.at,
    }
}

impl Scope<'_> {
    ghost use Rattle.std.specs.Prelude.{◌≡◌, ℕ, List, Some, length, slice_get, IfOk};
    ghost use Rattle.std.specs.List.{AllZip};
    ghost use Rattle.arena_walk.specs.Tree.{over};
    ghost use Rattle.dj_tree.specs.Arities.{expr_arity};
    ghost use Rattle.dj_tree.specs.Plain.{expr_form};
    ghost use Rattle.dj_tree.specs.Trees.{Expr};
    ghost use Rattle.dj_tree.specs.WellFormed.{IsExprNode};
    ghost use Rattle.ifj_typing.specs.declared.kind.Typed.{Typed};
    ghost use Rattle.ifj_typing.specs.Kinds.{IsKnownKind};
    ghost use Rattle.ifj_typing.specs.Said.{Says, IsRight};
    ghost use Rattle.ifj_typing.specs.Scopes.{scope_names, scope_table, scope_home, IsScope};

    // A node over parts that were judged.
    fn judge(&self, node: &ExprNode, parts: &[Typed]) -> Result<Kind, Instance>
        requires scope { IsScope self.now }
        requires known { IsExprNode (scope_names self.now) node.now }
        requires arity { length parts.now ≡ expr_arity node.now }
        requires kinds { (k : ℕ) (out : Typed) → slice_get parts.now k ≡ Some out → IfOk out.found (IsKnownKind (scope_names self.now)) }
        ensures says { (es : List Expr) → AllZip (IsRight (scope_table self.now) (scope_home self.now) (scope_names self.now)) es parts.now
            → Says (scope_table self.now) (scope_home self.now) (scope_names self.now) (over (expr_form (scope_names self.now) node.now) es) result }
        ensures kind { IfOk result (IsKnownKind (scope_names self.now)) }
    {
        match least_fault(parts) {
            Some(instance) => Err(instance),
            None => self.node_type(node, parts),
        }
    }
}

impl Visit<ExprNode> for Scope<'_> {
    ghost use Rattle.std.specs.Prelude.{◌≡◌};
    ghost use Rattle.std.proofs.Common.{refl, sym, ◌∙◌, subst};
    ghost use Rattle.arena_walk.specs.Tree.{root_of};
    ghost use Rattle.dj_tree.specs.Plain.{in_form, expr_form};
    ghost use Rattle.dj_tree.specs.WellFormed.{IsExprNode};
    ghost use Rattle.ifj_typing.specs.Said.{IsRight};
    ghost use Rattle.ifj_typing.specs.Scopes.{scope_names, scope_table, scope_home, IsScope};

    type Out = Typed;

    type Fault = Infallible;

    ghost stands = { λ scope tree out. IsRight (scope_table scope) (scope_home scope) (scope_names scope) (in_form (expr_form (scope_names scope)) tree) out };

    ghost grew = { λ old new. new ≡ old };

    ghost admits = { λ scope tree _. IsScope scope × IsExprNode (scope_names scope) (root_of tree) };

    ghost failed = { λ _ _. ⊥ };

    ghost grew_reflexive = { λ _. refl };

    ghost grew_transitive = { λ _ _ _ first second. second ∙ first };

    ghost still_stands = { λ _ _ tree out grown stood. subst (λ scope. IsRight (scope_table scope) (scope_home scope) (scope_names scope) (in_form (expr_form (scope_names scope)) tree) out) (sym grown) stood };

    ghost still_admits = { λ _ _ tree _ grown admitted. subst (λ scope. IsScope scope × IsExprNode (scope_names scope) (root_of tree)) (sym grown) admitted };

    fn node(&mut self, node: &ExprNode, _at: NodeId, parts: &[Typed]) -> Result<Typed, Infallible> {
        Ok(Typed {
            at: place_of(node),
            found: self.judge(node, parts),
        })
    }
}
