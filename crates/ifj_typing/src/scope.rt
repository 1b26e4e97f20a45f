//! Nodes of bodies, judged.
ghost use Rattle.std.specs.Prelude.{◌≡◌, ◌<◌, drop, length};

use crate::kind::{Kind, Typed, instance};
use crate::least::{least_fault, lesser};
use crate::lookups::{exists, field_type, is_above, is_below, method_of};
use dj_names::Name;
use dj_tree::{ExprNode, Instance, Spot};
use ifj_lineages::Lineages;
use ifj_table::{Body, MethodEntry, Table};
use indexmap::IndexMap;

/// Where a body stands: in a method of a class of a table.
#[derive(Drop)]
pub struct Scope<'a> {
    pub table: &'a Table,
    pub lineages: &'a Lineages,
    pub class: Name,
    pub method: &'a MethodEntry,
    pub body: &'a Body,
    /// The types of the parameters, by the numbers of their names.
    pub parameters: &'a IndexMap<u32, Name>,
}

impl Scope<'_> {
    ghost use Rattle.std.specs.Prelude.{◌≡◌, ◌∷◌, [], ◌<◌, ℕ, List, None, Some, All, map, drop, length, slice_get, MatchOption, IfSome, IfOk, MatchResult};
    ghost use Rattle.std.specs.List.{AllZip};
    ghost use Rattle.arena_walk.specs.Tree.{trees_of, over};
    ghost use Rattle.dj_tree.specs.Trees.{Expr};
    ghost use Rattle.dj_tree.specs.Arities.{expr_arity};
    ghost use Rattle.dj_tree.specs.Plain.{plain_spot, expr_form};
    ghost use Rattle.dj_tree.specs.Trees as plain;
    ghost use Rattle.dj_tree.specs.WellFormed.{IsKnown, IsExprNode};
    ghost use Rattle.dj_calculus.specs.Tables.{texts_of};
    ghost use Rattle.dj_calculus.specs.Subclasses.{class_kind, Below};
    ghost use Rattle.dj_calculus.specs.Typing.{parameter_type, Types, AllBelow};
    ghost use Rattle.dj_calculus.specs.Instances.{IsLeast};
    ghost use Rattle.ifj_typing.specs.declared.kind.Kind.TheVariants.{Class};
    ghost use Rattle.ifj_typing.specs.Kinds.{text_of, plain_kind, IsKnownKind};
    ghost use Rattle.ifj_typing.specs.Least.{Judges, IsFault, Before, EachBefore};
    ghost use Rattle.ifj_typing.specs.Said.{SaysRoot, Says, IsRight, BreaksArguments};
    ghost use Rattle.ifj_typing.specs.Arguments.{FitsOne, WrongOne, FitsAt, WrongAt};
    ghost use Rattle.ifj_typing.specs.Scopes.{scope_names, scope_table, scope_home, IsScope, IsTyped, AreTyped};

    // The type of a parameter.
    fn parameter(&self, x: Name) -> Option<Name>
        requires scope { IsScope self.now }
        requires known { x.0 < length (scope_names self.now) }
        ensures found { MatchOption result (parameter_type (scope_home self.now) (text_of (scope_names self.now) x) ≡ None)
            (λ kind. parameter_type (scope_home self.now) (text_of (scope_names self.now) x) ≡ Some (text_of (scope_names self.now) kind)) }
        ensures known { IfSome result (λ kind. kind.0 < length (scope_names self.now)) }
    {
        match self.parameters.get(&x.0) {
            Some(kind) => Some(*kind),
            None => None,
        }
    }

    fn variable(&self, x: Spot) -> Result<Kind, Instance>
        requires scope { IsScope self.now }
        requires known { IsKnown (scope_names self.now) x }
        ensures says { SaysRoot (scope_table self.now) (scope_home self.now) (scope_names self.now) (plain.variable (plain_spot (scope_names self.now) x)) result }
        ensures kind { IfOk result (IsKnownKind (scope_names self.now)) }
    {
        match self.parameter(x.name) {
            Some(kind) => Ok(Kind::Class(kind)),
            None => Err(instance(14, x.at)),
        }
    }

    fn object(&self, class: Spot) -> Result<Kind, Instance>
        requires known { IsKnown (scope_names self.now) class }
        ensures says { SaysRoot (scope_table self.now) (scope_home self.now) (scope_names self.now) (plain.new_of (plain_spot (scope_names self.now) class)) result }
        ensures kind { IfOk result (IsKnownKind (scope_names self.now)) }
    {
        if exists(self.table, class.name) {
            Ok(Kind::Class(class.name))
        } else {
            Err(instance(15, class.at))
        }
    }

    fn cast(&self, class: Spot, kind: Kind) -> Result<Kind, Instance>
        requires scope { IsScope self.now }
        requires known { IsKnown (scope_names self.now) class }
        requires kind { IsKnownKind (scope_names self.now) kind }
        ensures says { (e : Expr) → Types (scope_table self.now) (scope_home self.now) e (plain_kind (scope_names self.now) kind)
            → SaysRoot (scope_table self.now) (scope_home self.now) (scope_names self.now) (plain.cast_to (plain_spot (scope_names self.now) class) e) result }
        ensures kind { IfOk result (IsKnownKind (scope_names self.now)) }
    {
        if !exists(self.table, class.name) {
            return Err(instance(15, class.at));
        }
        if is_below(self.table, self.lineages, kind, class.name) {
            return Ok(Kind::Class(class.name));
        }
        if is_above(self.table, self.lineages, kind, class.name) {
            return Ok(Kind::Class(class.name));
        }
        Err(instance(22, class.at))
    }

    fn field(&self, field: Spot, object: Kind) -> Result<Kind, Instance>
        requires scope { IsScope self.now }
        requires known { IsKnown (scope_names self.now) field }
        requires object { IsKnownKind (scope_names self.now) object }
        ensures says { (e : Expr) → Types (scope_table self.now) (scope_home self.now) e (plain_kind (scope_names self.now) object)
            → SaysRoot (scope_table self.now) (scope_home self.now) (scope_names self.now) (plain.field_of e (plain_spot (scope_names self.now) field)) result }
        ensures kind { IfOk result (IsKnownKind (scope_names self.now)) }
    {
        match object {
            Kind::Null => Err(instance(23, field.at)),
            Kind::Class(class) => match field_type(self.table, self.lineages, class, field.name) {
                Some(kind) => Ok(Kind::Class(kind)),
                None => Err(instance(16, field.at)),
            },
        }
    }

    fn assignment(&self, field: Spot, object: Kind, value: Kind) -> Result<Kind, Instance>
        requires scope { IsScope self.now }
        requires known { IsKnown (scope_names self.now) field }
        requires object { IsKnownKind (scope_names self.now) object }
        requires value { IsKnownKind (scope_names self.now) value }
        ensures says { (e v : Expr) → Types (scope_table self.now) (scope_home self.now) e (plain_kind (scope_names self.now) object)
            → Types (scope_table self.now) (scope_home self.now) v (plain_kind (scope_names self.now) value)
            → SaysRoot (scope_table self.now) (scope_home self.now) (scope_names self.now) (plain.assignment e (plain_spot (scope_names self.now) field) v) result }
        ensures kind { IfOk result (IsKnownKind (scope_names self.now)) }
    {
        match object {
            Kind::Null => Err(instance(23, field.at)),
            Kind::Class(class) => match field_type(self.table, self.lineages, class, field.name) {
                Some(kind) => self.assigned(field, kind, value),
                None => Err(instance(16, field.at)),
            },
        }
    }

    // A value put into a field of this type.
    fn assigned(&self, field: Spot, kind: Name, value: Kind) -> Result<Kind, Instance>
        requires scope { IsScope self.now }
        requires known { kind.0 < length (scope_names self.now) }
        requires value { IsKnownKind (scope_names self.now) value }
        ensures fits { MatchResult result
            (λ found. (found ≡ Class kind) × Below (scope_table self.now) (plain_kind (scope_names self.now) value) (class_kind (text_of (scope_names self.now) kind)))
            (λ i. (i ≡ record { rule = 20; at = field.at; second = field.at }) × ¬ (Below (scope_table self.now) (plain_kind (scope_names self.now) value) (class_kind (text_of (scope_names self.now) kind)))) }
    {
        if is_below(self.table, self.lineages, value, kind) {
            Ok(Kind::Class(kind))
        } else {
            Err(instance(20, field.at))
        }
    }

    // The type that was found for an expression.
    fn kind_of(&self, part: &Typed) -> Kind
        requires { IsTyped (scope_names self.now) part.now }
        ensures found { part.now.found ≡ Ok result }
        ensures known { IsKnownKind (scope_names self.now) result }
    {
        match part.found {
            Ok(kind) => kind,
            Err(_) => unreachable!(),
        }
    }

    // The instance of an argument whose type isn't below that of its parameter.
    fn misfit_of(&self, argument: &Typed, kind: Spot) -> Option<Instance>
        requires scope { IsScope self.now }
        requires typed { IsTyped (scope_names self.now) argument.now }
        requires known { IsKnown (scope_names self.now) kind }
        ensures { (e : Expr) → IsRight (scope_table self.now) (scope_home self.now) (scope_names self.now) e argument.now
            → Judges (FitsOne (scope_table self.now) (scope_home self.now) e (text_of (scope_names self.now) kind.name))
            (WrongOne (scope_table self.now) (scope_home self.now) e (text_of (scope_names self.now) kind.name)) result }
    {
        let found = self.kind_of(argument);
        if is_below(self.table, self.lineages, found, kind.name) {
            None
        } else {
            Some(instance(19, argument.at))
        }
    }

    // The least instance of such arguments, of which there are as many as types.
    fn misfit(&self, types: &[Spot], arguments: &[Typed]) -> Option<Instance>
        requires scope { IsScope self.now }
        requires typed { AreTyped (scope_names self.now) arguments.now }
        requires known { All (IsKnown (scope_names self.now)) types.now }
        requires count { length arguments.now ≡ length types.now }
        ensures { (es : List Expr) → AllZip (IsRight (scope_table self.now) (scope_home self.now) (scope_names self.now)) es arguments.now
            → Judges (EachBefore (FitsAt (scope_table self.now) (scope_home self.now) es (texts_of (map (plain_spot (scope_names self.now)) types.now))) (length types.now))
            (Before (WrongAt (scope_table self.now) (scope_home self.now) es (texts_of (map (plain_spot (scope_names self.now)) types.now))) (length types.now)) result }
    {
        let mut least = None;
        for (number, argument) in arguments.iter().enumerate() {
            least = lesser(least, self.misfit_of(argument, types[number]));
        }
        least
    }

    // Whether arguments of a call at a place fit the types of its parameters.
    fn fit(&self, types: &[Spot], arguments: &[Typed], at: u32) -> Result<(), Instance>
        requires scope { IsScope self.now }
        requires typed { AreTyped (scope_names self.now) arguments.now }
        requires known { All (IsKnown (scope_names self.now)) types.now }
        ensures { (es : List Expr) → AllZip (IsRight (scope_table self.now) (scope_home self.now) (scope_names self.now)) es arguments.now
            → MatchResult result
            (λ _. AllBelow (scope_table self.now) (scope_home self.now) (trees_of es) (texts_of (map (plain_spot (scope_names self.now)) types.now)))
            (IsLeast (BreaksArguments (scope_table self.now) (scope_home self.now) (trees_of es) (texts_of (map (plain_spot (scope_names self.now)) types.now)) at)) }
    {
        if arguments.len() != types.len() {
            return Err(instance(18, at));
        }
        match self.misfit(types, arguments) {
            Some(instance) => Err(instance),
            None => Ok(()),
        }
    }

    fn call(&self, method: Spot, object: Kind, arguments: &[Typed]) -> Result<Kind, Instance>
        requires scope { IsScope self.now }
        requires known { IsKnown (scope_names self.now) method }
        requires object { IsKnownKind (scope_names self.now) object }
        requires typed { AreTyped (scope_names self.now) arguments.now }
        ensures says { (e : Expr) (es : List Expr) → Types (scope_table self.now) (scope_home self.now) e (plain_kind (scope_names self.now) object)
            → AllZip (IsRight (scope_table self.now) (scope_home self.now) (scope_names self.now)) es arguments.now
            → SaysRoot (scope_table self.now) (scope_home self.now) (scope_names self.now) (plain.call_of e (plain_spot (scope_names self.now) method) es) result }
        ensures kind { IfOk result (IsKnownKind (scope_names self.now)) }
    {
        match object {
            Kind::Null => Err(instance(23, method.at)),
            Kind::Class(class) => match method_of(self.table, self.lineages, class, method.name) {
                None => Err(instance(17, method.at)),
                Some(found) => match self.fit(found.parameters.as_slice(), arguments, method.at) {
                    Ok(()) => Ok(Kind::Class(found.result.name)),
                    Err(instance) => Err(instance),
                },
            },
        }
    }

    fn original(&self, at: u32, arguments: &[Typed]) -> Result<Kind, Instance>
        requires scope { IsScope self.now }
        requires typed { AreTyped (scope_names self.now) arguments.now }
        ensures says { (es : List Expr) → AllZip (IsRight (scope_table self.now) (scope_home self.now) (scope_names self.now)) es arguments.now
            → SaysRoot (scope_table self.now) (scope_home self.now) (scope_names self.now) (plain.original_at at es) result }
        ensures kind { IfOk result (IsKnownKind (scope_names self.now)) }
    {
        match self.fit(self.method.parameters.as_slice(), arguments, at) {
            Ok(()) => Ok(Kind::Class(self.method.result.name)),
            Err(instance) => Err(instance),
        }
    }

    // A node whose parts have types.
    pub(crate) fn node_type(&self, node: &ExprNode, parts: &[Typed]) -> Result<Kind, Instance>
        requires scope { IsScope self.now }
        requires known { IsExprNode (scope_names self.now) node.now }
        requires arity { length parts.now ≡ expr_arity node.now }
        requires typed { AreTyped (scope_names self.now) parts.now }
        ensures says { (es : List Expr) → AllZip (IsRight (scope_table self.now) (scope_home self.now) (scope_names self.now)) es parts.now
            → SaysRoot (scope_table self.now) (scope_home self.now) (scope_names self.now) (over (expr_form (scope_names self.now) node.now) es) result }
        ensures kind { IfOk result (IsKnownKind (scope_names self.now)) }
    {
        match *node {
            ExprNode::Variable(x) => self.variable(x),
            ExprNode::This(_) => Ok(Kind::Class(self.class)),
            ExprNode::Null(_) => Ok(Kind::Null),
            ExprNode::Field(field) => self.field(field, self.kind_of(&parts[0])),
            ExprNode::Call(method, _) => self.call(
                method,
                self.kind_of(&parts[0]),
                behind_first(parts),
            ),
            ExprNode::New(class) => self.object(class),
            ExprNode::Cast(class) => self.cast(class, self.kind_of(&parts[0])),
            ExprNode::Assign(field) => {
                self.assignment(field, self.kind_of(&parts[0]), self.kind_of(&parts[1]))
            }
            ExprNode::Original(at, _) => self.original(at, parts),
        }
    }
}

// What stands behind the first.
fn behind_first(parts: &[Typed]) -> &[Typed]
    requires { 0 < length parts.now }
    ensures { result.now ≡ drop 1 parts.now }
{
    &parts[1..]
}
