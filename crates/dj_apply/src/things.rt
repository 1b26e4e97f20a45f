//! What operations touch, thing by thing.
ghost use Rattle.std.specs.Prelude.{◌≡◌, ◌+◌, ◌<◌, List, Some, length, map, slice_get};
ghost use Rattle.dj_names.specs.Texts.{Text, AreDistinct};
ghost use Rattle.dj_tree.specs.Plain.{plain_spot, plain_change, plain_operation, plain_member};
ghost use Rattle.dj_tree.specs.WellFormed.{IsKnown, IsMember, IsChange, IsOperation};
ghost use Rattle.dj_tree.specs.declared.expression.ExprNode.{ExprNode};
ghost use Rattle.dj_calculus.specs.Conflicts.{conflict, collide};
ghost use Rattle.dj_calculus.specs.Contents.{class_name};
ghost use Rattle.dj_tree.specs.Trees.{modifies_class};
ghost use Rattle.dj_calculus.specs.Things.{mention, only, superclass, field_named, method_named, does, steps_of, thing_of, touched_by};
ghost use Rattle.dj_apply.specs.Touched.{step_length, touched_length, text_of, plain_touch, plain_thing, IsTouch, IsTouched};

use dj_names::Name;
use dj_tree::{ClassChange, ClassOp, MemberOp, Spot};

/// The whole class, the mention of it, or a piece of it: its superclass, or its field or method of a name.
#[derive(Clone, Copy, Debug, PartialEq, Eq)]
pub enum Touch {
    Whole,
    Mention,
    Superclass,
    Field(Name),
    Method(Name),
}

/// What is touched of which class, and the byte offset of the name that says so.
#[derive(Clone, Copy, Debug, PartialEq, Eq)]
pub struct Touched {
    pub class: Name,
    pub touch: Touch,
    pub at: u32,
}

// The class that an operation is on.
pub fn class_of(operation: &ClassOp) -> Spot
    ensures name { (names : List Text) (exprs : List ExprNode) → plain_spot names result ≡ class_name (plain_operation names exprs operation.now) }
    ensures known { (names : List Text) (exprs : List ExprNode) → IsOperation names exprs operation.now → IsKnown names result }
{
    match operation {
        ClassOp::Adds(class) => class.spot,
        ClassOp::Modifies(change) => change.spot,
        ClassOp::Removes(spot) => *spot,
    }
}

// How many things an operation touches.
pub fn touched_count(operation: &ClassOp) -> usize
    ensures { result ≡ touched_length operation.now }
{
    match operation {
        ClassOp::Adds(_) | ClassOp::Removes(_) => 1,
        ClassOp::Modifies(change) => step_count(change) + 1,
    }
}

// How many steps a change has.
fn step_count(change: &ClassChange) -> usize
    ensures steps { result ≡ step_length change.now }
    ensures few { result < 9223372036854775808 }
{
    let members = change.members.as_slice().len();
    match change.parent {
        Some(_) => members + 1,
        None => members,
    }
}

// The thing of a number, from 0, that an operation touches.
pub fn thing_at(operation: &ClassOp, number: usize) -> Touched
    requires { number < touched_length operation.now }
    ensures thing { (names : List Text) (exprs : List ExprNode) → slice_get (touched_by (plain_operation names exprs operation.now)) number ≡ Some (plain_thing names result) }
    ensures known { (names : List Text) (exprs : List ExprNode) → IsOperation names exprs operation.now → IsTouched names result }
{
    match operation {
        ClassOp::Adds(class) => touching(class.spot, Touch::Whole),
        ClassOp::Removes(spot) => touching(*spot, Touch::Whole),
        ClassOp::Modifies(change) => touched_by_change(change, number),
    }
}

// A touch of a class, said at its name.
fn touching(spot: Spot, touch: Touch) -> Touched
    ensures { result ≡ record { class = spot.name; touch = touch; at = spot.at } }
{
    Touched {
        class: spot.name,
        touch,
        at: spot.at,
    }
}

// The thing of a number, from 0, that a change touches.
fn touched_by_change(change: &ClassChange, number: usize) -> Touched
    requires { number < step_length change.now + 1 }
    ensures thing { (names : List Text) (exprs : List ExprNode) → slice_get (touched_by (modifies_class (plain_change names exprs change.now))) number ≡ Some (plain_thing names result) }
    ensures known { (names : List Text) (exprs : List ExprNode) → IsChange names exprs change.now → IsTouched names result }
{
    if number == 0 {
        touching(change.spot, Touch::Mention)
    } else {
        touched_by_step(change, number - 1)
    }
}

// The thing that the step of a number, from 0, of a change touches.
fn touched_by_step(change: &ClassChange, number: usize) -> Touched
    requires { number < step_length change.now }
    ensures thing { (names : List Text) (exprs : List ExprNode) → slice_get (map (thing_of (text_of names change.now.spot.name.0)) (steps_of (plain_change names exprs change.now))) number ≡ Some (plain_thing names result) }
    ensures known { (names : List Text) (exprs : List ExprNode) → IsChange names exprs change.now → IsTouched names result }
{
    match change.parent {
        Some(parent) => {
            if number == 0 {
                touching_piece(change.spot.name, parent, Touch::Superclass)
            } else {
                let member = member_at(change, number - 1);
                touched_by_member(change.spot.name, member)
            }
        }
        None => {
            let member = member_at(change, number);
            touched_by_member(change.spot.name, member)
        }
    }
}

// The member of a number, from 0, of a change.
fn member_at(change: &ClassChange, number: usize) -> &MemberOp
    requires { number < length change.now.members }
    ensures { slice_get change.now.members number ≡ Some result.now }
{
    &change.members.as_slice()[number]
}

// The thing that a member of a change of a class touches.
fn touched_by_member(class: Name, member: &MemberOp) -> Touched
    ensures thing { (names : List Text) (exprs : List ExprNode) → plain_thing names result ≡ thing_of (text_of names class.0) (does (plain_member names exprs member.now)) }
    ensures known { (names : List Text) (exprs : List ExprNode) → class.0 < length names → IsMember names exprs member.now → IsTouched names result }
{
    match member {
        MemberOp::AddsField(field) => touching_piece(
            class,
            field.spot,
            Touch::Field(field.spot.name),
        ),
        MemberOp::RemovesField(spot) => touching_piece(class, *spot, Touch::Field(spot.name)),
        MemberOp::AddsMethod(method) | MemberOp::ModifiesMethod(method) => {
            touching_piece(class, method.spot, Touch::Method(method.spot.name))
        }
        MemberOp::RemovesMethod(spot) => touching_piece(class, *spot, Touch::Method(spot.name)),
    }
}

// A touch of a piece of a class, said at this name.
fn touching_piece(class: Name, spot: Spot, touch: Touch) -> Touched
    ensures { result ≡ record { class = class; touch = touch; at = spot.at } }
{
    let at = spot.at;
    Touched { class, touch, at }
}

// Whether two things conflict.
pub fn conflicts(one: Touched, other: Touched) -> bool
    ensures { (names : List Text) → AreDistinct names → IsTouched names one → IsTouched names other → result ≡ conflict (plain_thing names one) (plain_thing names other) }
{
    if one.class.0 != other.class.0 {
        return false;
    }
    collides(one.touch, other.touch)
}

// Whether one of two touches of a class is the whole class, or both are the same piece of it.
fn collides(one: Touch, other: Touch) -> bool
    ensures { (names : List Text) → AreDistinct names → IsTouch names one → IsTouch names other → result ≡ collide (plain_touch names one) (plain_touch names other) }
{
    match one {
        Touch::Whole => true,
        Touch::Mention => is_whole(other),
        Touch::Superclass => is_on_superclass(other),
        Touch::Field(name) => is_on_field(other, name),
        Touch::Method(name) => is_on_method(other, name),
    }
}

// Whether the whole class is touched.
fn is_whole(touch: Touch) -> bool
    ensures { (names : List Text) → result ≡ collide mention (plain_touch names touch) }
{
    match touch {
        Touch::Whole => true,
        Touch::Mention | Touch::Superclass | Touch::Field(_) | Touch::Method(_) => false,
    }
}

// Whether the superclass is touched, or the whole class.
fn is_on_superclass(touch: Touch) -> bool
    ensures { (names : List Text) → result ≡ collide (only superclass) (plain_touch names touch) }
{
    match touch {
        Touch::Whole | Touch::Superclass => true,
        Touch::Mention | Touch::Field(_) | Touch::Method(_) => false,
    }
}

// Whether the field of this name is touched, or the whole class.
fn is_on_field(touch: Touch, name: Name) -> bool
    ensures { (names : List Text) → AreDistinct names → name.0 < length names → IsTouch names touch → result ≡ collide (only (field_named (text_of names name.0))) (plain_touch names touch) }
{
    match touch {
        Touch::Whole => true,
        Touch::Field(other) => name.0 == other.0,
        Touch::Mention | Touch::Superclass | Touch::Method(_) => false,
    }
}

// Whether the method of this name is touched, or the whole class.
fn is_on_method(touch: Touch, name: Name) -> bool
    ensures { (names : List Text) → AreDistinct names → name.0 < length names → IsTouch names touch → result ≡ collide (only (method_named (text_of names name.0))) (plain_touch names touch) }
{
    match touch {
        Touch::Whole => true,
        Touch::Method(other) => name.0 == other.0,
        Touch::Mention | Touch::Superclass | Touch::Field(_) => false,
    }
}
