//! What becomes complete.
ghost use Rattle.std.specs.Prelude.{◌≡◌, ℕ, ◌++◌, List, [], ◌∷◌, IfOk, OnOk};
ghost use Rattle.dj_expr_reader.specs.Machine as plain;
ghost use Rattle.dj_expr_reader.specs.View.{name_at, plain_mark, plain_marks, plain_callee, plain_frames, plain_move, Finishes, CanCount};
ghost use Rattle.dj_expr_reader.specs.declared.machine.Mode.TheVariants.{Holding};
ghost use Rattle.dj_expr_reader.specs.declared.machine.Turn.TheVariants.{Goes};

use crate::machine::{Callee, ExprMark, Frame, Machine, Mode, Turn};
use dj_lexer::Token;
use dj_reader::Stack;
use std::alloc::AllocError as NoMemory;

/// Takes a cast or an assignment off the top.
fn pop_finished(frames: &mut Stack<Frame>) -> Option<ExprMark>
    ensures { Finishes frames.old result frames.new }
{
    let mark = match *frames.top()? {
        Frame::Cast(class) => ExprMark::Cast(class),
        Frame::Assign(field) => ExprMark::Assign(field),
        Frame::Bracket | Frame::Arguments(_, _) => return None,
    };
    let _ = frames.pop();
    Some(mark)
}

/// Finishes the casts and assignments on top.
fn finish_top(machine: &mut Machine) -> Result<(), NoMemory>
    ensures frames { (bytes : List ℕ) → OnOk result (plain_frames bytes machine.new.frames
        ≡ plain.kept (plain_frames bytes machine.old.frames)) }
    ensures marks { (bytes : List ℕ) → OnOk result (plain_marks bytes machine.new.marks.items
        ≡ plain_marks bytes machine.old.marks.items ++ plain.passed (plain_frames bytes machine.old.frames)) }
    ensures mode { OnOk result (machine.new.mode ≡ machine.old.mode) }
{
    'tops: while let Some(mark) = pop_finished(&mut machine.frames) {
        machine.marks.push(mark)?;
    }
    Ok(())
}

/// An operand is complete with this node.
pub fn hold(machine: &mut Machine, mark: ExprMark) -> Result<Turn, NoMemory>
    ensures turn { IfOk result (λ turn. turn ≡ Goes) }
    ensures mode { OnOk result (machine.new.mode ≡ Holding) }
    ensures frames { OnOk result (machine.new.frames ≡ machine.old.frames) }
    ensures marks { OnOk result (machine.new.marks.items ≡ machine.old.marks.items ++ mark ∷ []) }
{
    machine.marks.push(mark)?;
    machine.mode = Mode::Holding;
    Ok(Turn::Goes)
}

/// The node of a call with so many arguments.
pub fn call_mark(callee: Callee, arguments: u32) -> ExprMark
    ensures { (bytes : List ℕ) → plain_mark bytes result ≡ plain.call_mark (plain_callee bytes callee) arguments }
{
    match callee {
        Callee::Method(name) => ExprMark::Call(name, arguments),
        Callee::Original(word) => ExprMark::Original(word, arguments),
    }
}

/// Takes a closing bracket behind an expression.
pub fn close_bracket(machine: &mut Machine) -> Result<Turn, NoMemory>
    requires { CanCount machine.old.frames }
    ensures { (bytes : List ℕ) → IfOk result (λ turn. plain.close_bracket (plain.kept (plain_frames bytes machine.old.frames))
        (plain_marks bytes machine.old.marks.items ++ plain.passed (plain_frames bytes machine.old.frames)) ≡ plain_move bytes turn machine.new) }
{
    finish_top(machine)?;
    match machine.frames.pop() {
        Some(Frame::Bracket) => {
            machine.mode = Mode::Holding;
            Ok(Turn::Goes)
        }
        Some(Frame::Arguments(callee, count)) => hold(machine, call_mark(callee, count + 1)),
        _ => Ok(Turn::Stops),
    }
}

/// Takes a comma behind an expression.
pub fn next_argument(machine: &mut Machine) -> Result<Turn, NoMemory>
    requires { CanCount machine.old.frames }
    ensures { (bytes : List ℕ) → IfOk result (λ turn. plain.next_argument (plain.kept (plain_frames bytes machine.old.frames))
        (plain_marks bytes machine.old.marks.items ++ plain.passed (plain_frames bytes machine.old.frames)) ≡ plain_move bytes turn machine.new) }
{
    finish_top(machine)?;
    match machine.frames.pop() {
        Some(Frame::Arguments(callee, count)) => {
            machine.frames.push(Frame::Arguments(callee, count + 1))?;
            machine.mode = Mode::Waiting;
            Ok(Turn::Goes)
        }
        _ => Ok(Turn::Stops),
    }
}

/// Takes the `;` behind an expression.
pub fn end_expression(machine: &mut Machine) -> Result<Turn, NoMemory>
    ensures { (bytes : List ℕ) → IfOk result (λ turn. plain.end_expression (plain.kept (plain_frames bytes machine.old.frames))
        (plain_marks bytes machine.old.marks.items ++ plain.passed (plain_frames bytes machine.old.frames)) ≡ plain_move bytes turn machine.new) }
{
    finish_top(machine)?;
    match machine.frames.top() {
        None => Ok(Turn::Ends),
        Some(_) => Ok(Turn::Stops),
    }
}

/// Takes the `=` behind a field that gets a value.
pub fn begin_value(machine: &mut Machine, field: Token) -> Result<Turn, NoMemory>
    ensures { (bytes : List ℕ) → IfOk result (λ turn. plain.begin_value (name_at bytes field) (plain_frames bytes machine.old.frames)
        (plain_marks bytes machine.old.marks.items) ≡ plain_move bytes turn machine.new) }
{
    if let Some(Frame::Cast(_)) = machine.frames.top() {
        return Ok(Turn::Stops);
    }
    machine.frames.push(Frame::Assign(field))?;
    machine.mode = Mode::Waiting;
    Ok(Turn::Goes)
}
