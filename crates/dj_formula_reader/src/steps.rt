//! The steps of the machine.
ghost use Rattle.std.specs.Prelude.{◌≡◌, ◌++◌, ◌≤◌, [], ◌∷◌, IfOk, OnOk, true, false};
ghost use Rattle.dj_lexer.specs.Symbols.{symbol_of};
ghost use Rattle.dj_formula_reader.specs.Machine.{rank_of, kept, passed, take_operator as operator_move, close_bracket as bracket_move, end_formula as end_move, step as step_of};
ghost use Rattle.dj_formula_reader.specs.View.{forms_of, state_of, move_of, Finishes};

use crate::machine::{FormulaMark, Frame, Machine, Turn};
use dj_lexer::Token;
use dj_reader::{Stack, is_name, is_sign, is_word};
use std::alloc::AllocError as NoMemory;

fn rank(frame: Frame) -> u32
    ensures { result ≡ rank_of frame }
{
    match frame {
        Frame::Open => 0,
        Frame::Same => 1,
        Frame::Implies => 2,
        Frame::Or => 3,
        Frame::And => 4,
        Frame::Not => 5,
    }
}

/// Takes the operator on top, where it binds as tightly.
fn pop_above(bytes: &[u8], frames: &mut Stack<Frame>, least: u32) -> Option<FormulaMark>
    requires { 1 ≤ least }
    ensures { Finishes bytes.now least frames.old result frames.new }
{
    let top = *frames.top()?;
    if rank(top) < least {
        return None;
    }
    let mark = match top {
        Frame::Open => return None,
        Frame::Same => FormulaMark::Same,
        Frame::Implies => FormulaMark::Implies,
        Frame::Or => FormulaMark::Or,
        Frame::And => FormulaMark::And,
        Frame::Not => FormulaMark::Not,
    };
    let _ = frames.pop();
    Some(mark)
}

/// Finishes the operators on top that bind as tightly.
fn finish_operators(bytes: &[u8], machine: &mut Machine, least: u32) -> Result<(), NoMemory>
    requires { 1 ≤ least }
    ensures frames { OnOk result (machine.new.frames ≡ kept least machine.old.frames) }
    ensures forms { OnOk result (forms_of bytes.now machine.new.marks.items
        ≡ forms_of bytes.now machine.old.marks.items ++ passed least machine.old.frames) }
    ensures waits { OnOk result (machine.new.is_waiting ≡ machine.old.is_waiting) }
{
    'tops: while let Some(mark) = pop_above(bytes, &mut machine.frames, least) {
        machine.marks.push(mark)?;
    }
    Ok(())
}

/// Takes a token where an operand comes next.
fn take_operand(bytes: &[u8], machine: &mut Machine, token: Token) -> Result<Turn, NoMemory>
    requires { machine.old.is_waiting ≡ true }
    ensures { IfOk result (λ turn. step_of (state_of bytes.now machine.old) (symbol_of bytes.now token)
        ≡ move_of bytes.now turn machine.new) }
{
    if is_sign(bytes, token, b"!") {
        machine.frames.push(Frame::Not)?;
        return Ok(Turn::Goes);
    }
    if is_sign(bytes, token, b"(") {
        machine.frames.push(Frame::Open)?;
        return Ok(Turn::Goes);
    }
    let mark = if is_word(bytes, token, b"true") {
        FormulaMark::True
    } else if is_word(bytes, token, b"false") {
        FormulaMark::False
    } else if is_name(bytes, token) {
        FormulaMark::Feature(token)
    } else {
        return Ok(Turn::Stops);
    };
    machine.marks.push(mark)?;
    machine.is_waiting = false;
    Ok(Turn::Goes)
}

/// Takes an operator, behind those before it that bind as tightly as a rank.
fn take_operator(
    bytes: &[u8],
    machine: &mut Machine,
    operator: Frame,
    least: u32,
) -> Result<Turn, NoMemory>
    requires { 1 ≤ least }
    ensures { IfOk result (λ turn. operator_move operator least machine.old.frames (forms_of bytes.now machine.old.marks.items)
        ≡ move_of bytes.now turn machine.new) }
{
    finish_operators(bytes, machine, least)?;
    machine.frames.push(operator)?;
    machine.is_waiting = true;
    Ok(Turn::Goes)
}

/// Takes a closing bracket.
fn close_bracket(bytes: &[u8], machine: &mut Machine) -> Result<Turn, NoMemory>
    requires { machine.old.is_waiting ≡ false }
    ensures { IfOk result (λ turn. bracket_move (kept 1 machine.old.frames)
        (forms_of bytes.now machine.old.marks.items ++ passed 1 machine.old.frames) ≡ move_of bytes.now turn machine.new) }
{
    finish_operators(bytes, machine, 1)?;
    match machine.frames.pop() {
        Some(Frame::Open) => Ok(Turn::Goes),
        _ => Ok(Turn::Stops),
    }
}

/// Takes the `;` behind the formula.
fn end_formula(bytes: &[u8], machine: &mut Machine) -> Result<Turn, NoMemory>
    ensures { IfOk result (λ turn. end_move (kept 1 machine.old.frames)
        (forms_of bytes.now machine.old.marks.items ++ passed 1 machine.old.frames) ≡ move_of bytes.now turn machine.new) }
{
    finish_operators(bytes, machine, 1)?;
    match machine.frames.top() {
        None => Ok(Turn::Ends),
        Some(_) => Ok(Turn::Stops),
    }
}

/// Takes a token behind an operand.
fn take_next(bytes: &[u8], machine: &mut Machine, token: Token) -> Result<Turn, NoMemory>
    requires { machine.old.is_waiting ≡ false }
    ensures { IfOk result (λ turn. step_of (state_of bytes.now machine.old) (symbol_of bytes.now token)
        ≡ move_of bytes.now turn machine.new) }
{
    if is_sign(bytes, token, b"&") || is_sign(bytes, token, b"&&") {
        take_operator(bytes, machine, Frame::And, 4)
    } else if is_sign(bytes, token, b"|") || is_sign(bytes, token, b"||") {
        take_operator(bytes, machine, Frame::Or, 3)
    } else if is_sign(bytes, token, b"->") {
        take_operator(bytes, machine, Frame::Implies, 3)
    } else if is_sign(bytes, token, b"<->") {
        take_operator(bytes, machine, Frame::Same, 1)
    } else if is_sign(bytes, token, b")") {
        close_bracket(bytes, machine)
    } else if is_sign(bytes, token, b";") {
        end_formula(bytes, machine)
    } else {
        Ok(Turn::Stops)
    }
}

/// What a token does to the machine.
pub fn step(bytes: &[u8], machine: &mut Machine, token: Token) -> Result<Turn, NoMemory>
    ensures { IfOk result (λ turn. step_of (state_of bytes.now machine.old) (symbol_of bytes.now token)
        ≡ move_of bytes.now turn machine.new) }
{
    if machine.is_waiting {
        take_operand(bytes, machine, token)
    } else {
        take_next(bytes, machine, token)
    }
}
