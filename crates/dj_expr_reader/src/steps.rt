//! The steps of the machine, by what was taken last.
ghost use Rattle.std.specs.Prelude.{◌≡◌, ◌++◌, [], ◌∷◌, IfOk};
ghost use Rattle.dj_lexer.specs.Symbols.{symbol_of};
ghost use Rattle.dj_expr_reader.specs.Machine as plain;
ghost use Rattle.dj_expr_reader.specs.View.{name_at, plain_mode, plain_mark, plain_marks, plain_callee, plain_frames, plain_move, CanCount};

use crate::finishing::{
    begin_value, call_mark, close_bracket, end_expression, hold, next_argument,
};
use crate::machine::{Callee, ExprMark, Frame, Machine, Mode, Turn};
use dj_lexer::{Dialect, Token, TokenKind};
use dj_reader::{is_name, is_sign, is_word};
use std::alloc::AllocError as NoMemory;

/// Whether an operand begins with a token.
fn begins_operand(bytes: &[u8], token: Token) -> bool
    ensures { result ≡ plain.begins_operand (symbol_of bytes.now token) }
{
    is_name(bytes, token)
        || is_word(bytes, token, b"this")
        || is_word(bytes, token, b"null")
        || is_word(bytes, token, b"new")
        || is_sign(bytes, token, b"(")
}

/// Whether a name before arguments asks for the method body before.
fn asks_for_original(bytes: &[u8], dialect: Dialect, name: Token) -> bool
    ensures { result ≡ plain.asks_for_original dialect (name_at bytes.now name) }
{
    let word = Token {
        kind: TokenKind::Word,
        ..name
    };
    dialect == Dialect::Line && is_word(bytes, word, b"original")
}

/// Takes a token where an operand comes next.
fn take_operand(bytes: &[u8], machine: &mut Machine, token: Token) -> Result<Turn, NoMemory>
    ensures { IfOk result (λ turn. plain.take_operand (symbol_of bytes.now token)
        (plain_frames bytes.now machine.old.frames) (plain_marks bytes.now machine.old.marks.items) ≡ plain_move bytes.now turn machine.new) }
{
    if is_sign(bytes, token, b"(") {
        machine.mode = Mode::Opened;
        Ok(Turn::Goes)
    } else if is_word(bytes, token, b"this") {
        hold(machine, ExprMark::This(token))
    } else if is_word(bytes, token, b"null") {
        hold(machine, ExprMark::Null(token))
    } else if is_word(bytes, token, b"new") {
        machine.mode = Mode::New;
        Ok(Turn::Goes)
    } else if is_name(bytes, token) {
        machine.mode = Mode::Named(token);
        Ok(Turn::Goes)
    } else {
        Ok(Turn::Stops)
    }
}

/// Takes a token behind an operand.
fn take_next(bytes: &[u8], machine: &mut Machine, token: Token) -> Result<Turn, NoMemory>
    requires { CanCount machine.old.frames }
    ensures { IfOk result (λ turn. plain.take_next (symbol_of bytes.now token)
        (plain_frames bytes.now machine.old.frames) (plain_marks bytes.now machine.old.marks.items) ≡ plain_move bytes.now turn machine.new) }
{
    if is_sign(bytes, token, b".") {
        machine.mode = Mode::Dotted;
        Ok(Turn::Goes)
    } else if is_sign(bytes, token, b")") {
        close_bracket(machine)
    } else if is_sign(bytes, token, b",") {
        next_argument(machine)
    } else if is_sign(bytes, token, b";") {
        end_expression(machine)
    } else {
        Ok(Turn::Stops)
    }
}

/// Takes a token behind an operand that ends with this node.
fn take_behind(
    bytes: &[u8],
    machine: &mut Machine,
    mark: ExprMark,
    token: Token,
) -> Result<Turn, NoMemory>
    requires { CanCount machine.old.frames }
    ensures { IfOk result (λ turn. plain.take_next (symbol_of bytes.now token)
        (plain_frames bytes.now machine.old.frames) (plain_marks bytes.now machine.old.marks.items ++ plain_mark bytes.now mark ∷ []) ≡ plain_move bytes.now turn machine.new) }
{
    machine.marks.push(mark)?;
    take_next(bytes, machine, token)
}

/// Takes a token behind a name.
fn take_after_name(
    bytes: &[u8],
    dialect: Dialect,
    machine: &mut Machine,
    name: Token,
    token: Token,
) -> Result<Turn, NoMemory>
    requires { CanCount machine.old.frames }
    ensures { IfOk result (λ turn. plain.take_after_name dialect (name_at bytes.now name) (symbol_of bytes.now token)
        (plain_frames bytes.now machine.old.frames) (plain_marks bytes.now machine.old.marks.items) ≡ plain_move bytes.now turn machine.new) }
{
    if is_sign(bytes, token, b"(") && asks_for_original(bytes, dialect, name) {
        machine.mode = Mode::Called(Callee::Original(name));
        return Ok(Turn::Goes);
    }
    take_behind(bytes, machine, ExprMark::Variable(name), token)
}

/// Takes a token behind a `.` and a name.
fn take_after_member(
    bytes: &[u8],
    machine: &mut Machine,
    member: Token,
    token: Token,
) -> Result<Turn, NoMemory>
    requires { CanCount machine.old.frames }
    ensures { IfOk result (λ turn. plain.take_after_member (name_at bytes.now member) (symbol_of bytes.now token)
        (plain_frames bytes.now machine.old.frames) (plain_marks bytes.now machine.old.marks.items) ≡ plain_move bytes.now turn machine.new) }
{
    if is_sign(bytes, token, b"(") {
        machine.mode = Mode::Called(Callee::Method(member));
        return Ok(Turn::Goes);
    }
    if is_sign(bytes, token, b"=") {
        return begin_value(machine, member);
    }
    take_behind(bytes, machine, ExprMark::Field(member), token)
}

/// Takes a token behind a `(`.
fn take_opened(bytes: &[u8], machine: &mut Machine, token: Token) -> Result<Turn, NoMemory>
    ensures { IfOk result (λ turn. plain.take_opened (symbol_of bytes.now token)
        (plain_frames bytes.now machine.old.frames) (plain_marks bytes.now machine.old.marks.items) ≡ plain_move bytes.now turn machine.new) }
{
    if is_name(bytes, token) {
        machine.mode = Mode::OpenedName(token);
        return Ok(Turn::Goes);
    }
    machine.frames.push(Frame::Bracket)?;
    take_operand(bytes, machine, token)
}

/// Takes a token behind a `(` and a name.
fn take_after_opened_name(
    bytes: &[u8],
    dialect: Dialect,
    machine: &mut Machine,
    name: Token,
    token: Token,
) -> Result<Turn, NoMemory>
    requires { CanCount machine.old.frames }
    ensures { IfOk result (λ turn. plain.take_after_opened_name dialect (name_at bytes.now name) (symbol_of bytes.now token)
        (plain_frames bytes.now machine.old.frames) (plain_marks bytes.now machine.old.marks.items) ≡ plain_move bytes.now turn machine.new) }
{
    if is_sign(bytes, token, b")") {
        machine.mode = Mode::ClosedName(name);
        return Ok(Turn::Goes);
    }
    machine.frames.push(Frame::Bracket)?;
    take_after_name(bytes, dialect, machine, name, token)
}

/// Takes a token behind a name in brackets: an operand makes that a cast.
fn take_after_closed_name(
    bytes: &[u8],
    machine: &mut Machine,
    name: Token,
    token: Token,
) -> Result<Turn, NoMemory>
    requires { CanCount machine.old.frames }
    ensures { IfOk result (λ turn. plain.take_after_closed_name (name_at bytes.now name) (symbol_of bytes.now token)
        (plain_frames bytes.now machine.old.frames) (plain_marks bytes.now machine.old.marks.items) ≡ plain_move bytes.now turn machine.new) }
{
    if begins_operand(bytes, token) {
        machine.frames.push(Frame::Cast(name))?;
        return take_operand(bytes, machine, token);
    }
    take_behind(bytes, machine, ExprMark::Variable(name), token)
}

/// Takes a token behind `new`.
fn take_class(bytes: &[u8], machine: &mut Machine, token: Token) -> Result<Turn, NoMemory>
    ensures { IfOk result (λ turn. plain.take_class (symbol_of bytes.now token)
        (plain_frames bytes.now machine.old.frames) (plain_marks bytes.now machine.old.marks.items) ≡ plain_move bytes.now turn machine.new) }
{
    if !is_name(bytes, token) {
        return Ok(Turn::Stops);
    }
    machine.mode = Mode::NewClass(token);
    Ok(Turn::Goes)
}

/// Takes a token behind `new` and a class.
fn open_object(
    bytes: &[u8],
    machine: &mut Machine,
    class: Token,
    token: Token,
) -> Result<Turn, NoMemory>
    ensures { IfOk result (λ turn. plain.open_object (name_at bytes.now class) (symbol_of bytes.now token)
        (plain_frames bytes.now machine.old.frames) (plain_marks bytes.now machine.old.marks.items) ≡ plain_move bytes.now turn machine.new) }
{
    if !is_sign(bytes, token, b"(") {
        return Ok(Turn::Stops);
    }
    machine.mode = Mode::NewOpened(class);
    Ok(Turn::Goes)
}

/// Takes a token behind `new`, a class and `(`.
fn close_object(
    bytes: &[u8],
    machine: &mut Machine,
    class: Token,
    token: Token,
) -> Result<Turn, NoMemory>
    ensures { IfOk result (λ turn. plain.close_object (name_at bytes.now class) (symbol_of bytes.now token)
        (plain_frames bytes.now machine.old.frames) (plain_marks bytes.now machine.old.marks.items) ≡ plain_move bytes.now turn machine.new) }
{
    if !is_sign(bytes, token, b")") {
        return Ok(Turn::Stops);
    }
    hold(machine, ExprMark::New(class))
}

/// Takes a token behind `.`.
fn take_member(bytes: &[u8], machine: &mut Machine, token: Token) -> Result<Turn, NoMemory>
    ensures { IfOk result (λ turn. plain.take_member (symbol_of bytes.now token)
        (plain_frames bytes.now machine.old.frames) (plain_marks bytes.now machine.old.marks.items) ≡ plain_move bytes.now turn machine.new) }
{
    if !is_name(bytes, token) {
        return Ok(Turn::Stops);
    }
    machine.mode = Mode::Member(token);
    Ok(Turn::Goes)
}

/// Takes a token behind the `(` before arguments.
fn take_argument(
    bytes: &[u8],
    machine: &mut Machine,
    callee: Callee,
    token: Token,
) -> Result<Turn, NoMemory>
    ensures { IfOk result (λ turn. plain.take_argument (plain_callee bytes.now callee) (symbol_of bytes.now token)
        (plain_frames bytes.now machine.old.frames) (plain_marks bytes.now machine.old.marks.items) ≡ plain_move bytes.now turn machine.new) }
{
    if is_sign(bytes, token, b")") {
        return hold(machine, call_mark(callee, 0));
    }
    machine.frames.push(Frame::Arguments(callee, 0))?;
    take_operand(bytes, machine, token)
}

/// What a token does to the machine.
pub fn step(
    bytes: &[u8],
    dialect: Dialect,
    machine: &mut Machine,
    token: Token,
) -> Result<Turn, NoMemory>
    requires { CanCount machine.old.frames }
    ensures { IfOk result (λ turn. plain.step dialect (plain_mode bytes.now machine.old.mode)
        (plain_frames bytes.now machine.old.frames) (plain_marks bytes.now machine.old.marks.items) (symbol_of bytes.now token) ≡ plain_move bytes.now turn machine.new) }
{
    match machine.mode {
        Mode::Waiting => take_operand(bytes, machine, token),
        Mode::Opened => take_opened(bytes, machine, token),
        Mode::OpenedName(name) => take_after_opened_name(bytes, dialect, machine, name, token),
        Mode::ClosedName(name) => take_after_closed_name(bytes, machine, name, token),
        Mode::Named(name) => take_after_name(bytes, dialect, machine, name, token),
        Mode::New => take_class(bytes, machine, token),
        Mode::NewClass(class) => open_object(bytes, machine, class, token),
        Mode::NewOpened(class) => close_object(bytes, machine, class, token),
        Mode::Holding => take_next(bytes, machine, token),
        Mode::Dotted => take_member(bytes, machine, token),
        Mode::Member(member) => take_after_member(bytes, machine, member, token),
        Mode::Called(callee) => take_argument(bytes, machine, callee, token),
    }
}
