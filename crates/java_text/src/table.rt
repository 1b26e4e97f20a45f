//! Class tables as text.
ghost use Rattle.std.specs.Prelude.{◌≡◌, ◌++◌, All, codes, OnOk, IfOk};
ghost use Rattle.dj_tree.specs.WellFormed.{IsKnown, IsExprNode};
ghost use Rattle.dj_calculus.specs.JavaText.{line, class_text, java_text};
ghost use Rattle.ifj_table.specs.Entries.{text_at, plain_class};
ghost use Rattle.ifj_table.specs.Held.{IsClassEntry};
ghost use Rattle.ifj_table.specs.Tables.{plain_table};

use crate::members::{push_fields, push_methods, push_spot};
use arena_walk::Arena;
use dj_names::Names;
use dj_tree::ExprNode;
use ifj_table::{ClassEntry, Table};
use std::alloc::{AllocError as NoMemory, Global};

/// Appends the lines of a class.
fn push_class(
    names: &Names,
    exprs: &Arena<ExprNode>,
    class: &ClassEntry,
    text: &mut Vec<u8>,
) -> Result<(), NoMemory>
    requires nodes { All (IsExprNode names.now) exprs.now }
    requires class { IsClassEntry names.now exprs.now class.now }
    ensures { OnOk result (text.new.items ≡ text.old.items ++ class_text (text_at names.now class.now.spot, plain_class names.now exprs.now class.now)) }
{
    push_class_line(names, class, text)?;
    push_fields(names, class.fields.as_slice(), text)?;
    push_methods(names, exprs, class.methods.as_slice(), text)?;
    text.extend_from_slice(b"}\n")
}

/// Appends the line that opens a class.
fn push_class_line(names: &Names, class: &ClassEntry, text: &mut Vec<u8>) -> Result<(), NoMemory>
    requires spot { IsKnown names.now class.now.spot }
    requires parent { IsKnown names.now class.now.parent }
    ensures { OnOk result (text.new.items ≡ text.old.items
        ++ line (codes "class " ++ (text_at names.now class.now.spot ++ (codes " extends " ++ (text_at names.now class.now.parent ++ codes " {"))))) }
{
    text.extend_from_slice(b"class ")?;
    push_spot(names, class.spot, text)?;
    text.extend_from_slice(b" extends ")?;
    push_spot(names, class.parent, text)?;
    text.extend_from_slice(b" {\n")
}

/// The canonical Java text of a table: classes by the bytes of their names, in each class the fields and then the
/// methods, each by the bytes of theirs. `java_text` says it byte by byte. No classes give no bytes. It is Java text
/// of flat tables: of a method with several bodies it has one method for each, and `original` stands as it is.
/// The time is that of the text, once names are looked up by their numbers.
pub fn write(alloc: Global, table: &Table) -> Result<Vec<u8>, NoMemory>
    ensures { IfOk result (λ text. text.items ≡ java_text (plain_table table.now)) }
{
    let names = table.names();
    let exprs = table.exprs();
    let classes = table.classes();
    let mut text = Vec::new(alloc);
    for class in classes {
        push_class(names, exprs, class, &mut text)?;
    }
    Ok(text)
}
