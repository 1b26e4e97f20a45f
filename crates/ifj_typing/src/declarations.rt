//! Superclasses and types that classes, fields and methods name.
ghost use Rattle.std.specs.Prelude.{◌≡◌, ◌⊎◌, ◌<◌, All, length, IfOk, Decides};
ghost use Rattle.dj_calculus.specs.TableRules.{IsEndless};
ghost use Rattle.dj_tree.specs.WellFormed.{IsKnown};
ghost use Rattle.ifj_table.specs.Tables.{plain_table, table_names, table_nodes};
ghost use Rattle.ifj_table.specs.Entries.{text_at};
ghost use Rattle.ifj_table.specs.Held.{IsFieldEntry, IsMethodEntry, IsClassEntry};
ghost use Rattle.ifj_typing.specs.Chains.{AreChains};
ghost use Rattle.ifj_typing.specs.Declarations.{UnknownSuperclass, CircularSuperclasses, UnknownType, UnknownAmong, UnknownInSignature, UnknownFieldTypes, UnknownInSignatures, BreaksChain, BreaksTypes, BreaksDeclaration, BreaksDeclarations};
ghost use Rattle.ifj_typing.specs.Least.{IsLeastOf};

use crate::chains::endless_chains;
use crate::kind::instance;
use crate::least::lesser;
use crate::lookups::exists;
use dj_tree::{Instance, Spot};
use ifj_table::{ClassEntry, MethodEntry, Table};
use std::alloc::{AllocError as NoMemory, Global};

// A superclass that doesn't exist.
fn parent_fault(table: &Table, class: &ClassEntry) -> Option<Instance>
    requires { IsKnown (table_names table.now) class.now.parent }
    ensures { IsLeastOf (UnknownSuperclass table.now class.now) result }
{
    if exists(table, class.parent.name) {
        None
    } else {
        Some(instance(9, class.parent.at))
    }
}

// A chain that never ends.
fn circle_fault(table: &Table, class: &ClassEntry, is_endless: bool) -> Option<Instance>
    requires { Decides is_endless (IsEndless (plain_table table.now) (text_at (table_names table.now) class.now.spot)) }
    ensures { IsLeastOf (CircularSuperclasses table.now class.now) result }
{
    if is_endless {
        Some(instance(10, class.parent.at))
    } else {
        None
    }
}

// A type that doesn't exist.
fn type_fault(table: &Table, kind: Spot) -> Option<Instance>
    requires { IsKnown (table_names table.now) kind }
    ensures { IsLeastOf (UnknownType table.now kind) result }
{
    if exists(table, kind.name) {
        None
    } else {
        Some(instance(11, kind.at))
    }
}

// The least instance among types.
fn types_fault(table: &Table, kinds: &[Spot]) -> Option<Instance>
    requires { All (IsKnown (table_names table.now)) kinds.now }
    ensures { IsLeastOf (UnknownAmong table.now kinds.now) result }
{
    let mut least = None;
    for kind in kinds {
        least = lesser(least, type_fault(table, *kind));
    }
    least
}

// The least instance among the types of a method.
fn signature_fault(table: &Table, method: &MethodEntry) -> Option<Instance>
    requires { IsMethodEntry (table_names table.now) (table_nodes table.now) method.now }
    ensures { IsLeastOf (UnknownInSignature table.now method.now) result }
{
    let result = type_fault(table, method.result);
    let parameters = types_fault(table, method.parameters.as_slice());
    lesser(result, parameters)
}

// The least instance among the types of a class's fields.
fn fields_fault(table: &Table, class: &ClassEntry) -> Option<Instance>
    requires { IsClassEntry (table_names table.now) (table_nodes table.now) class.now }
    ensures { IsLeastOf (UnknownFieldTypes table.now class.now) result }
{
    let mut least = None;
    for field in &class.fields {
        least = lesser(least, type_fault(table, field.kind));
    }
    least
}

// The least instance among the types of a class's methods.
fn signatures_fault(table: &Table, class: &ClassEntry) -> Option<Instance>
    requires { IsClassEntry (table_names table.now) (table_nodes table.now) class.now }
    ensures { IsLeastOf (UnknownInSignatures table.now class.now) result }
{
    let mut least = None;
    for method in &class.methods {
        least = lesser(least, signature_fault(table, method));
    }
    least
}

// The least instance of a class.
fn declaration_fault(table: &Table, class: &ClassEntry, is_endless: bool) -> Option<Instance>
    requires class { IsClassEntry (table_names table.now) (table_nodes table.now) class.now }
    requires chain { Decides is_endless (IsEndless (plain_table table.now) (text_at (table_names table.now) class.now.spot)) }
    ensures { IsLeastOf (BreaksDeclaration table.now class.now) result }
{
    let chain = chain_fault(table, class, is_endless);
    let types = class_types_fault(table, class);
    lesser(chain, types)
}

// The least instance of a class's superclass.
fn chain_fault(table: &Table, class: &ClassEntry, is_endless: bool) -> Option<Instance>
    requires class { IsClassEntry (table_names table.now) (table_nodes table.now) class.now }
    requires chain { Decides is_endless (IsEndless (plain_table table.now) (text_at (table_names table.now) class.now.spot)) }
    ensures { IsLeastOf (BreaksChain table.now class.now) result }
{
    let parent = parent_fault(table, class);
    let circle = circle_fault(table, class, is_endless);
    lesser(parent, circle)
}

// The least instance among the types that a class's members name.
fn class_types_fault(table: &Table, class: &ClassEntry) -> Option<Instance>
    requires { IsClassEntry (table_names table.now) (table_nodes table.now) class.now }
    ensures { IsLeastOf (BreaksTypes table.now class.now) result }
{
    let fields = fields_fault(table, class);
    let methods = signatures_fault(table, class);
    lesser(fields, methods)
}

/// The least instance of a rule of layer 3: an unknown superclass, circular superclasses, an unknown type. The one error
/// is want of memory.
pub fn declarations_fault(alloc: Global, table: &Table) -> Result<Option<Instance>, NoMemory>
    ensures { IfOk result (IsLeastOf (BreaksDeclarations table.now)) }
{
    let endless = endless_chains(alloc, table)?;
    Ok(classes_fault(table, endless.as_slice()))
}

// The least instance among classes, where their chains are known.
fn classes_fault(table: &Table, endless: &[bool]) -> Option<Instance>
    requires { AreChains table.now endless.now }
    ensures { IsLeastOf (BreaksDeclarations table.now) result }
{
    let mut least = None;
    for (number, class) in table.classes().iter().enumerate() {
        least = lesser(least, declaration_fault(table, class, endless[number]));
    }
    least
}
