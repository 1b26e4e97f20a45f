//! The bodies of a table, each typed in its own class.
ghost use Rattle.std.specs.Prelude.{◌≡◌, ◌<◌, All, length, IfOk};
ghost use Rattle.dj_tree.specs.WellFormed.{IsExprNode};
ghost use Rattle.ifj_table.specs.Tables.{plain_table, table_names, table_nodes, table_classes};
ghost use Rattle.ifj_table.specs.Entries.{text_at};
ghost use Rattle.ifj_table.specs.Held.{IsBody, IsMethodEntry, IsClassEntry, AreClasses};
ghost use Rattle.ifj_lineages.specs.Lineages.{AreLineages};
ghost use Rattle.ifj_typing.specs.Kinds.{text_of};
ghost use Rattle.ifj_typing.specs.Least.{IsLeastOf};
ghost use Rattle.ifj_typing.specs.Said.{IsRight};
ghost use Rattle.ifj_typing.specs.Parameters.{TellsTypes, spot_texts};
ghost use Rattle.ifj_typing.specs.Bodies.{body_home, body_value, BreaksBodyOf, BreaksMethodOf, BreaksClassOf, BreaksBodies};

use crate::kind::{Typed, instance};
use crate::least::lesser;
use crate::lookups::is_below;
use crate::parameters::parameter_types;
use crate::scope::Scope;
use arena_walk::walk;
use dj_names::Name;
use dj_tree::Instance;
use ifj_lineages::Lineages;
use ifj_table::{Body, ClassEntry, MethodEntry, Table};
use indexmap::IndexMap;
use std::alloc::{AllocError as NoMemory, Global};

// The expression of a body, judged.
fn typed_body(
    alloc: Global,
    table: &Table,
    lineages: &Lineages,
    class: Name,
    method: &MethodEntry,
    body: &Body,
    parameters: &IndexMap<u32, Name>,
) -> Result<Typed, NoMemory>
    requires lineages { AreLineages table.now lineages.now }
    requires class { class.0 < length (table_names table.now) }
    requires method { IsMethodEntry (table_names table.now) (table_nodes table.now) method.now }
    requires body { IsBody (table_names table.now) (table_nodes table.now) (length method.now.parameters) body.now }
    requires parameters { TellsTypes (table_names table.now) (spot_texts (table_names table.now) body.now.parameters) (spot_texts (table_names table.now) method.now.parameters) parameters.now }
    requires nodes { All (IsExprNode (table_names table.now)) (table_nodes table.now) }
    ensures { IfOk result (IsRight (plain_table table.now) (body_home table.now (text_of (table_names table.now) class) method.now body.now) (table_names table.now)
        (body_value table.now body.now)) }
{
    let mut scope = Scope {
        table,
        lineages,
        class,
        method,
        body,
        parameters,
    };
    match walk(alloc, table.exprs(), body.root, &mut scope) {
        Ok(root) => Ok(root),
        Err(_) => Err(NoMemory),
    }
}

// The least instance of a body: of a node within it, or of its own type, with the
// types of its parameters.
fn body_fault_with(
    alloc: Global,
    table: &Table,
    lineages: &Lineages,
    class: Name,
    method: &MethodEntry,
    body: &Body,
    parameters: &IndexMap<u32, Name>,
) -> Result<Option<Instance>, NoMemory>
    requires lineages { AreLineages table.now lineages.now }
    requires class { class.0 < length (table_names table.now) }
    requires method { IsMethodEntry (table_names table.now) (table_nodes table.now) method.now }
    requires body { IsBody (table_names table.now) (table_nodes table.now) (length method.now.parameters) body.now }
    requires parameters { TellsTypes (table_names table.now) (spot_texts (table_names table.now) body.now.parameters) (spot_texts (table_names table.now) method.now.parameters) parameters.now }
    requires nodes { All (IsExprNode (table_names table.now)) (table_nodes table.now) }
    ensures { IfOk result (IsLeastOf (BreaksBodyOf table.now (text_of (table_names table.now) class) method.now body.now)) }
{
    let root = typed_body(alloc, table, lineages, class, method, body, parameters)?;
    match root.found {
        Err(fault) => Ok(Some(fault)),
        Ok(kind) => {
            if is_below(table, lineages, kind, method.result.name) {
                Ok(None)
            } else {
                Ok(Some(instance(21, root.at)))
            }
        }
    }
}

// The least instance of a body: of a node within it, or of its own type.
fn body_fault(
    alloc: Global,
    table: &Table,
    lineages: &Lineages,
    class: Name,
    method: &MethodEntry,
    body: &Body,
) -> Result<Option<Instance>, NoMemory>
    requires lineages { AreLineages table.now lineages.now }
    requires class { class.0 < length (table_names table.now) }
    requires method { IsMethodEntry (table_names table.now) (table_nodes table.now) method.now }
    requires body { IsBody (table_names table.now) (table_nodes table.now) (length method.now.parameters) body.now }
    requires nodes { All (IsExprNode (table_names table.now)) (table_nodes table.now) }
    ensures { IfOk result (IsLeastOf (BreaksBodyOf table.now (text_of (table_names table.now) class) method.now body.now)) }
{
    let parameters = parameter_types(alloc, table, method, body)?;
    body_fault_with(alloc, table, lineages, class, method, body, &parameters)
}

// The least instance of the bodies that a method keeps.
fn method_fault(
    alloc: Global,
    table: &Table,
    lineages: &Lineages,
    class: Name,
    method: &MethodEntry,
) -> Result<Option<Instance>, NoMemory>
    requires lineages { AreLineages table.now lineages.now }
    requires class { class.0 < length (table_names table.now) }
    requires method { IsMethodEntry (table_names table.now) (table_nodes table.now) method.now }
    requires nodes { All (IsExprNode (table_names table.now)) (table_nodes table.now) }
    ensures { IfOk result (IsLeastOf (BreaksMethodOf table.now (text_of (table_names table.now) class) method.now)) }
{
    let mut least = None;
    for body in &method.bodies {
        let fault = body_fault(alloc, table, lineages, class, method, body)?;
        least = lesser(least, fault);
    }
    Ok(least)
}

// The least instance of the bodies of a class.
fn class_fault(
    alloc: Global,
    table: &Table,
    lineages: &Lineages,
    class: &ClassEntry,
) -> Result<Option<Instance>, NoMemory>
    requires lineages { AreLineages table.now lineages.now }
    requires class { IsClassEntry (table_names table.now) (table_nodes table.now) class.now }
    requires nodes { All (IsExprNode (table_names table.now)) (table_nodes table.now) }
    ensures { IfOk result (IsLeastOf (BreaksClassOf table.now class.now)) }
{
    let mut least = None;
    for method in &class.methods {
        let fault = method_fault(alloc, table, lineages, class.spot.name, method)?;
        least = lesser(least, fault);
    }
    Ok(least)
}

/// The least instance of a rule of layer 5: of a node of a body, or of a body's own type. Each body that a method keeps
/// is typed in its own class. The one error is want of memory.
pub fn bodies_fault(
    alloc: Global,
    table: &Table,
    lineages: &Lineages,
) -> Result<Option<Instance>, NoMemory>
    requires { AreLineages table.now lineages.now }
    ensures { IfOk result (IsLeastOf (BreaksBodies table.now)) }
{
    let mut least = None;
    for class in table.classes() {
        let fault = class_fault(alloc, table, lineages, class)?;
        least = lesser(least, fault);
    }
    Ok(least)
}
