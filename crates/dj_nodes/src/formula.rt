//! Formulas in an arena.
ghost use Rattle.std.specs.Prelude.{◌≡◌, ◌+◌, ◌-◌, ◌^◌, ◌<◌, ◌≤◌, ◌++◌, ◌∷◌, [], List, All, length, IfOk, OnOk, OnErr};
ghost use Rattle.std.specs.Str.{IsUtf8};
ghost use Rattle.arena_walk.specs.Tree.{size};
ghost use Rattle.arena_walk.specs.Forest.{trees};
ghost use Rattle.dj_names.specs.Texts.{Extends};
ghost use Rattle.dj_tree.specs.Arities.{formula_arity as node_arity};
ghost use Rattle.dj_tree.specs.Plain.{formula_form, plain_formula};
ghost use Rattle.dj_tree.specs.WellFormed.{IsFormulaNode};
ghost use Rattle.dj_tree.specs.declared.formula.FormulaNode.{FormulaNode};
ghost use Rattle.dj_formula_reader.specs.Laws.{parts, formula_of};
ghost use Rattle.dj_formula_reader.specs.View.{form_of, forms_of};
ghost use Rattle.dj_tree.specs.PostOrder.{KeepsNodes};
ghost use Rattle.dj_nodes.specs.PostOrder.{IsFormulaOrder};
ghost use Rattle.dj_nodes.specs.Texts.{FormulaFormText, FormulaTexts};

use crate::spot::add_spot;
use arena_walk::{Arena, NodeId};
use dj_formula_reader::FormulaMark;
use dj_names::Names;
use dj_tree::FormulaNode;
use std::alloc::AllocError as NoMemory;
use std::marker::Model;

/// The nodes of one formula in post-order. A clause sees the list of them.
#[derive(Drop)]
pub struct FormulaNodes {
    marks: Vec<FormulaMark>,
}

impl Model for FormulaNodes {
    ghost use Rattle.std.specs.Prelude.{List};
    ghost use Rattle.dj_formula_reader.specs.declared.machine.FormulaMark.{FormulaMark};
    ghost use Rattle.dj_nodes.specs.PostOrder.{IsFormulaOrder};

    ghost Value = { List FormulaMark };

    ghost view = { λ a. a.marks.items };

    ghost invariant = { λ a. IsFormulaOrder a.marks.items };
}

impl FormulaNodes {
    /// Nodes that are those of one formula in post-order. It takes no memory.
    pub fn new(marks: Vec<FormulaMark>) -> FormulaNodes
        requires { IsFormulaOrder marks.items }
        ensures { result ≡ marks.items }
    {
        FormulaNodes { marks }
    }

    /// The nodes, the root last.
    pub fn marks(&self) -> &[FormulaMark]
        ensures marks { result.now ≡ self.now }
        ensures order { IsFormulaOrder self.now }
    {
        self.marks.as_slice()
    }
}

// The node of a mark. Its name goes into the table.
fn formula_node(names: &mut Names, bytes: &[u8], mark: FormulaMark) -> Result<FormulaNode, NoMemory>
    requires text { FormulaFormText IsUtf8 (form_of bytes.now mark) }
    requires room { length names.old < 2 ^ 32 - 1 }
    ensures form { IfOk result (λ node. formula_form names.new node ≡ form_of bytes.now mark) }
    ensures arity { IfOk result (λ node. node_arity node ≡ parts (form_of bytes.now mark)) }
    ensures known { IfOk result (IsFormulaNode names.new) }
    ensures numbers { Extends names.old names.new }
    ensures few { length names.new ≤ length names.old + 1 }
{
    match mark {
        FormulaMark::True => Ok(FormulaNode::True),
        FormulaMark::False => Ok(FormulaNode::False),
        FormulaMark::Feature(token) => Ok(FormulaNode::Feature(add_spot(names, bytes, token)?)),
        FormulaMark::Not => Ok(FormulaNode::Not),
        FormulaMark::And => Ok(FormulaNode::And),
        FormulaMark::Or => Ok(FormulaNode::Or),
        FormulaMark::Implies => Ok(FormulaNode::Implies),
        FormulaMark::Same => Ok(FormulaNode::Same),
    }
}

// Adds the node of a mark, which finds the trees of its parts last in the arena.
fn add_node(
    names: &mut Names,
    formulas: &mut Arena<FormulaNode>,
    bytes: &[u8],
    mark: FormulaMark,
) -> Result<NodeId, NoMemory>
    requires text { FormulaFormText IsUtf8 (form_of bytes.now mark) }
    requires room { length names.old < 2 ^ 32 - 1 }
    requires space { length formulas.old < 2 ^ 32 - 1 }
    requires enough { parts (form_of bytes.now mark) ≤ length (trees node_arity formulas.old) }
    ensures number { IfOk result (λ at. at.0 ≡ length formulas.old) }
    ensures node { OnOk result ((node : FormulaNode) × (formulas.new ≡ formulas.old ++ node ∷ [])
        × (formula_form names.new node ≡ form_of bytes.now mark)
        × (node_arity node ≡ parts (form_of bytes.now mark))
        × IsFormulaNode names.new node) }
    ensures err { OnErr result (formulas.new ≡ formulas.old) }
    ensures numbers { Extends names.old names.new }
    ensures few { length names.new ≤ length names.old + 1 }
{
    let node = formula_node(names, bytes, mark)?;
    formulas.push(node)
}

/// Puts a formula into an arena and its names into a table, and gives its root. The text of each of its names
/// is UTF-8. Names and trees that were there keep their numbers; without memory, too, but then some of the
/// formula may have been added.
pub fn add_formula(
    names: &mut Names,
    formulas: &mut Arena<FormulaNode>,
    bytes: &[u8],
    nodes: &FormulaNodes,
) -> Result<NodeId, NoMemory>
    requires texts { FormulaTexts IsUtf8 (formula_of (forms_of bytes.now nodes.now)) }
    requires room { length names.old + size (formula_of (forms_of bytes.now nodes.now)) < 2 ^ 32 - 1 }
    requires space { length formulas.old + size (formula_of (forms_of bytes.now nodes.now)) < 2 ^ 32 - 1 }
    ensures tree { IfOk result (λ root. plain_formula names.new formulas.new root.0 ≡ formula_of (forms_of bytes.now nodes.now)) }
    ensures there { IfOk result (λ root. root.0 < length formulas.new) }
    ensures known { OnOk result (All (IsFormulaNode names.old) formulas.old → All (IsFormulaNode names.new) formulas.new) }
    ensures names_grow { Extends names.old names.new }
    ensures nodes_grow { KeepsNodes formulas.old formulas.new }
    ensures few_names { OnOk result (length names.new ≤ length names.old + size (formula_of (forms_of bytes.now nodes.now))) }
    ensures few_nodes { OnOk result (length formulas.new ≤ length formulas.old + size (formula_of (forms_of bytes.now nodes.now))) }
{
    let mut root = NodeId(0);
    for mark in nodes.marks() {
        root = add_node(names, formulas, bytes, *mark)?;
    }
    Ok(root)
}
