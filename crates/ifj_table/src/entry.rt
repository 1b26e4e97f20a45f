//! What a table keeps of classes and their members. Each name is one of the table's own, with the byte offset of the
//! declaration in force.
ghost use Rattle.std.specs.Prelude.{◌≡◌};

use crate::keyed::Keyed;
use arena_walk::NodeId;
use dj_names::Name;
use dj_tree::{Listed, Spot};

/// A field with its type.
#[derive(Clone, Copy, Debug, PartialEq, Eq)]
pub struct FieldEntry {
    pub spot: Spot,
    pub kind: Spot,
}

/// A body: the names of its parameters, and the root of its expression among the table's nodes.
#[derive(Drop)]
pub struct Body {
    pub parameters: Listed<Spot>,
    pub root: NodeId,
}

/// A method: its result type, its name, the types of its parameters, and its bodies, the oldest first.
#[derive(Drop)]
pub struct MethodEntry {
    pub result: Spot,
    pub spot: Spot,
    pub parameters: Listed<Spot>,
    pub bodies: Vec<Body>,
}

/// A class with its superclass. Its fields and its methods stand by the bytes of their names.
#[derive(Drop)]
pub struct ClassEntry {
    pub spot: Spot,
    pub parent: Spot,
    pub fields: Vec<FieldEntry>,
    pub methods: Vec<MethodEntry>,
}

impl Keyed for FieldEntry {
    ghost key_of = { λ f. f.spot };

    fn key(&self) -> Spot {
        self.spot
    }
}

impl Keyed for MethodEntry {
    ghost key_of = { λ m. m.spot };

    fn key(&self) -> Spot {
        self.spot
    }
}

impl Keyed for ClassEntry {
    ghost key_of = { λ c. c.spot };

    fn key(&self) -> Spot {
        self.spot
    }
}
