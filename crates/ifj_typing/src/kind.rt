//! What is known of an expression once it was judged.
ghost use Rattle.std.specs.Prelude.{◌≡◌};

use dj_names::Name;
use dj_tree::Instance;

/// The type of an expression: that of `null`, or a class by its name.
#[derive(Clone, Copy, Debug, PartialEq, Eq)]
pub enum Kind {
    Null,
    Class(Name),
}

/// An expression that was judged: the byte offset of its place, and its type, or the least instance of a rule that is
/// broken within it.
#[derive(Clone, Copy, Debug, PartialEq, Eq)]
pub struct Typed {
    pub at: u32,
    pub found: Result<Kind, Instance>,
}

/// The instance of a rule at a byte offset.
pub fn instance(rule: u8, at: u32) -> Instance
    ensures { result ≡ record { rule = rule; at = at; second = at } }
{
    Instance {
        rule,
        at,
        second: at,
    }
}
