//! The product of a configuration.
ghost use Rattle.std.specs.Prelude.{◌≡◌, ℕ, length, IfOk, IfErr};
ghost use Rattle.dj_tree.specs.declared.source.Instance.{Instance};
ghost use Rattle.dj_calculus.specs.Products.{Product};
ghost use Rattle.dj_line.specs.Lines.{plain_line};
ghost use Rattle.dj_product_laws.specs.LineConflicts.{ConflictIn, PreventsProduct};
ghost use Rattle.ifj_table.specs.Tables.{plain_table};
ghost use Rattle.dj_apply.specs.ApplyErrors.{IsApplyError};
ghost use Rattle.dj_apply.specs.declared.products.ApplyError.TheVariants.{NoMemory as no_memory};

use crate::conflict_search::least_conflict;
use crate::growing::GrowingTable;
use crate::overlaps::Thing;
use crate::pass::pass;
use dj_line::{Config, Line};
use dj_tree::Instance;
use ifj_table::Table;
use std::alloc::{AllocError, Global};

/// Why a configuration has no product.
#[derive(Clone, Copy, Debug, PartialEq, Eq)]
pub enum ApplyError {
    /// The least rule of 1 to 8 that counts, with its places: for rule 1 those of two things that conflict, for the
    /// others that of the name in the operation.
    Broken(Instance),
    NoMemory,
}

impl From<AllocError> for ApplyError {
    ghost from_gives = { λ _ e. e ≡ no_memory };

    fn from(_error: AllocError) -> ApplyError {
        ApplyError::NoMemory
    }
}

/// The class table of a configuration, which every allowed order of its active deltas makes. There is none where two
/// active deltas of one part conflict, or else where an operation breaks a rule on the table before its part: then the
/// least such instance is told, by rule, place and second place.
pub fn product(alloc: Global, line: &Line, config: &Config) -> Result<Table, ApplyError>
    requires features { length config.now.chosen.items ≡ length (plain_line line.now).features }
    ensures product { IfOk result (λ table. Product (plain_line line.now) config.now.chosen.items (plain_table table)) }
    ensures clean { IfOk result (λ _. (i : Instance) → ¬ (PreventsProduct (plain_line line.now) config.now.chosen.items i)) }
    ensures broken { IfErr result (IsApplyError (plain_line line.now) config.now.chosen.items) }
{
    match least_conflict(alloc, line, config)? {
        Some(conflict) => Err(ApplyError::Broken(conflicting(conflict))),
        None => product_of_disjoint(alloc, line, config),
    }
}

// The instance of two things that conflict.
fn conflicting(conflict: Thing) -> Instance
    ensures { result ≡ record { rule = 1; at = conflict.first; second = conflict.second } }
{
    Instance {
        rule: 1,
        at: conflict.first,
        second: conflict.second,
    }
}

// The product, where no two active deltas of one part conflict.
fn product_of_disjoint(alloc: Global, line: &Line, config: &Config) -> Result<Table, ApplyError>
    requires features { length config.now.chosen.items ≡ length (plain_line line.now).features }
    requires disjoint { (first second : ℕ) → ¬ (ConflictIn (plain_line line.now) config.now.chosen.items first second) }
    ensures product { IfOk result (λ table. Product (plain_line line.now) config.now.chosen.items (plain_table table)) }
    ensures clean { IfOk result (λ _. (i : Instance) → ¬ (PreventsProduct (plain_line line.now) config.now.chosen.items i)) }
    ensures broken { IfErr result (IsApplyError (plain_line line.now) config.now.chosen.items) }
{
    let mut table = GrowingTable::new(alloc);
    match pass(alloc, &mut table, line, config)? {
        Some(broken) => Err(ApplyError::Broken(broken)),
        None => Ok(table.into_table()),
    }
}
