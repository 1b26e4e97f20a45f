//! The product of a configuration, typed.
ghost use Rattle.std.specs.Prelude.{◌≡◌, length, OnOk, IfOk, IfErr};
ghost use Rattle.dj_tree.specs.declared.source.Instance.{Instance};
ghost use Rattle.dj_calculus.specs.Instances.{IsLeast};
ghost use Rattle.dj_calculus.specs.LineRules.{Counts};
ghost use Rattle.dj_calculus.specs.Products.{Product};
ghost use Rattle.dj_calculus.specs.Typing.{WellTyped};
ghost use Rattle.dj_calculus.specs.Good.{GoodAt};
ghost use Rattle.dj_line.specs.Lines.{plain_line};
ghost use Rattle.dj_product_laws.specs.LineConflicts.{PreventsProduct};
ghost use Rattle.ifj_table.specs.Tables.{plain_table};
ghost use Rattle.dj_variant.specs.Broken.{IfBroken};
ghost use Rattle.dj_variant.specs.declared.typed_product.VariantError.TheVariants.{NoMemory as no_memory};

use dj_apply::{ApplyError, product};
use dj_line::{Config, Line};
use dj_tree::Instance;
use ifj_table::Table;
use ifj_typing::{TypeError, type_table};
use std::alloc::{AllocError, Global};

/// Why a configuration has no well typed product.
#[derive(Clone, Copy, Debug, PartialEq, Eq)]
pub enum VariantError {
    /// The least instance that counts, by rule, place and second place.
    Broken(Instance),
    NoMemory,
}

impl From<AllocError> for VariantError {
    ghost from_gives = { λ _ e. e ≡ no_memory };

    fn from(_error: AllocError) -> VariantError {
        VariantError::NoMemory
    }
}

/// The class table of a configuration, which every allowed order of its active deltas makes, where it is well typed: so
/// the configuration is good (`GoodAt`). Where it isn't good, some instance of a rule counts in it, and the least one is
/// told. `NoMemory` is for want of memory alone.
pub fn variant(alloc: Global, line: &Line, config: &Config) -> Result<Table, VariantError>
    requires features { length config.now.chosen.items ≡ length (plain_line line.now).features }
    ensures product { IfOk result (λ table. Product (plain_line line.now) config.now.chosen.items (plain_table table)) }
    ensures typed { IfOk result (λ table. WellTyped (plain_table table)) }
    ensures good { OnOk result (GoodAt (plain_line line.now) config.now.chosen.items) }
    ensures least { IfErr result (λ error. IfBroken error (IsLeast (Counts (plain_line line.now) config.now.chosen.items))) }
    ensures bad { IfErr result (λ error. IfBroken error (λ _. ¬ (GoodAt (plain_line line.now) config.now.chosen.items))) }
{
    match product(alloc, line, config) {
        Ok(table) => judged(alloc, line, config, table),
        Err(ApplyError::Broken(instance)) => Err(VariantError::Broken(instance)),
        Err(ApplyError::NoMemory) => Err(VariantError::NoMemory),
    }
}

// The product of a configuration, where it is well typed.
fn judged(alloc: Global, line: &Line, config: &Config, table: Table) -> Result<Table, VariantError>
    requires product { Product (plain_line line.now) config.now.chosen.items (plain_table table) }
    requires clean { (i : Instance) → ¬ (PreventsProduct (plain_line line.now) config.now.chosen.items i) }
    ensures product { IfOk result (λ typed. Product (plain_line line.now) config.now.chosen.items (plain_table typed)) }
    ensures typed { IfOk result (λ typed. WellTyped (plain_table typed)) }
    ensures good { OnOk result (GoodAt (plain_line line.now) config.now.chosen.items) }
    ensures least { IfErr result (λ error. IfBroken error (IsLeast (Counts (plain_line line.now) config.now.chosen.items))) }
    ensures bad { IfErr result (λ error. IfBroken error (λ _. ¬ (GoodAt (plain_line line.now) config.now.chosen.items))) }
{
    match type_table(alloc, &table) {
        Ok(()) => Ok(table),
        Err(TypeError::Broken(instance)) => Err(VariantError::Broken(instance)),
        Err(TypeError::NoMemory) => Err(VariantError::NoMemory),
    }
}
