//! From a configuration to its Java text.
ghost use Rattle.std.specs.Prelude.{◌≡◌, length, IfOk, IfErr};
ghost use Rattle.dj_calculus.specs.Instances.{IsLeast};
ghost use Rattle.dj_calculus.specs.LineRules.{Counts};
ghost use Rattle.dj_calculus.specs.Good.{GoodAt};
ghost use Rattle.dj_line.specs.Lines.{plain_line};
ghost use Rattle.dj_variant.specs.Broken.{IfBroken};
ghost use Rattle.dj_generate.specs.Generated.{IsGenerated};

use dj_calculus_laws::{flat_tables, flattenable_products};
use dj_line::{Config, Line};
use dj_variant::{VariantError, variant};
use ifj_flatten::flatten;
use java_text::write;
use java_text_laws::{flat_products_are_writable, texts_read_back};
use std::alloc::Global;

/// The canonical Java text of a configuration: its product, with each kept version of a method as a method of its own.
/// No order stands in it: every allowed order makes the same product. `IsGenerated` says what holds of the text. Where
/// the configuration isn't good, the least instance that counts in it is told, as `dj_variant::variant` does.
pub fn generate(alloc: Global, line: &Line, config: &Config) -> Result<Vec<u8>, VariantError>
    requires features { length config.now.chosen.items ≡ length (plain_line line.now).features }
    ensures generated { IfOk result (λ text. IsGenerated (plain_line line.now) config.now.chosen.items text.items) }
    ensures least { IfErr result (λ error. IfBroken error (IsLeast (Counts (plain_line line.now) config.now.chosen.items))) }
    ensures bad { IfErr result (λ error. IfBroken error (λ _. ¬ (GoodAt (plain_line line.now) config.now.chosen.items))) }
{
    // The line is accepted, and tokens spell it.
    line.source();
    // So its products have flat tables, which are typed and have a text that reads back.
    flattenable_products();
    flat_tables();
    flat_products_are_writable();
    texts_read_back();
    let table = variant(alloc, line, config)?;
    let flat = flatten(alloc, &table)?;
    let text = write(alloc, &flat)?;
    Ok(text)
}
