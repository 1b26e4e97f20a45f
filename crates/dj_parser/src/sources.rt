//! Whole files.
ghost use Rattle.std.specs.Prelude.{◌≡◌, ◌-◌, ◌^◌, ◌<◌, length, map, All, IfOk};
ghost use Rattle.std.specs.Str.{IsUtf8};
ghost use Rattle.dj_tree.specs.Plain.{plain_source, plain_java};
ghost use Rattle.dj_tree.specs.WellFormed.{IsWellFormed, IsWellFormedJava};
ghost use Rattle.dj_declarations.specs.View.{source_view, class_view};
ghost use Rattle.dj_parser.specs.Said.{said_each, said_source, said_class};

use crate::leaves::{resolve_formula, resolve_spot};
use crate::resolve::resolve_each;
use crate::tables::Tables;
use arena_walk::Arena;
use dj_declarations::{RawClass, RawSource};
use dj_names::Names;
use dj_tree::{JavaSource, Listed, Source};
use std::alloc::{AllocError as NoMemory, Global};

/// The product line that its declarations as tokens stand for.
pub fn resolve_source(alloc: Global, bytes: &[u8], raw: &RawSource) -> Result<Source, NoMemory>
    requires texts { All IsUtf8 (said_source (source_view bytes.now raw.now)) }
    requires room { length (said_source (source_view bytes.now raw.now)) < 2 ^ 32 - 1 }
    ensures stands { IfOk result (λ source. plain_source source ≡ source_view bytes.now raw.now) }
    ensures well_formed { IfOk result IsWellFormed }
{
    let mut tables = Tables {
        names: Names::new(alloc),
        formulas: Arena::new(alloc),
        exprs: Arena::new(alloc),
    };
    let title = resolve_spot(bytes, raw.title, &mut tables)?;
    let features = resolve_each(alloc, bytes, raw.features.as_slice(), &mut tables)?;
    let valid = resolve_formula(bytes, &raw.valid, &mut tables)?;
    let parts = resolve_each(alloc, bytes, raw.parts.as_slice(), &mut tables)?;
    let deltas = resolve_each(alloc, bytes, raw.deltas.as_slice(), &mut tables)?;
    let Tables {
        names,
        formulas,
        exprs,
    } = tables;
    Ok(Source {
        names,
        title,
        features: Listed::from_vec(features),
        valid,
        parts: Listed::from_vec(parts),
        deltas: Listed::from_vec(deltas),
        formulas,
        exprs,
    })
}

/// The Java file that its classes as tokens stand for.
pub fn resolve_java(alloc: Global, bytes: &[u8], raws: &[RawClass]) -> Result<JavaSource, NoMemory>
    requires texts { All IsUtf8 (said_each said_class (map (class_view bytes.now) raws.now)) }
    requires room { length (said_each said_class (map (class_view bytes.now) raws.now)) < 2 ^ 32 - 1 }
    ensures stands { IfOk result (λ source. plain_java source ≡ map (class_view bytes.now) raws.now) }
    ensures well_formed { IfOk result IsWellFormedJava }
{
    let mut tables = Tables {
        names: Names::new(alloc),
        formulas: Arena::new(alloc),
        exprs: Arena::new(alloc),
    };
    let classes = resolve_each(alloc, bytes, raws, &mut tables)?;
    let Tables { names, exprs, .. } = tables;
    Ok(JavaSource {
        names,
        classes: Listed::from_vec(classes),
        exprs,
    })
}
