use super::*;
use dj_faults::LineFault;
use dj_line::{ConfigError, Line};
use dj_refusals::Refusal;
use std::alloc::{AllocError, Global};
use std::process::Abort;
use std::test::Fail;

/// Why a text is refused, or None where it is an accepted line.
fn refusal_of(rt: &impl Abort, alloc: Global, text: &str) -> Result<Option<Refusal>, Fail> {
    assert!(rt; text.len() <= 4_194_304);
    match read_line(alloc, text.as_bytes()) {
        Ok(_) => Ok(None),
        Err(FileError::Refused(refusal)) => Ok(Some(refusal)),
        Err(FileError::NoMemory) => Err(Fail::from("no memory")),
    }
}

#[test]
fn each_fault_is_told_at_its_least_place(rt: HostRuntime) -> Result<(), Fail> {
    let rows = [
        (
            "line L { features A, A; valid B; }",
            LineFault::RepeatedFeature,
            21,
        ),
        (
            "line L { features A; valid B; }",
            LineFault::UnknownFeature,
            27,
        ),
        (
            "line L { features A; valid A; part p { D when A & (A | !B); } } delta D { }",
            LineFault::UnknownFeature,
            56,
        ),
        (
            "line L { features; valid true; part p { D; } } delta D { } delta D { }",
            LineFault::RepeatedDelta,
            65,
        ),
        (
            "line L { features; valid true; part p { D; } }",
            LineFault::UnknownDelta,
            40,
        ),
        (
            "line L { features; valid true; } delta D { }",
            LineFault::DeltaNotPlaced,
            39,
        ),
        (
            "line L { features; valid true; part p { D; } part q after p { D; } } delta D { }",
            LineFault::DeltaPlacedTwice,
            62,
        ),
        (
            "line L { features; valid true; part p { } part p after p { } }",
            LineFault::RepeatedPart,
            47,
        ),
        (
            "line L { features; valid true; part p after q { } }",
            LineFault::UnknownPart,
            44,
        ),
        (
            "line L { features; valid true; part p { } part q { } }",
            LineFault::PartsNoChain,
            47,
        ),
        (
            "line L { features; valid true; part r after q { } part q { } part p after q { } }",
            LineFault::PartsNoChain,
            66,
        ),
        (
            "line L { features; valid true; part p after q { } part q after p { } }",
            LineFault::PartsNoChain,
            36,
        ),
        (
            "line L { features; valid true; part p { D; } } delta D { removes class C; modifies class C { } }",
            LineFault::RepeatedOperation,
            89,
        ),
        (
            "line L { features; valid true; part p { D; } } delta D { modifies class C { adds C f; removes field f; } }",
            LineFault::RepeatedOperation,
            100,
        ),
        (
            "line L { features; valid true; part p { D; } } delta D { modifies class C { modifies C m() { return this; } removes method m; } }",
            LineFault::RepeatedOperation,
            123,
        ),
        (
            "line L { features; valid true; part p { D; } } delta D { adds class C { C f; C m() { return this; } D f; } }",
            LineFault::RepeatedMember,
            102,
        ),
        (
            "line L { features; valid true; part p { D; } } delta D { adds class C { C m() { return this; } C f; D m() { return this; } } }",
            LineFault::RepeatedMember,
            102,
        ),
        (
            "line L { features; valid true; part p { D; } } delta D { adds class C { C m(C x, D x) { return x; } } }",
            LineFault::RepeatedParameter,
            83,
        ),
        (
            "line L { features; valid true; part p { D; } } delta D { modifies class C { modifies C m(C x, D x) { return x; } } }",
            LineFault::RepeatedParameter,
            96,
        ),
        (
            "line L { features; valid true; part p { D; } } delta D { adds class Object { } }",
            LineFault::ReservedClass,
            68,
        ),
        (
            "line L { features; valid true; part p { D; } } delta D { adds class C { C m() { return original(); } } }",
            LineFault::OriginalOutside,
            87,
        ),
        (
            "line L { features; valid true; part p { D; } } delta D { modifies class C { adds C m(C x) { return (C) x.n(original(x)); } } }",
            LineFault::OriginalOutside,
            107,
        ),
        (
            "line L { features; valid true; part p { U; D; } } delta D { } delta D { }",
            LineFault::RepeatedDelta,
            68,
        ),
        (
            "line L { features; valid true; part p { D; } } delta E { }",
            LineFault::UnknownDelta,
            40,
        ),
        (
            "line L { features; valid true; part p { D; D; } } delta D { } delta E { }",
            LineFault::DeltaNotPlaced,
            68,
        ),
        (
            "line L { features; valid true; part p { D; } part p { D; } } delta D { }",
            LineFault::DeltaPlacedTwice,
            54,
        ),
        (
            "line L { features; valid true; part p after q { } part p { } }",
            LineFault::RepeatedPart,
            55,
        ),
        (
            "line L { features; valid true; part p { } part q { } part r after s { } }",
            LineFault::UnknownPart,
            66,
        ),
        (
            "line L { features; valid true; part p { D; } part q { } } delta D { removes class C; removes class C; }",
            LineFault::PartsNoChain,
            50,
        ),
        (
            "line L { features; valid true; part p { D; } } delta D { adds class C { C f; C f; } removes class C; }",
            LineFault::RepeatedOperation,
            98,
        ),
        (
            "line L { features; valid true; part p { D; } } delta D { adds class C { C m(C x, C x) { return x; } C f; C f; } }",
            LineFault::RepeatedMember,
            107,
        ),
        (
            "line L { features; valid true; part p { D; } } delta D { adds class Object { } adds class C { C m(C x, C x) { return x; } } }",
            LineFault::RepeatedParameter,
            105,
        ),
        (
            "line L { features; valid true; part p { D; } } delta D { adds class C { C m() { return original(); } } adds class Object { } }",
            LineFault::ReservedClass,
            114,
        ),
    ];
    for (text, fault, at) in rows {
        let refusal = refusal_of(&rt, rt.alloc(), text)?;
        assert_eq!(rt; refusal, Some(Refusal::Line(fault, at)), "at {text}");
    }
    Ok(())
}

/// A line with so many features, whose formula names the last of them.
fn line_with_features(alloc: Global, count: u32) -> Result<String, AllocError> {
    let mut text = String::from_str(alloc, "line L { features F1")?;
    for number in 1..count {
        write!(&mut text, ", F{}", number + 1)?;
    }
    write!(&mut text, "; valid F{count}; }}")?;
    Ok(text)
}

#[test]
fn lines_without_faults_and_with_many_features(rt: HostRuntime) -> Result<(), Fail> {
    let rows = [
        "line L { features; valid true; }",
        "line L { features A, B; valid A & !B; part r after q { R; } part p { P when A; } part q after p { } } delta R { modifies class C { modifies C m() { return original(); } } } delta P { adds class C { C m; C m() { return this; } } }",
    ];
    for text in rows {
        assert_eq!(rt; refusal_of(&rt, rt.alloc(), text)?, None, "at {text}");
    }
    let most = line_with_features(rt.alloc(), 4096)?;
    assert_eq!(rt; refusal_of(&rt, rt.alloc(), &most)?, None);
    let more = line_with_features(rt.alloc(), 4097)?;
    assert_eq!(rt;
        refusal_of(&rt, rt.alloc(), &more)?,
        Some(Refusal::Line(LineFault::TooManyFeatures, 27583))
    );
    Ok(())
}

const SHAPES: &str =
    "line S { features A, B, C; valid !A & B | C -> A <-> B; part b after a { R; U when C; } part a { P; Q when A; } } delta P { } delta Q { } delta R { } delta U { }";

/// The line of a text without faults.
fn line_of(rt: &impl Abort, alloc: Global, text: &str) -> Result<Line, Fail> {
    assert!(rt; text.len() <= 4_194_304);
    match read_line(alloc, text.as_bytes()) {
        Ok(line) => Ok(line),
        Err(_) => Err(Fail::from("no line")),
    }
}

#[test]
fn words_choose_configurations(rt: HostRuntime) -> Result<(), Fail> {
    let line = line_of(&rt, rt.alloc(), SHAPES)?;
    let rows: [(&str, Result<&[bool], ConfigError>); 9] = [
        ("A,B", Ok(&[true, true, false])),
        ("C,B,A", Ok(&[true, true, true])),
        ("-", Err(ConfigError::NotValid)),
        ("A", Err(ConfigError::NotValid)),
        ("A,A", Err(ConfigError::RepeatedFeature(1))),
        ("X", Err(ConfigError::UnknownFeature(0))),
        ("", Err(ConfigError::UnknownFeature(0))),
        ("A,", Err(ConfigError::UnknownFeature(1))),
        ("A,X,A", Err(ConfigError::UnknownFeature(1))),
    ];
    for (word, wanted) in rows {
        match (line.config_of(rt.alloc(), word), wanted) {
            (Ok(config), Ok(chosen)) => assert!(rt; config.chosen.as_slice() == chosen, "{word}"),
            (Err(error), Err(want)) => assert!(rt; error == want, "{word}"),
            _ => return Err(Fail::from("another answer")),
        }
    }
    Ok(())
}

#[test]
fn parts_and_default_orders_are_told(rt: HostRuntime) -> Result<(), Fail> {
    let line = line_of(&rt, rt.alloc(), SHAPES)?;
    assert_eq!(rt; line.feature_count(), 3);
    assert_eq!(rt; line.delta_count(), 4);
    assert_eq!(rt; line.part_count(), 2);
    assert!(rt; line.items(1) == [0, 1].as_slice());
    assert!(rt; line.items(2) == [2, 3].as_slice());
    assert_eq!(rt; line.part_of(1), 1);
    assert_eq!(rt; line.part_of(2), 2);
    let Ok(config) = line.config_of(rt.alloc(), "A,B") else {
        return Err(Fail::from("no configuration"));
    };
    let order = line.default_order(rt.alloc(), &config)?;
    assert!(rt; order.deltas.as_slice() == [0, 1, 2].as_slice());
    Ok(())
}
