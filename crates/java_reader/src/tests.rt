use super::*;
use dj_lexer::MAX_LENGTH;
use std::alloc::Global;
use std::test::Fail;

/// Why bytes are refused, or None where they are a Java file.
fn refusal_of(alloc: Global, bytes: &[u8]) -> Result<Option<JavaError>, Fail> {
    if bytes.len() > MAX_LENGTH {
        return Err(Fail::from("too long"));
    }
    match read(alloc, bytes) {
        Ok(_) => Ok(None),
        Err(JavaError::NoMemory) => Err(Fail::from("no memory")),
        Err(error) => Ok(Some(error)),
    }
}

fn refusal_of_text(alloc: Global, text: &str) -> Result<Option<JavaError>, Fail> {
    refusal_of(alloc, text.as_bytes())
}

/// The places of a class, of its superclass, of its fields and of its methods, these by the bytes of their names.
fn places_of(alloc: Global, text: &str, class: &str) -> Result<Vec<u32>, Fail> {
    let mut places = Vec::new(alloc);
    if text.len() > MAX_LENGTH {
        return Err(Fail::from("too long"));
    }
    let Ok(table) = read(alloc, text.as_bytes()) else {
        return Err(Fail::from("no table"));
    };
    let Some(entry) = table.class_named(class) else {
        return Err(Fail::from("no class"));
    };
    places.push(entry.spot.at)?;
    places.push(entry.parent.at)?;
    for field in entry.fields.as_slice() {
        places.push(field.spot.at)?;
    }
    for method in entry.methods.as_slice() {
        places.push(method.spot.at)?;
    }
    Ok(places)
}

#[test]
fn files_and_their_first_faults(rt: HostRuntime) -> Result<(), Fail> {
    let rows = [
        ("", None),
        ("class A { A f", Some(JavaError::Syntax(13))),
        (
            "class A { } class A { }",
            Some(JavaError::Repeated(JavaFault::Class, 18)),
        ),
        (
            "class Object { }",
            Some(JavaError::Repeated(JavaFault::Class, 6)),
        ),
        (
            "class A { } class Object { } class A { }",
            Some(JavaError::Repeated(JavaFault::Class, 18)),
        ),
        (
            "class A { A f; B f; }",
            Some(JavaError::Repeated(JavaFault::Member, 17)),
        ),
        (
            "class A { A m() { return this; } B m(A x) { return x; } }",
            Some(JavaError::Repeated(JavaFault::Member, 35)),
        ),
        ("class A { A f() { return this; } A f; }", None),
        (
            "class A { A m(A x, B x) { return x; } }",
            Some(JavaError::Repeated(JavaFault::Parameter, 21)),
        ),
        (
            "class A { A m(A x) { return x; } A n(A x, B x) { return x; } }",
            Some(JavaError::Repeated(JavaFault::Parameter, 44)),
        ),
        (
            "class A { A f; B f; } class A { }",
            Some(JavaError::Repeated(JavaFault::Class, 28)),
        ),
        (
            "class A { A m(A x, B x) { return x; } } class Object { }",
            Some(JavaError::Repeated(JavaFault::Class, 46)),
        ),
        (
            "class A { A m(A x, B x) { return x; } A f; B f; }",
            Some(JavaError::Repeated(JavaFault::Member, 45)),
        ),
        (
            "class A { A f; } /* A",
            Some(JavaError::Lex(LexFault::OpenComment(17))),
        ),
        (
            "class A { } class A { } #",
            Some(JavaError::Lex(LexFault::BadCharacter(24))),
        ),
    ];
    for (text, want) in rows {
        let found = refusal_of_text(rt.alloc(), text)?;
        assert_eq!(rt; found, want, "of {text:?}");
    }
    let found = refusal_of(rt.alloc(), b"class \xff")?;
    assert_eq!(rt; found, Some(JavaError::Lex(LexFault::NotUtf8(6))));
    let found = refusal_of(rt.alloc(), &[b'('; 257])?;
    assert_eq!(rt; found, Some(JavaError::Lex(LexFault::TooDeep(256))));
    let places = places_of(
        rt.alloc(),
        "class B extends A { B g; B n() { return this; } A f; A m(A g) { return g; } } class A { }",
        "B",
    )?;
    assert_eq!(rt; places.as_slice(), [6, 16, 50, 22, 55, 27].as_slice());
    one_answer();
    Ok(())
}
