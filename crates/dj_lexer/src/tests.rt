use crate::{
    Dialect, LexError, LexFault, MAX_LENGTH, TokenKind, lex, one_answer, one_token_list,
    token_spans,
};
use std::alloc::Global;
use std::test::Fail;

/// What `lex` answers: each token's kind and ends and the length, or the fault.
fn answer(alloc: Global, text: &[u8], dialect: Dialect) -> Result<String, Fail> {
    let mut shown = String::new(alloc);
    if text.len() > MAX_LENGTH {
        shown.push_str("too long")?;
        return Ok(shown);
    }
    let fault = match lex(alloc, text, dialect) {
        Ok(tokens) => {
            for token in &tokens.list {
                let mark = if token.kind == TokenKind::Word {
                    "w"
                } else {
                    "s"
                };
                let from = token.from;
                let to = token.to;
                write!(shown, "{mark}{from}-{to} ")?;
            }
            let end = tokens.end;
            write!(shown, "end {end}")?;
            return Ok(shown);
        }
        Err(LexError::NotUtf8(at)) => LexFault::NotUtf8(at),
        Err(LexError::BadCharacter(at)) => LexFault::BadCharacter(at),
        Err(LexError::OpenComment(at)) => LexFault::OpenComment(at),
        Err(LexError::TooDeep(at)) => LexFault::TooDeep(at),
        Err(LexError::NoMemory) => {
            shown.push_str("NoMemory")?;
            return Ok(shown);
        }
    };
    write!(shown, "{fault:?}")?;
    Ok(shown)
}

#[test]
fn texts(rt: HostRuntime) -> Result<(), Fail> {
    let line = [
        ("", "end 0"),
        ("a<->b", "w0-1 s1-4 w4-5 end 5"),
        ("a||b|c", "w0-1 s1-3 w3-4 s4-5 w5-6 end 6"),
        ("a->b", "w0-1 s1-3 w3-4 end 4"),
        ("&&&!=", "s0-2 s2-3 s3-4 s4-5 end 5"),
        ("a<b", "BadCharacter(1)"),
        ("-", "BadCharacter(0)"),
        ("<-", "BadCharacter(0)"),
        ("-->", "BadCharacter(0)"),
        ("$a", "BadCharacter(0)"),
        ("a$b", "BadCharacter(1)"),
        ("_", "BadCharacter(0)"),
        ("x _ y", "BadCharacter(2)"),
        ("_a a_ __", "w0-2 w3-5 w6-8 end 8"),
        ("Größe;", "w0-7 s7-8 end 8"),
        ("a/b", "BadCharacter(1)"),
        ("a 1", "BadCharacter(2)"),
        ("a1", "w0-2 end 2"),
        ("/* x", "OpenComment(0)"),
        ("a /*/", "OpenComment(2)"),
        ("//x", "end 3"),
        ("a//b\rc//\nd", "w0-1 w5-6 w9-10 end 10"),
        ("/**/a", "w4-5 end 5"),
        ("/***/", "end 5"),
        ("/* /* */ */", "BadCharacter(9)"),
        ("// /*\n- /*", "BadCharacter(6)"),
        (" \t\x0c\r\n.", "s5-6 end 6"),
        ("\u{feff}a", "BadCharacter(0)"),
        ("a\u{a0}b", "BadCharacter(1)"),
        ("ß\x1a", "BadCharacter(2)"),
    ];
    for (text, want) in line {
        let found = answer(rt.alloc(), text.as_bytes(), Dialect::Line)?;
        assert_eq!(rt; found.as_str(), want, "in a line, {text:?}");
    }
    let java = [
        ("$a", "w0-2 end 2"),
        ("a$b $ _$", "w0-3 w4-5 w6-8 end 8"),
        ("_", "BadCharacter(0)"),
        ("1", "BadCharacter(0)"),
        (
            "{x.y=(z),w;}",
            "s0-1 w1-2 s2-3 w3-4 s4-5 s5-6 w6-7 s7-8 s8-9 w9-10 s10-11 s11-12 end 12",
        ),
        ("a&b", "BadCharacter(1)"),
        ("a->b", "BadCharacter(1)"),
        ("!a", "BadCharacter(0)"),
    ];
    for (text, want) in java {
        let found = answer(rt.alloc(), text.as_bytes(), Dialect::Java)?;
        assert_eq!(rt; found.as_str(), want, "in Java, {text:?}");
    }
    Ok(())
}

#[test]
fn bytes_and_depth(rt: HostRuntime) -> Result<(), Fail> {
    let broken: [(&[u8], &str); 5] = [
        (b"line \xff", "NotUtf8(5)"),
        (b"a\xc3", "NotUtf8(1)"),
        (b"\xed\xa0\x80", "NotUtf8(0)"),
        (b"\xc3\x9f\xc0\x80", "NotUtf8(2)"),
        (b"- \xff", "NotUtf8(2)"),
    ];
    for (bytes, want) in broken {
        let found = answer(rt.alloc(), bytes, Dialect::Line)?;
        assert_eq!(rt; found.as_str(), want, "at {bytes:?}");
    }
    let rows = [
        (")})", 256, None),
        ("", 257, Some("TooDeep(256)")),
        ("))", 258, Some("TooDeep(258)")),
        ("(){}", 257, Some("TooDeep(260)")),
    ];
    for (front, open, want) in rows {
        let mut text = String::from_str(rt.alloc(), front)?;
        for at in 0..open {
            text.push(if at % 2 == 0 { '(' } else { '{' })?;
        }
        let found = answer(rt.alloc(), text.as_bytes(), Dialect::Java)?;
        match want {
            Some(fault) => assert_eq!(rt; found.as_str(), fault, "after {front:?}"),
            None => assert!(rt; found.ends_with("end 259"), "after {front:?}"),
        }
    }
    one_token_list();
    one_answer();
    token_spans();
    Ok(())
}
