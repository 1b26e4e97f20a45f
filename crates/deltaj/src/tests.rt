use dj_io::{Fail as Fault, MemoryFiles, MemorySink, SureFiles, SureSink};
use dj_run::{Status, run};
use std::alloc::{AllocError as NoMemory, Global};
use std::process::Abort;
use std::test::Fail;

const PLAIN: &str = "line L { features A; valid A; part p { D; } } delta D { adds class C { } }\n";

const CLASS_C: &str = "class C extends Object {\n}\n";

const USAGE: &str =
    "usage: deltaj check FILE | generate FILE CONFIG [ORDER] | verify FILE CERT | explain FILE | typecheck FILE | sample N | try N\n";

const NOT_BUILT: &str = "not built\n";

/// One file of the path `f`.
fn file(alloc: Global, bytes: &[u8]) -> Result<Vec<(String, Vec<u8>)>, NoMemory> {
    let mut files = Vec::new(alloc);
    files.push((
        String::from_str(alloc, "f")?,
        Vec::from_slice(alloc, bytes)?,
    ))?;
    Ok(files)
}

fn words(alloc: Global, line: &str) -> Result<Vec<String>, NoMemory> {
    let mut words = Vec::new(alloc);
    for word in line.split_whitespace() {
        words.push(String::from_str(alloc, word)?)?;
    }
    Ok(words)
}

/// Runs a command over one file.
fn answer(alloc: Global, bytes: &[u8], line: &str) -> Result<(Status, SureSink), NoMemory> {
    let words = words(alloc, line)?;
    let mut files = SureFiles::new(alloc, file(alloc, bytes)?)?;
    let mut sink = SureSink::with_room(alloc, 1000)?;
    let status = run(alloc, &words, &mut files, &mut sink);
    Ok((status, sink))
}

/// A command over one file is answered with this text and this status.
pub fn is_answered(
    rt: &impl Abort,
    alloc: Global,
    source: &str,
    line: &str,
    text: &str,
    status: Status,
) -> Result<(), Fail> {
    let (answered, sink) = answer(alloc, source.as_bytes(), line)?;
    assert_eq!(rt; answered, status, "at {line} of {source}");
    assert_eq!(rt; sink.bytes(), text.as_bytes(), "at {line} of {source}");
    Ok(())
}

#[test]
fn lines_are_generated_or_refused(rt: HostRuntime) -> Result<(), Fail> {
    let rows = [
        (
            "line L { features A; valid A; part p { D; } } delta D { adds class C { } }\n",
            "generate f A",
            "class C extends Object {\n}\n",
            Status::DONE,
        ),
        (
            "line L { features A; valid true; part p { D when A; } } delta D { adds class C { } }\n",
            "generate f -",
            "",
            Status::DONE,
        ),
        (
            "line L { features A; valid true; part p { D when A; } } delta D { adds class C { } }\n",
            "generate f A",
            "class C extends Object {\n}\n",
            Status::DONE,
        ),
        (
            "line L { features A; valid true; part p { D; E when A; } } delta D { adds class C { C g; Object f; } } delta E { adds class B { } }",
            "generate f A",
            "class B extends Object {\n}\nclass C extends Object {\n  Object f;\n  C g;\n}\n",
            Status::DONE,
        ),
        (
            "line L { features; valid true; part a { P; Q; } part b after a { R; } } delta P { adds class A { } } delta Q { adds class B { } } delta R { adds class C { } }",
            "generate f -",
            "class A extends Object {\n}\nclass B extends Object {\n}\nclass C extends Object {\n}\n",
            Status::DONE,
        ),
        (
            "line L { features; valid true; part a { P; Q; } part b after a { R; } } delta P { adds class A { } } delta Q { adds class B { } } delta R { adds class C { } }",
            "generate f - P,Q,R",
            "class A extends Object {\n}\nclass B extends Object {\n}\nclass C extends Object {\n}\n",
            Status::DONE,
        ),
        (
            "line L { features; valid true; part a { P; Q; } part b after a { R; } } delta P { adds class A { } } delta Q { adds class B { } } delta R { adds class C { } }",
            "generate f - Q,P,R",
            "class A extends Object {\n}\nclass B extends Object {\n}\nclass C extends Object {\n}\n",
            Status::DONE,
        ),
        (
            "line L { features; valid true; part a { P; Q; } part b after a { R; } } delta P { adds class A { } } delta Q { adds class B { } } delta R { adds class C { } }",
            "generate f - R,P,Q",
            "order refused: not allowed\n",
            Status::WORD_REFUSED,
        ),
        (
            "line L { features; valid true; part a { P; Q; } part b after a { R; } } delta P { adds class A { } } delta Q { adds class B { } } delta R { adds class C { } }",
            "generate f - P,X",
            "order refused: unknown delta X\n",
            Status::WORD_REFUSED,
        ),
        (
            "line L { features; valid true; part a { P; Q; } part b after a { R; } } delta P { adds class A { } } delta Q { adds class B { } } delta R { adds class C { } }",
            "generate f - P,Q",
            "order refused: not allowed\n",
            Status::WORD_REFUSED,
        ),
        (
            "line L { features A; valid A; part p { D; } } delta D { adds class C { } }\n",
            "generate f A,A",
            "configuration refused: repeated feature A\n",
            Status::WORD_REFUSED,
        ),
        (
            "line L { features A; valid A; part p { D; } } delta D { adds class C { } }\n",
            "generate f B",
            "configuration refused: unknown feature B\n",
            Status::WORD_REFUSED,
        ),
        (
            "line L { features A; valid A; part p { D; } } delta D { adds class C { } }\n",
            "generate f -",
            "configuration refused: not valid\n",
            Status::WORD_REFUSED,
        ),
        (
            "line L { features A; valid A; part p { D; } } delta D { adds class C { } }\n",
            "generate f A,",
            "configuration refused: unknown feature \n",
            Status::WORD_REFUSED,
        ),
        (
            "line L { features A; valid A & !A; }\n",
            "generate f A",
            "configuration refused: not valid\n",
            Status::WORD_REFUSED,
        ),
        (
            "line L { features; valid true; part p { X; Y; } }\ndelta X { adds class C { } }\ndelta Y { modifies class C { } }\n",
            "generate f -",
            "no\nconfiguration -\nrule 1 overlap: C at 2:22 and 3:26\n",
            Status::REFUTED,
        ),
        (
            "line L { features; valid true; part a { P; } part b after a { Q; R; } }\ndelta P { adds class C { } }\ndelta Q { modifies class C { adds C b; } }\ndelta R { modifies class C { adds C a; } }\n",
            "generate f - P,Q,R",
            "class C extends Object {\n  C a;\n  C b;\n}\n",
            Status::DONE,
        ),
        (
            "line L { features; valid true; part a { P; } part b after a { Q; R; } }\ndelta P { adds class C { } }\ndelta Q { modifies class C { adds C b; } }\ndelta R { modifies class C { adds C a; } }\n",
            "generate f - P,R,Q",
            "class C extends Object {\n  C a;\n  C b;\n}\n",
            Status::DONE,
        ),
        (
            "line L { features; valid true; part a { P; } part b after a { Q; R; } }\ndelta P { adds class C { } }\ndelta Q { modifies class C { adds C b; } }\ndelta R { modifies class C { adds C a; } }\n",
            "generate f - Q,P,R",
            "order refused: not allowed\n",
            Status::WORD_REFUSED,
        ),
        (
            "line L { features; valid true; part a { P; } part b after a { Q; R; } }\ndelta P { adds class C { } }\ndelta Q { modifies class C { adds C b; } }\ndelta R { modifies class C { adds C a; } }\n",
            "generate f - P,Q",
            "order refused: not allowed\n",
            Status::WORD_REFUSED,
        ),
        (
            "line L { features; valid true; part a { P; } part b after a { Q; R; } }\ndelta P { adds class C { } }\ndelta Q { modifies class C { adds C b; } }\ndelta R { modifies class C { adds C a; } }\n",
            "generate f - P,Q,S",
            "order refused: unknown delta S\n",
            Status::WORD_REFUSED,
        ),
        (
            "line L { features A, A; valid B; }",
            "generate f -",
            "refused at 1:22: repeated feature A\n",
            Status::FILE_REFUSED,
        ),
        (
            "line L { features A; valid B; }",
            "generate f -",
            "refused at 1:28: unknown feature B\n",
            Status::FILE_REFUSED,
        ),
        (
            "line L { features; valid true; } delta D { }",
            "generate f -",
            "refused at 1:40: delta not placed D\n",
            Status::FILE_REFUSED,
        ),
        (
            "line L { features; valid true; part p { D; } }",
            "generate f -",
            "refused at 1:41: unknown delta D\n",
            Status::FILE_REFUSED,
        ),
        (
            "line L { features; valid true; part p after q { } }",
            "generate f -",
            "refused at 1:45: unknown part q\n",
            Status::FILE_REFUSED,
        ),
        (
            "line L { features; valid true; part p { } part q { } }",
            "generate f -",
            "refused at 1:48: part not on the chain q\n",
            Status::FILE_REFUSED,
        ),
        (
            "line L { features; valid true; part p { D; } } delta D { adds class Object { } }",
            "generate f -",
            "refused at 1:69: reserved class Object\n",
            Status::FILE_REFUSED,
        ),
        (
            "line L { features; valid true; part p { D; } } delta D { adds class C { C m() { return original(); } } }",
            "generate f -",
            "refused at 1:88: original outside a modified method\n",
            Status::FILE_REFUSED,
        ),
        (
            "line L { features; valid true; part p { D; } } delta D { removes class C; modifies class C { } }",
            "generate f -",
            "refused at 1:90: repeated operation C\n",
            Status::FILE_REFUSED,
        ),
        (
            "",
            "generate f -",
            "refused at 1:1: syntax\n",
            Status::FILE_REFUSED,
        ),
        (
            "line L { features A valid A; }",
            "generate f -",
            "refused at 1:21: syntax\n",
            Status::FILE_REFUSED,
        ),
        (
            "line $",
            "generate f -",
            "refused at 1:6: bad character\n",
            Status::FILE_REFUSED,
        ),
        (
            "line L {\r\n  /* x",
            "generate f -",
            "refused at 2:3: comment not closed\n",
            Status::FILE_REFUSED,
        ),
        (
            "(((((((((((((((((((((((((((((((((((((((((((((((((((((((((((((((((((((((((((((((((((((((((((((((((((((((((((((((((((((((((((((((((((((((((((((((((((((((((((((((((((((((((((((((((((((((((((((((((((((((((((((((((((((((((((((((((((((((((((((((((((((((((((((((((",
            "generate f -",
            "refused at 1:257: more than 256 brackets open\n",
            Status::FILE_REFUSED,
        ),
        (
            "line L { features A, A; valid B; }",
            "generate f B,B",
            "refused at 1:22: repeated feature A\n",
            Status::FILE_REFUSED,
        ),
        (
            "line ß { features ü, ü; valid ü; }",
            "generate f -",
            "refused at 1:22: repeated feature ü\n",
            Status::FILE_REFUSED,
        ),
    ];
    for (source, line, text, status) in rows {
        is_answered(&rt, rt.alloc(), source, line, text, status)?;
    }
    Ok(())
}

#[test]
fn words_and_bytes_define_the_answer(rt: HostRuntime) -> Result<(), Fail> {
    let rows = [
        ("check f", "yes\n", Status::DONE),
        (
            "typecheck f",
            "refused at 1:1: syntax\n",
            Status::FILE_REFUSED,
        ),
        ("typecheck absent", "yes\n", Status::DONE),
        ("explain f", NOT_BUILT, Status::NOT_BUILT),
        ("sample 1", NOT_BUILT, Status::NOT_BUILT),
        ("try 64", NOT_BUILT, Status::NOT_BUILT),
        (
            "generate absent -",
            "refused at 1:1: syntax\n",
            Status::FILE_REFUSED,
        ),
        ("", USAGE, Status::USAGE),
        ("check", USAGE, Status::USAGE),
        ("generate", USAGE, Status::USAGE),
        ("generate f", USAGE, Status::USAGE),
        ("--help", USAGE, Status::USAGE),
        ("sample 0", USAGE, Status::USAGE),
        ("sample 65", USAGE, Status::USAGE),
        ("sample 07", USAGE, Status::USAGE),
        ("try x", USAGE, Status::USAGE),
    ];
    for (line, text, status) in rows {
        let (answered, sink) = answer(rt.alloc(), PLAIN.as_bytes(), line)?;
        assert_eq!(rt; answered, status, "at {line}");
        assert_eq!(rt; sink.bytes(), text.as_bytes(), "at {line}");
    }
    let (status, sink) = answer(rt.alloc(), b"line \xff", "generate f -")?;
    assert_eq!(rt; status, Status::FILE_REFUSED);
    assert_eq!(rt; sink.bytes(), b"refused at 1:6: not UTF-8\n".as_slice());
    let place = b"line L {\r features \xc3\x9f;\n\nvalid true; x";
    let (status, sink) = answer(rt.alloc(), place, "generate f -")?;
    assert_eq!(rt; status, Status::FILE_REFUSED);
    assert_eq!(rt; sink.bytes(), b"refused at 4:13: syntax\n".as_slice());
    let long = vec![in rt.alloc(); b' '; 4_194_305]?;
    let (status, sink) = answer(rt.alloc(), &long, "generate f -")?;
    assert_eq!(rt; status, Status::FILE_REFUSED);
    assert_eq!(rt;
        sink.bytes(),
        b"refused: longer than 4194304 bytes\n".as_slice()
    );
    Ok(())
}

/// Runs a command while a read call or a put call fails, where its number isn't 0, and a failed put keeps some bytes.
fn run_with_faults(
    alloc: Global,
    reads: u64,
    put: Fault,
) -> Result<(Status, MemorySink), NoMemory> {
    let words = words(alloc, "generate f A")?;
    let files = file(alloc, PLAIN.as_bytes())?;
    let mut files = MemoryFiles::new(alloc, files, vec![in alloc; reads; 1]?)?;
    let mut sink = MemorySink::with_room(alloc, 1000, vec![in alloc; put; 1]?)?;
    let status = run(alloc, &words, &mut files, &mut sink);
    Ok((status, sink))
}

#[test]
fn faults_give_their_statuses(rt: HostRuntime) -> Result<(), Fail> {
    let alloc = rt.alloc();
    let none = Fault { call: 0, kept: 0 };
    let (status, sink) = run_with_faults(alloc, 0, none)?;
    assert_eq!(rt; status, Status::DONE);
    assert_eq!(rt; sink.bytes(), CLASS_C.as_bytes());
    for read in 1..3 {
        let (status, sink) = run_with_faults(alloc, read, none)?;
        assert_eq!(rt; status, Status::READ_FAILED, "at {read}");
        assert_eq!(rt; sink.bytes(), b"".as_slice(), "at {read}");
    }
    for kept in 0..28 {
        let (status, sink) = run_with_faults(alloc, 0, Fault { call: 1, kept })?;
        assert_eq!(rt; status, Status::WRITE_FAILED, "at {kept}");
        assert_eq!(rt; sink.bytes(), &CLASS_C.as_bytes()[..kept], "at {kept}");
    }
    Ok(())
}
