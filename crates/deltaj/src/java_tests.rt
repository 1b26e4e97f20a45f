//! What `typecheck` answers of Java files.
use crate::tests::is_answered;
use dj_run::Status;
use std::alloc::{AllocError as NoMemory, Global};
use std::process::Abort;
use std::test::Fail;

const PLAIN: &str = "class A { A a() { return ";

const WITH_FIELD: &str = "class A { A f; A g(A x) { return ";

/// Each rule of a class table, broken by a smallest file.
#[test]
fn broken_rules_of_a_file_are_told(rt: HostRuntime) -> Result<(), Fail> {
    let rows = [
        (
            "class A extends Z { }",
            "typecheck f",
            "no\nrule 9 unknown superclass: Z at 1:17\n",
            Status::REFUTED,
        ),
        (
            "class A extends A { }",
            "typecheck f",
            "no\nrule 10 circular superclasses: A at 1:17\n",
            Status::REFUTED,
        ),
        (
            "class A { Z f; }",
            "typecheck f",
            "no\nrule 11 unknown type: Z at 1:11\n",
            Status::REFUTED,
        ),
        (
            "class A { A f; } class B extends A { A f; }",
            "typecheck f",
            "no\nrule 12 hidden field: f at 1:40\n",
            Status::REFUTED,
        ),
        (
            "class A { A m() { return this; } } class B extends A { B m() { return this; } }",
            "typecheck f",
            "no\nrule 13 override differs: m at 1:58\n",
            Status::REFUTED,
        ),
        (
            "class A { A m() { return x; } }",
            "typecheck f",
            "no\nrule 14 unknown variable: x at 1:26\n",
            Status::REFUTED,
        ),
        (
            "class A { A m() { return new Z(); } }",
            "typecheck f",
            "no\nrule 15 unknown class: Z at 1:30\n",
            Status::REFUTED,
        ),
        (
            "class A { A m() { return this.f; } }",
            "typecheck f",
            "no\nrule 16 no field: f at 1:31\n",
            Status::REFUTED,
        ),
        (
            "class A { A m() { return this.m(this); } }",
            "typecheck f",
            "no\nrule 18 number of arguments: m at 1:31\n",
            Status::REFUTED,
        ),
        (
            "class A { A m(A x) { return this.m(new B()); } } class B { }",
            "typecheck f",
            "no\nrule 19 argument type: B at 1:40\n",
            Status::REFUTED,
        ),
        (
            "class A { B f; A m() { return this.f = this; } } class B { }",
            "typecheck f",
            "no\nrule 20 assigned type: f at 1:36\n",
            Status::REFUTED,
        ),
        (
            "class A { B m() { return this; } } class B { }",
            "typecheck f",
            "no\nrule 21 returned type: this at 1:26\n",
            Status::REFUTED,
        ),
        (
            "class A { A f; A d() { return null.f; } }",
            "typecheck f",
            "no\nrule 23 member of null: f at 1:36\n",
            Status::REFUTED,
        ),
        (
            "class A { } class B { B c(A x) { return (B) x; } }",
            "typecheck f",
            "no\nrule 22 unrelated cast: B at 1:42\n",
            Status::REFUTED,
        ),
    ];
    for (source, line, text, status) in rows {
        is_answered(&rt, rt.alloc(), source, line, text, status)?;
    }
    Ok(())
}

/// Files that are right, and files that are refused.
#[test]
fn files_are_right_or_refused(rt: HostRuntime) -> Result<(), Fail> {
    let rows = [
        (
            "class A { A a() { return (A) null; } }",
            "typecheck f",
            "yes\n",
            Status::DONE,
        ),
        ("", "typecheck f", "yes\n", Status::DONE),
        (
            "class A { A m; A m(A m) { return m; } }",
            "typecheck f",
            "yes\n",
            Status::DONE,
        ),
        (
            "class C extends Object {\n  C m(C w) {\n    return this.m$C$1(w.m(w));\n  }\n  C m$C$0(C x) {\n    return x;\n  }\n  C m$C$1(C z) {\n    return this.m$C$0(z);\n  }\n}\nclass D extends C {\n  C m(C z) {\n    return this.m$D$0(this);\n  }\n  C m$D$0(C y) {\n    return y;\n  }\n}\n",
            "typecheck f",
            "yes\n",
            Status::DONE,
        ),
        (
            "class Exp extends Object {\n  Exp line;\n  Größe eval() {\n    return null;\n  }\n}\nclass Größe extends Object {\n  Größe after;\n  Größe plus(Größe other) {\n    return other;\n  }\n}\nclass Lit extends Exp {\n  Größe part;\n  Größe eval() {\n    return this.part;\n  }\n}\n",
            "typecheck f",
            "yes\n",
            Status::DONE,
        ),
        (
            "class A { } class A { }",
            "typecheck f",
            "refused at 1:19: repeated class A\n",
            Status::FILE_REFUSED,
        ),
        (
            "class Object { }",
            "typecheck f",
            "refused at 1:7: repeated class Object\n",
            Status::FILE_REFUSED,
        ),
        (
            "class A { A f; A f; }",
            "typecheck f",
            "refused at 1:18: repeated member f\n",
            Status::FILE_REFUSED,
        ),
        (
            "class A { A m(A x, A x) { return x; } }",
            "typecheck f",
            "refused at 1:22: repeated parameter x\n",
            Status::FILE_REFUSED,
        ),
        (
            "class B { B f; B f; } class A { } class A { }",
            "typecheck f",
            "refused at 1:41: repeated class A\n",
            Status::FILE_REFUSED,
        ),
        (
            "class A { A f }",
            "typecheck f",
            "refused at 1:15: syntax\n",
            Status::FILE_REFUSED,
        ),
        (
            "class A { A f",
            "typecheck f",
            "refused at 1:14: syntax\n",
            Status::FILE_REFUSED,
        ),
        (
            "class A { A # }",
            "typecheck f",
            "refused at 1:13: bad character\n",
            Status::FILE_REFUSED,
        ),
        (
            "class A { /* ",
            "typecheck f",
            "refused at 1:11: comment not closed\n",
            Status::FILE_REFUSED,
        ),
        (
            "class A { A m() { return original(); } }",
            "typecheck f",
            "refused at 1:34: syntax\n",
            Status::FILE_REFUSED,
        ),
    ];
    for (source, line, text, status) in rows {
        is_answered(&rt, rt.alloc(), source, line, text, status)?;
    }
    Ok(())
}

/// A class whose method returns `what`, with `before` so often before it and `after` so often behind it.
fn nested(
    alloc: Global,
    head: &str,
    before: &str,
    what: &str,
    after: &str,
    times: usize,
) -> Result<String, NoMemory> {
    let mut text = String::from_str(alloc, head)?;
    for _ in 0..times {
        text.push_str(before)?;
    }
    text.push_str(what)?;
    for _ in 0..times {
        text.push_str(after)?;
    }
    text.push_str("; } }")?;
    Ok(text)
}

/// Deep expressions, and as many brackets as may be open.
#[test]
fn deep_bodies_are_typed(rt: HostRuntime) -> Result<(), Fail> {
    let alloc = rt.alloc();
    let brackets = nested(alloc, PLAIN, "(", "null", ")", 254)?;
    is_answered(&rt, alloc, &brackets, "typecheck f", "yes\n", Status::DONE)?;
    let brackets = nested(alloc, PLAIN, "(", "null", ")", 255)?;
    let refused = "refused at 1:280: more than 256 brackets open\n";
    is_answered(
        &rt,
        alloc,
        &brackets,
        "typecheck f",
        refused,
        Status::FILE_REFUSED,
    )?;
    let fields = nested(alloc, WITH_FIELD, "", "x", ".f", 200_000)?;
    is_answered(&rt, alloc, &fields, "typecheck f", "yes\n", Status::DONE)?;
    let casts = nested(alloc, PLAIN, "(A) ", "null", "", 200_000)?;
    is_answered(&rt, alloc, &casts, "typecheck f", "yes\n", Status::DONE)
}
