//! What `check` answers of product lines.
use crate::tests::is_answered;
use dj_run::Status;
use std::process::Abort;
use std::test::Fail;

const S1: &str = "line L { features A; valid A; part p { D; } } delta D { adds class C { } }\n";

const S4: &str =
    "line L { features A; valid true; part p { D when A; } } delta D { adds class C { } }\n";

const S5: &str =
    "line L {\n  features A;\n  valid true;\n  part a { Base; }\n  part b after a { X when A; Y when !A; }\n}\ndelta Base { adds class C { C m() { return this; } } }\ndelta X { modifies class C { modifies C m() { return null; } } }\ndelta Y { modifies class C { modifies C m() { return original(); } } }\n";

const S9: &str =
    "line L {\n  features A, B;\n  valid A & !B | !A & B;\n  part a { Base; }\n  part b after a { DA when A; DB when B; }\n}\ndelta Base {\n  adds class X { X m() { return this; } }\n  adds class Y { Y m() { return this; } }\n  adds class C { Object g() { return this.f.m(); } }\n}\ndelta DA { modifies class C { adds X f; } }\ndelta DB { modifies class C { adds Y f; } }\n";

const S18: &str =
    "line EPL {\n  features Lit, Add, Neg, Print, Eval;\n  valid Lit & (Print | Eval);\n  part base { BExp; }\n  part ops after base { DAdd when Add; DNeg when Neg; }\n  part print after ops { PLit when Print; PAdd when Print & Add; PNeg when Print & Neg; }\n  part eval after print { ELit when Eval; EAdd when Eval && Add; }\n}\ndelta BExp {\n  adds class Größe { Größe after; Größe plus(Größe other) { return other; } }\n  adds class Exp { Exp line; }\n  adds class Lit extends Exp { Größe part; }\n}\ndelta DAdd { adds class Add extends Exp { Exp left; Exp right; } }\ndelta DNeg { adds class Neg extends Exp { Exp inner; } }\ndelta PLit {\n  modifies class Exp { adds Exp print() { return this.line; } }\n  modifies class Lit { adds Exp print() { return this; } }\n}\ndelta PAdd { modifies class Add { adds Exp print() { return this.left.print(); } } }\ndelta PNeg { modifies class Neg { adds Exp print() { return this.inner.print(); } } }\ndelta ELit {\n  modifies class Exp { adds Größe eval() { return null; } }\n  modifies class Lit { adds Größe eval() { return this.part; } }\n}\ndelta EAdd {\n  modifies class Add { adds Größe eval() { return this.left.eval().plus(this.right.eval()); } }\n}\n";

const S3: &str = "line L { features A; valid A & !A; }\n";

const S6: &str =
    "line L {\n  features A, B;\n  valid true;\n  part a { Base; }\n  part b after a { X when A; Y when B; }\n}\ndelta Base { adds class C { C m() { return this; } } }\ndelta X { modifies class C { modifies C m() { return null; } } }\ndelta Y { modifies class C { modifies C m() { return original(); } } }\n";

const S7: &str =
    "line L { features; valid true; part p { X; Y; } }\ndelta X { adds class C { } }\ndelta Y { modifies class C { } }\n";

const S8: &str =
    "line L { features; valid true; part a { P; } part b after a { Q; } part c after b { R; } part d after c { T; } }\ndelta P { adds class C { C f; C g; } }\ndelta Q { removes class C; }\ndelta R { adds class C { C g; } }\ndelta T { modifies class C { removes field f; } }\n";

const S10: &str =
    "line L {\n  features A, B;\n  valid A & !B | !A & B;\n  part a { Base; }\n  part b after a { DA when A; DB when B; }\n}\ndelta Base {\n  adds class X { X m() { return this; } }\n  adds class Y { }\n  adds class C { Object g() { return this.f.m(); } }\n}\ndelta DA { modifies class C { adds X f; } }\ndelta DB { modifies class C { adds Y f; } }\n";

const S11: &str =
    "line L {\n  features P, Q;\n  valid true;\n  part a { Base; }\n  part b after a { DP when P; DQ when Q; }\n}\ndelta Base { adds class A { } adds class B { } }\ndelta DP { modifies class A extends B { } }\ndelta DQ { modifies class B extends A { } }\n";

/// Lines that are right, void, broken, of too many features, and refused.
#[test]
fn small_lines_are_checked(rt: HostRuntime) -> Result<(), Fail> {
    let rows = [
        (S1, "check f", "yes\n", Status::DONE),
        (S4, "check f", "yes\n", Status::DONE),
        (S5, "check f", "yes\n", Status::DONE),
        (S9, "check f", "yes\n", Status::DONE),
        (S18, "check f", "yes\n", Status::DONE),
        (S3, "check f", "yes void\n", Status::DONE),
        (
            "line L { features; valid true; }",
            "check f",
            "yes\n",
            Status::DONE,
        ),
        (
            "line L { features; valid false; }",
            "check f",
            "yes void\n",
            Status::DONE,
        ),
        (
            S6,
            "check f",
            "no\nconfiguration A,B\nrule 1 overlap: m at 8:41 and 9:41\n",
            Status::REFUTED,
        ),
        (
            S7,
            "check f",
            "no\nconfiguration -\nrule 1 overlap: C at 2:22 and 3:26\n",
            Status::REFUTED,
        ),
        (
            S8,
            "check f",
            "no\nconfiguration -\nrule 5 field missing: f at 5:44\n",
            Status::REFUTED,
        ),
        (
            S10,
            "check f",
            "no\nconfiguration B\nrule 17 no method: m at 10:45\n",
            Status::REFUTED,
        ),
        (
            S11,
            "check f",
            "no\nconfiguration P,Q\nrule 10 circular superclasses: B at 8:37\n",
            Status::REFUTED,
        ),
        (
            "line L { features A, B, C, D, E, F, G, H, I, J, K, M, N; valid true; }",
            "check f",
            "not built\n",
            Status::NOT_BUILT,
        ),
        (
            "line L { features A; valid B; }",
            "check f",
            "refused at 1:28: unknown feature B\n",
            Status::FILE_REFUSED,
        ),
    ];
    for (source, line, text, status) in rows {
        is_answered(&rt, rt.alloc(), source, line, text, status)?;
    }
    Ok(())
}
