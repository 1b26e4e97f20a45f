//! What `generate` answers of lines of every kind.
use crate::tests::is_answered;
use dj_run::Status;
use std::process::Abort;
use std::test::Fail;

const S5: &str =
    "line L {\n  features A;\n  valid true;\n  part a { Base; }\n  part b after a { X when A; Y when !A; }\n}\ndelta Base { adds class C { C m() { return this; } } }\ndelta X { modifies class C { modifies C m() { return null; } } }\ndelta Y { modifies class C { modifies C m() { return original(); } } }\n";

const S6: &str =
    "line L {\n  features A, B;\n  valid true;\n  part a { Base; }\n  part b after a { X when A; Y when B; }\n}\ndelta Base { adds class C { C m() { return this; } } }\ndelta X { modifies class C { modifies C m() { return null; } } }\ndelta Y { modifies class C { modifies C m() { return original(); } } }\n";

const S7: &str =
    "line L { features; valid true; part p { X; Y; } }\ndelta X { adds class C { } }\ndelta Y { modifies class C { } }\n";

const S8: &str =
    "line L { features; valid true; part a { P; } part b after a { Q; } part c after b { R; } part d after c { T; } }\ndelta P { adds class C { C f; C g; } }\ndelta Q { removes class C; }\ndelta R { adds class C { C g; } }\ndelta T { modifies class C { removes field f; } }\n";

const S10: &str =
    "line L {\n  features A, B;\n  valid A & !B | !A & B;\n  part a { Base; }\n  part b after a { DA when A; DB when B; }\n}\ndelta Base {\n  adds class X { X m() { return this; } }\n  adds class Y { }\n  adds class C { Object g() { return this.f.m(); } }\n}\ndelta DA { modifies class C { adds X f; } }\ndelta DB { modifies class C { adds Y f; } }\n";

const S11: &str =
    "line L {\n  features P, Q;\n  valid true;\n  part a { Base; }\n  part b after a { DP when P; DQ when Q; }\n}\ndelta Base { adds class A { } adds class B { } }\ndelta DP { modifies class A extends B { } }\ndelta DQ { modifies class B extends A { } }\n";

const S20: &str =
    "line L {\n  features A;\n  valid true;\n  part a { Base; }\n  part b after a { X when A; }\n}\ndelta Base { adds class C { } adds class E { E m(C x) { return this.m(this); } } }\ndelta X { modifies class Z { } modifies class C { adds C n() { return this.q(); } } }\n";

const S12: &str =
    "line L { features; valid true; part a { P; } part b after a { Q; } part c after b { R; } }\ndelta P { adds class C { C m(C x) { return x; } } adds class D extends C { C m(C y) { return y; } } }\ndelta Q {\n  modifies class C { modifies C m(C z) { return original(z); } }\n  modifies class D { modifies C m(C z) { return original(this); } }\n}\ndelta R { modifies class C { modifies C m(C w) { return original(w.m(w)); } } }\n";

const S13: &str =
    "line L { features; valid true; part a { P; } part b after a { Q; R; } }\ndelta P { adds class C { } }\ndelta Q { modifies class C { adds C b; } }\ndelta R { modifies class C { adds C a; } }\n";

const S18: &str =
    "line EPL {\n  features Lit, Add, Neg, Print, Eval;\n  valid Lit & (Print | Eval);\n  part base { BExp; }\n  part ops after base { DAdd when Add; DNeg when Neg; }\n  part print after ops { PLit when Print; PAdd when Print & Add; PNeg when Print & Neg; }\n  part eval after print { ELit when Eval; EAdd when Eval && Add; }\n}\ndelta BExp {\n  adds class Größe { Größe after; Größe plus(Größe other) { return other; } }\n  adds class Exp { Exp line; }\n  adds class Lit extends Exp { Größe part; }\n}\ndelta DAdd { adds class Add extends Exp { Exp left; Exp right; } }\ndelta DNeg { adds class Neg extends Exp { Exp inner; } }\ndelta PLit {\n  modifies class Exp { adds Exp print() { return this.line; } }\n  modifies class Lit { adds Exp print() { return this; } }\n}\ndelta PAdd { modifies class Add { adds Exp print() { return this.left.print(); } } }\ndelta PNeg { modifies class Neg { adds Exp print() { return this.inner.print(); } } }\ndelta ELit {\n  modifies class Exp { adds Größe eval() { return null; } }\n  modifies class Lit { adds Größe eval() { return this.part; } }\n}\ndelta EAdd {\n  modifies class Add { adds Größe eval() { return this.left.eval().plus(this.right.eval()); } }\n}\n";

/// Lines that show one thing each, with what is generated or the least rule that is broken.
#[test]
fn worked_lines_are_generated(rt: HostRuntime) -> Result<(), Fail> {
    let rows = [
        (
            S5,
            "generate f A",
            "class C extends Object {\n  C m() {\n    return null;\n  }\n}\n",
            Status::DONE,
        ),
        (
            S5,
            "generate f -",
            "class C extends Object {\n  C m() {\n    return this.m$C$0();\n  }\n  C m$C$0() {\n    return this;\n  }\n}\n",
            Status::DONE,
        ),
        (
            S6,
            "generate f A,B",
            "no\nconfiguration A,B\nrule 1 overlap: m at 8:41 and 9:41\n",
            Status::REFUTED,
        ),
        (
            S6,
            "generate f B",
            "class C extends Object {\n  C m() {\n    return this.m$C$0();\n  }\n  C m$C$0() {\n    return this;\n  }\n}\n",
            Status::DONE,
        ),
        (
            S7,
            "generate f -",
            "no\nconfiguration -\nrule 1 overlap: C at 2:22 and 3:26\n",
            Status::REFUTED,
        ),
        (
            S8,
            "generate f -",
            "no\nconfiguration -\nrule 5 field missing: f at 5:44\n",
            Status::REFUTED,
        ),
        (
            S10,
            "generate f A",
            "class C extends Object {\n  X f;\n  Object g() {\n    return this.f.m();\n  }\n}\nclass X extends Object {\n  X m() {\n    return this;\n  }\n}\nclass Y extends Object {\n}\n",
            Status::DONE,
        ),
        (
            S10,
            "generate f B",
            "no\nconfiguration B\nrule 17 no method: m at 10:45\n",
            Status::REFUTED,
        ),
        (
            S11,
            "generate f P,Q",
            "no\nconfiguration P,Q\nrule 10 circular superclasses: B at 8:37\n",
            Status::REFUTED,
        ),
        (
            S20,
            "generate f -",
            "no\nconfiguration -\nrule 19 argument type: this at 7:71\n",
            Status::REFUTED,
        ),
        (
            S12,
            "generate f -",
            "class C extends Object {\n  C m(C w) {\n    return this.m$C$1(w.m(w));\n  }\n  C m$C$0(C x) {\n    return x;\n  }\n  C m$C$1(C z) {\n    return this.m$C$0(z);\n  }\n}\nclass D extends C {\n  C m(C z) {\n    return this.m$D$0(this);\n  }\n  C m$D$0(C y) {\n    return y;\n  }\n}\n",
            Status::DONE,
        ),
        (
            S13,
            "generate f - P,Q,R",
            "class C extends Object {\n  C a;\n  C b;\n}\n",
            Status::DONE,
        ),
        (
            S13,
            "generate f - P,R,Q",
            "class C extends Object {\n  C a;\n  C b;\n}\n",
            Status::DONE,
        ),
        (
            S13,
            "generate f - Q,P,R",
            "order refused: not allowed\n",
            Status::WORD_REFUSED,
        ),
        (
            S18,
            "generate f Lit,Eval",
            "class Exp extends Object {\n  Exp line;\n  Größe eval() {\n    return null;\n  }\n}\nclass Größe extends Object {\n  Größe after;\n  Größe plus(Größe other) {\n    return other;\n  }\n}\nclass Lit extends Exp {\n  Größe part;\n  Größe eval() {\n    return this.part;\n  }\n}\n",
            Status::DONE,
        ),
    ];
    for (source, line, text, status) in rows {
        is_answered(&rt, rt.alloc(), source, line, text, status)?;
    }
    Ok(())
}

/// Each rule of operations, broken on its own.
#[test]
fn broken_operations_are_told(rt: HostRuntime) -> Result<(), Fail> {
    let rows = [
        (
            "line L { features; valid true; part a { P; } part b after a { Q; } } delta P { adds class C { C f; C m() { return this; } } }\ndelta Q { adds class C { } }",
            "generate f -",
            "no\nconfiguration -\nrule 2 class there: C at 2:22\n",
            Status::REFUTED,
        ),
        (
            "line L { features; valid true; part a { P; } part b after a { Q; } } delta P { adds class C { C f; C m() { return this; } } }\ndelta Q { removes class D; }",
            "generate f -",
            "no\nconfiguration -\nrule 3 class missing: D at 2:25\n",
            Status::REFUTED,
        ),
        (
            "line L { features; valid true; part a { P; } part b after a { Q; } } delta P { adds class C { C f; C m() { return this; } } }\ndelta Q { modifies class C { adds C f; } }",
            "generate f -",
            "no\nconfiguration -\nrule 4 field there: f at 2:37\n",
            Status::REFUTED,
        ),
        (
            "line L { features; valid true; part a { P; } part b after a { Q; } } delta P { adds class C { C f; C m() { return this; } } }\ndelta Q { modifies class C { removes field g; } }",
            "generate f -",
            "no\nconfiguration -\nrule 5 field missing: g at 2:44\n",
            Status::REFUTED,
        ),
        (
            "line L { features; valid true; part a { P; } part b after a { Q; } } delta P { adds class C { C f; C m() { return this; } } }\ndelta Q { modifies class C { adds C m() { return this; } } }",
            "generate f -",
            "no\nconfiguration -\nrule 6 method there: m at 2:37\n",
            Status::REFUTED,
        ),
        (
            "line L { features; valid true; part a { P; } part b after a { Q; } } delta P { adds class C { C f; C m() { return this; } } }\ndelta Q { modifies class C { removes method n; } }",
            "generate f -",
            "no\nconfiguration -\nrule 7 method missing: n at 2:45\n",
            Status::REFUTED,
        ),
        (
            "line L { features; valid true; part a { P; } part b after a { Q; } } delta P { adds class C { C f; C m() { return this; } } }\ndelta Q { modifies class C { modifies C m(C x) { return x; } } }",
            "generate f -",
            "no\nconfiguration -\nrule 8 signature differs: m at 2:41\n",
            Status::REFUTED,
        ),
    ];
    for (source, line, text, status) in rows {
        is_answered(&rt, rt.alloc(), source, line, text, status)?;
    }
    Ok(())
}

/// Several instances at once, older bodies, and texts.
#[test]
fn the_least_instance_is_told(rt: HostRuntime) -> Result<(), Fail> {
    let rows = [
        (
            "line L { features; valid true; part a { P; Q; } }\ndelta P { adds class Z { Z f; } adds class B { } }\ndelta Q { adds class B { } removes class Z; }\n",
            "generate f -",
            "no\nconfiguration -\nrule 1 overlap: Z at 2:22 and 3:42\n",
            Status::REFUTED,
        ),
        (
            "line L { features; valid true; part a { Q; P; } }\ndelta P { adds class C { } }\ndelta Q { removes class C; }\n",
            "generate f -",
            "no\nconfiguration -\nrule 1 overlap: C at 3:25 and 2:22\n",
            Status::REFUTED,
        ),
        (
            "line L { features; valid true; part a { P; Q; } part b after a { R; S; } }\ndelta R { adds class B { } }\ndelta S { removes class B; }\ndelta P { adds class C { } adds class A { } }\ndelta Q { removes class A; removes class C; }\n",
            "generate f -",
            "no\nconfiguration -\nrule 1 overlap: B at 2:22 and 3:25\n",
            Status::REFUTED,
        ),
        (
            "line L { features; valid true; part a { X; } part b after a { P; Q; } }\ndelta X { removes class Z; }\ndelta P { adds class C { } }\ndelta Q { removes class C; }\n",
            "generate f -",
            "no\nconfiguration -\nrule 1 overlap: C at 3:22 and 4:25\n",
            Status::REFUTED,
        ),
        (
            "line L { features; valid true; part a { P; Q; } }\ndelta Q { removes class Y; }\ndelta P { removes class Z; }\n",
            "generate f -",
            "no\nconfiguration -\nrule 3 class missing: Y at 2:25\n",
            Status::REFUTED,
        ),
        (
            "line L { features; valid true; part a { P; } part b after a { Q; } }\ndelta Q { adds class C { } adds class C2 { } modifies class W { } }\ndelta P { adds class D { }\n modifies class Z { adds Z f; } }\n",
            "generate f -",
            "no\nconfiguration -\nrule 3 class missing: Z at 4:17\n",
            Status::REFUTED,
        ),
        (
            "line L { features; valid true; part a { P; } }\ndelta P { modifies class C { } }\n",
            "generate f -",
            "no\nconfiguration -\nrule 3 class missing: C at 2:26\n",
            Status::REFUTED,
        ),
        (
            "line L { features; valid true; part a { P; } part b after a { Q; R; } }\ndelta P { adds class C { } adds class D { } }\ndelta Q { modifies class C extends D { } }\ndelta R { modifies class C extends D { } }\n",
            "generate f -",
            "no\nconfiguration -\nrule 1 overlap: D at 3:36 and 4:36\n",
            Status::REFUTED,
        ),
        (
            "line L { features; valid true; part a { P; } part b after a { Q; } part c after b { R; } }\ndelta P { adds class C { C f; C m() { return this; } } }\ndelta Q { removes class C; }\ndelta R { adds class C { C g; } }\n",
            "generate f -",
            "class C extends Object {\n  C g;\n}\n",
            Status::DONE,
        ),
        (
            "line L { features; valid true; part a { P; } part b after a { Q; } part c after b { R; } }\ndelta P { adds class C { C m() { return this; } } }\ndelta Q { modifies class C { modifies C m() { return original(); } } }\ndelta R { modifies class C { modifies C m() { return original(); } } }\n",
            "generate f -",
            "class C extends Object {\n  C m() {\n    return this.m$C$1();\n  }\n  C m$C$0() {\n    return this;\n  }\n  C m$C$1() {\n    return this.m$C$0();\n  }\n}\n",
            Status::DONE,
        ),
        (
            "line L { features; valid true; part a { P; } part b after a { Q; } part c after b { R; } }\ndelta P { adds class C { C m() { return this; } } }\ndelta Q { modifies class C { removes method m; } }\ndelta R { modifies class C { adds Object m(C x) { return x; } } }\n",
            "generate f -",
            "class C extends Object {\n  Object m(C x) {\n    return x;\n  }\n}\n",
            Status::DONE,
        ),
        (
            "line L { features A; valid true; part a { P; } part b after a { Q when A; } part c after b { R; } }\ndelta P { adds class C { } }\ndelta Q { adds class D { } }\ndelta R { modifies class C { adds C f; } }\n",
            "generate f -",
            "class C extends Object {\n  C f;\n}\n",
            Status::DONE,
        ),
        (
            "line L { features; valid true; }",
            "generate f -",
            "",
            Status::DONE,
        ),
        (
            "line L { features; valid true; part a { P; } }\ndelta P { adds class A { A f; A m(A x) { return ((A) (x.f = x)).m((A) x.f); } } }\n",
            "generate f -",
            "class A extends Object {\n  A f;\n  A m(A x) {\n    return ((A) (x.f = x)).m((A) x.f);\n  }\n}\n",
            Status::DONE,
        ),
        (
            "line L { features; valid true; part a { P; } part b after a { Q; } }\ndelta P { adds class C { C m() { return this.q(); } } }\ndelta Q { modifies class C { modifies C m() { return this; } } }\n",
            "generate f -",
            "class C extends Object {\n  C m() {\n    return this;\n  }\n}\n",
            Status::DONE,
        ),
        (
            "line L { features; valid true; part a { P; } part b after a { Q; } }\ndelta P { adds class C { C m() { return this.q(); } } }\ndelta Q { modifies class C { modifies C m() { return original(); } } }\n",
            "generate f -",
            "no\nconfiguration -\nrule 17 no method: q at 2:46\n",
            Status::REFUTED,
        ),
        (
            "line L { features; valid true; part a { P; } part b after a { Q; } }\ndelta P { adds class C { C m(C x) { return x; } } adds class D { } }\ndelta Q { modifies class C { modifies C m(C x) { return original(new D()); } } }\n",
            "generate f -",
            "no\nconfiguration -\nrule 19 argument type: D at 3:70\n",
            Status::REFUTED,
        ),
        (
            "line L { features; valid true; part a { P; } part b after a { Q; } }\ndelta P { adds class C { C m(C x) { return x; } } }\ndelta Q { modifies class C { modifies C m(C x) { return original(); } } }\n",
            "generate f -",
            "no\nconfiguration -\nrule 18 number of arguments: original at 3:57\n",
            Status::REFUTED,
        ),
        (
            "line L { features B, A; valid true; part a { P; } }\ndelta P { adds class C { Z f; } }\n",
            "generate f A,B",
            "no\nconfiguration B,A\nrule 11 unknown type: Z at 2:26\n",
            Status::REFUTED,
        ),
    ];
    for (source, line, text, status) in rows {
        is_answered(&rt, rt.alloc(), source, line, text, status)?;
    }
    Ok(())
}
