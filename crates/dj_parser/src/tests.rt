//! Trees from texts, and the places where texts are refused.
ghost use Rattle.std.specs.Prelude.{◌<◌, length, IfOk, IfSome};
ghost use Rattle.dj_tree.specs.WellFormed.{IsWellFormed, IsWellFormedJava};

use super::*;
use arena_walk::NodeId;
use dj_lexer::{Dialect, MAX_LENGTH, lex};
use dj_names::Names;
use dj_tree::{ExprNode, FormulaNode, JavaSource, Listed, Source, Spot};
use std::alloc::{AllocError, Global};
use std::process::Abort;
use std::test::Fail;

// The product line of a text, or the place where it is refused.
fn line_of(alloc: Global, text: &str) -> Result<Result<Source, u32>, Fail>
    ensures { IfOk result (λ read. IfOk read IsWellFormed) }
{
    if text.len() > MAX_LENGTH {
        return Err(Fail::new("too long"));
    }
    let Ok(tokens) = lex(alloc, text.as_bytes(), Dialect::Line) else {
        return Err(Fail::new("no tokens"));
    };
    match parse(alloc, text.as_bytes(), &tokens) {
        Ok(source) => Ok(Ok(source)),
        Err(ParseError::Syntax(at)) => Ok(Err(at)),
        Err(ParseError::NoMemory) => Err(Fail::new("no memory")),
    }
}

// The Java file of a text, or the place where it is refused.
fn java_of(alloc: Global, text: &str) -> Result<Result<JavaSource, u32>, Fail>
    ensures { IfOk result (λ read. IfOk read IsWellFormedJava) }
{
    if text.len() > MAX_LENGTH {
        return Err(Fail::new("too long"));
    }
    let Ok(tokens) = lex(alloc, text.as_bytes(), Dialect::Java) else {
        return Err(Fail::new("no tokens"));
    };
    match parse_java(alloc, text.as_bytes(), &tokens) {
        Ok(source) => Ok(Ok(source)),
        Err(ParseError::Syntax(at)) => Ok(Err(at)),
        Err(ParseError::NoMemory) => Err(Fail::new("no memory")),
    }
}

// The place where a text is refused as a product line, or as a Java file.
fn place_of(alloc: Global, text: &str, dialect: Dialect) -> Result<Option<u32>, Fail> {
    match dialect {
        Dialect::Line => Ok(line_of(alloc, text)?.err()),
        Dialect::Java => Ok(java_of(alloc, text)?.err()),
    }
}

// The root of the first method's body.
fn body_of(source: &JavaSource) -> Option<NodeId>
    requires { IsWellFormedJava source.now }
    ensures { IfSome result (λ root. root.0 < length source.now.exprs) }
{
    match source.classes.as_slice() {
        [class, ..] => match class.methods.as_slice() {
            [method, ..] => Some(method.body),
            [] => None,
        },
        [] => None,
    }
}

// The name that stands in the text at the spot's place, if it is the spot's name. Names are `original` or one letter.
fn word<'a>(text: &'a str, names: &Names, spot: Spot) -> &'a str {
    let rest = text.get(spot.at as usize..).unwrap_or("");
    let word = if rest.starts_with("original") {
        "original"
    } else {
        rest.get(..1).unwrap_or("?")
    };
    if names.find(word) == Some(spot.name) {
        word
    } else {
        "?"
    }
}

fn push_formula(
    shown: &mut String,
    text: &str,
    names: &Names,
    node: &FormulaNode,
) -> Result<(), AllocError> {
    shown.push_str(match node {
        FormulaNode::True => "true",
        FormulaNode::False => "false",
        FormulaNode::Feature(spot) => word(text, names, *spot),
        FormulaNode::Not => "!",
        FormulaNode::And => "&",
        FormulaNode::Or => "|",
        FormulaNode::Implies => "->",
        FormulaNode::Same => "<->",
    })?;
    shown.push_str(" ")
}

// The nodes of the formula of valid configurations, in post-order.
fn shown_formula(alloc: Global, text: &str, source: &Source) -> Result<String, AllocError>
    requires { IsWellFormed source.now }
{
    let mut shown = String::new(alloc);
    for at in 0..source.valid.0 {
        push_formula(
            &mut shown,
            text,
            &source.names,
            source.formulas.get(NodeId(at)),
        )?;
    }
    push_formula(
        &mut shown,
        text,
        &source.names,
        source.formulas.get(source.valid),
    )?;
    Ok(shown)
}

fn push_expr(
    shown: &mut String,
    text: &str,
    names: &Names,
    node: &ExprNode,
) -> Result<(), AllocError> {
    let (front, name, count) = match node {
        ExprNode::Variable(spot) => ("", word(text, names, *spot), ""),
        ExprNode::This(_) => ("this", "", ""),
        ExprNode::Null(_) => ("null", "", ""),
        ExprNode::Field(spot) => (".", word(text, names, *spot), ""),
        ExprNode::Call(spot, 0) => (".", word(text, names, *spot), "()"),
        ExprNode::Call(spot, 3) => (".", word(text, names, *spot), "(,,)"),
        ExprNode::Call(spot, _) => (".", word(text, names, *spot), "(..)"),
        ExprNode::New(spot) => ("new ", word(text, names, *spot), ""),
        ExprNode::Cast(spot) => ("(", word(text, names, *spot), ")"),
        ExprNode::Assign(spot) => (".", word(text, names, *spot), "="),
        ExprNode::Original(_, _) => ("original", "", "(..)"),
    };
    shown.push_str(front)?;
    shown.push_str(name)?;
    shown.push_str(count)?;
    shown.push_str(" ")
}

// The nodes of an expression, in post-order, where it is the first one of the source.
fn shown_expr(
    alloc: Global,
    text: &str,
    source: &JavaSource,
    root: NodeId,
) -> Result<String, AllocError>
    requires { root.0 < length source.now.exprs }
{
    let mut shown = String::new(alloc);
    for at in 0..root.0 {
        push_expr(
            &mut shown,
            text,
            &source.names,
            source.exprs.get(NodeId(at)),
        )?;
    }
    push_expr(&mut shown, text, &source.names, source.exprs.get(root))?;
    Ok(shown)
}

// A text with a piece so many times between a front and a back.
fn repeated(
    alloc: Global,
    front: &str,
    piece: &str,
    times: u32,
    back: &str,
) -> Result<String, AllocError> {
    let mut text = String::new(alloc);
    text.push_str(front)?;
    for _ in 0..times {
        text.push_str(piece)?;
    }
    text.push_str(back)?;
    Ok(text)
}

#[test]
fn texts_are_refused_at_places(rt: HostRuntime) -> Result<(), Fail> {
    let rows = [
        (Dialect::Line, "line L { features A valid A; }", Some(20)),
        (Dialect::Line, "", Some(0)),
        (Dialect::Line, "line L { features; valid A A; }", Some(27)),
        (Dialect::Java, "class A { A f }", Some(14)),
        (Dialect::Java, "class A { A f", Some(13)),
        (
            Dialect::Java,
            "class A { A m() { return (x) = x; } }",
            Some(29),
        ),
        (Dialect::Java, "", None),
        (
            Dialect::Java,
            "class A { A m() { return original(x); } }",
            Some(33),
        ),
        (
            Dialect::Java,
            "class A { A m() { return (A) x.f = y; } }",
            Some(33),
        ),
        (
            Dialect::Java,
            "class A { A m() { return x = y; } }",
            Some(27),
        ),
        (
            Dialect::Java,
            "class A { A m() { return x.f() = y; } }",
            Some(31),
        ),
        (
            Dialect::Java,
            "class A { A m() { return (x.f) = y; } }",
            Some(31),
        ),
    ];
    for (dialect, text, place) in rows {
        assert_eq!(rt; place_of(rt.alloc(), text, dialect)?, place, "{text}");
    }
    Ok(())
}

#[test]
fn declarations_are_refused_at_places(rt: HostRuntime) -> Result<(), Fail> {
    let rows = [
        (Dialect::Line, "line l { features f,; valid f; }", Some(20)),
        (Dialect::Line, "line l { features f g; valid f; }", Some(20)),
        (Dialect::Line, "line l { features f; valid f }", Some(29)),
        (
            Dialect::Line,
            "line l { features; valid true; part p { d when; } }",
            Some(46),
        ),
        (
            Dialect::Line,
            "line l { features; valid true; } part",
            Some(33),
        ),
        (
            Dialect::Line,
            "line l { features; valid true; } delta d { adds A; }",
            Some(48),
        ),
        (
            Dialect::Line,
            "line l { features; valid true; } delta d { removes method m; }",
            Some(51),
        ),
        (
            Dialect::Line,
            "line l { features; valid true; } delta d { modifies class A { removes m; } }",
            Some(70),
        ),
        (
            Dialect::Line,
            "line l { features; valid true; } delta d {",
            Some(42),
        ),
        (Dialect::Line, "class A { }", Some(0)),
        (Dialect::Line, "line L { features; valid A B; }", Some(27)),
        (Dialect::Line, "line L { features; valid A & ; }", Some(29)),
        (Dialect::Line, "line L { features; valid (A; }", Some(27)),
        (Dialect::Line, "line L { features; valid A); }", Some(26)),
        (Dialect::Line, "line L { features; valid & A; }", Some(25)),
        (Dialect::Line, "line L { features; valid class; }", Some(25)),
        (
            Dialect::Line,
            "line L { features; valid A & (B | } }",
            Some(34),
        ),
        (
            Dialect::Line,
            "line L { features; valid true; } delta D { modifies class A { modifies A m() { return original(x, (y)).f; } } }",
            None,
        ),
        (
            Dialect::Line,
            "line L { features; valid true; } delta D { modifies class A { modifies A m() { return (original()); } } }",
            None,
        ),
        (
            Dialect::Line,
            "line L { features; valid true; } delta D { modifies class A { modifies A m() { return (A) original(x); } } }",
            None,
        ),
        (
            Dialect::Line,
            "line L { features; valid true; } delta D { modifies class A { modifies A m() { return original; } } }",
            None,
        ),
        (
            Dialect::Line,
            "line L { features; valid true; } delta D { modifies class A { modifies A m() { return (original) x; } } }",
            None,
        ),
        (
            Dialect::Java,
            "class A { I m(I a,) { return a; } }",
            Some(18),
        ),
        (Dialect::Java, "class A { I x }", Some(14)),
        (Dialect::Java, "class A extends { }", Some(16)),
        (Dialect::Java, "class A { I x;", Some(14)),
        (Dialect::Java, "class A { } x", Some(12)),
    ];
    for (dialect, text, place) in rows {
        assert_eq!(rt; place_of(rt.alloc(), text, dialect)?, place, "{text}");
    }
    Ok(())
}

#[test]
fn expressions_are_refused_at_places(rt: HostRuntime) -> Result<(), Fail> {
    let rows = [
        (
            Dialect::Java,
            "class A { A m() { return x.f = y = z; } }",
            Some(33),
        ),
        (
            Dialect::Java,
            "class A { A m() { return (x) = y; } }",
            Some(29),
        ),
        (
            Dialect::Java,
            "class A { A m() { return x(y); } }",
            Some(26),
        ),
        (
            Dialect::Java,
            "class A { A m() { return (x) y z; } }",
            Some(31),
        ),
        (Dialect::Java, "class A { A m() { return (x; } }", Some(27)),
        (
            Dialect::Java,
            "class A { A m() { return (x, y); } }",
            Some(27),
        ),
        (Dialect::Java, "class A { A m() { return x); } }", Some(26)),
        (
            Dialect::Java,
            "class A { A m() { return x, y; } }",
            Some(26),
        ),
        (
            Dialect::Java,
            "class A { A m() { return x.m(y; } }",
            Some(30),
        ),
        (
            Dialect::Java,
            "class A { A m() { return x.m(, y); } }",
            Some(29),
        ),
        (
            Dialect::Java,
            "class A { A m() { return x.m(y,); } }",
            Some(31),
        ),
        (Dialect::Java, "class A { A m() { return (); } }", Some(26)),
        (Dialect::Java, "class A { A m() { return x.; } }", Some(27)),
        (
            Dialect::Java,
            "class A { A m() { return x.class; } }",
            Some(27),
        ),
        (
            Dialect::Java,
            "class A { A m() { return new A; } }",
            Some(30),
        ),
        (
            Dialect::Java,
            "class A { A m() { return new A(x); } }",
            Some(31),
        ),
        (
            Dialect::Java,
            "class A { A m() { return new (A)(); } }",
            Some(29),
        ),
        (Dialect::Java, "class A { A m() { return ; } }", Some(25)),
        (
            Dialect::Java,
            "class A { A m() { return class; } }",
            Some(25),
        ),
        (
            Dialect::Java,
            "class A { A m() { return (A) original(x); } }",
            Some(37),
        ),
    ];
    for (dialect, text, place) in rows {
        assert_eq!(rt; place_of(rt.alloc(), text, dialect)?, place, "{text}");
    }
    Ok(())
}

// The words with another in place of one of them, and a space behind each.
fn with_word(
    alloc: Global,
    rows: &[(&str, Option<u32>, Option<u32>)],
    place: usize,
    other: &str,
) -> Result<String, AllocError> {
    let mut text = String::new(alloc);
    for (at, (word, _, _)) in rows.iter().enumerate() {
        text.push_str(if at == place { other } else { word })?;
        text.push_str(" ")?;
    }
    Ok(text)
}

#[test]
fn a_word_that_cannot_stand_is_refused(rt: HostRuntime) -> Result<(), Fail> {
    // The words of a line, each with the place where the line is refused with `class` in its stead, and with `;`.
    let rows = [
        ("line", Some(0), Some(0)),
        ("L", Some(5), Some(5)),
        ("{", Some(7), Some(7)),
        ("features", Some(9), Some(9)),
        ("A", Some(18), Some(20)),
        (";", Some(20), None),
        ("valid", Some(22), Some(22)),
        ("A", Some(28), Some(28)),
        (";", Some(30), None),
        ("part", Some(32), Some(32)),
        ("p", Some(37), Some(37)),
        ("{", Some(39), Some(39)),
        ("D", Some(41), Some(41)),
        (";", Some(43), None),
        ("}", Some(45), Some(45)),
        ("}", Some(47), Some(47)),
        ("delta", Some(49), Some(49)),
        ("D", Some(55), Some(55)),
        ("{", Some(57), Some(57)),
        ("adds", Some(59), Some(59)),
        ("class", None, Some(64)),
        ("C", Some(70), Some(70)),
        ("{", Some(72), Some(72)),
        ("}", Some(74), Some(74)),
        ("}", Some(76), Some(76)),
    ];
    for (at, (word, with_class, with_semicolon)) in rows.iter().enumerate() {
        let text = with_word(rt.alloc(), &rows, at, "class")?;
        let place = place_of(rt.alloc(), text.as_str(), Dialect::Line)?;
        assert_eq!(rt; place, *with_class, "class for {word} at {at}");
        let text = with_word(rt.alloc(), &rows, at, ";")?;
        let place = place_of(rt.alloc(), text.as_str(), Dialect::Line)?;
        assert_eq!(rt; place, *with_semicolon, "; for {word} at {at}");
    }
    Ok(())
}

// Expressions of three kinds, which can be printed or evaluated where these features are chosen.
const EXPRESSIONS: &str = "line EPL {
  features Lit, Add, Neg, Print, Eval;
  valid Lit & (Print | Eval);
  part base { BExp; }
  part ops after base { DAdd when Add; DNeg when Neg; }
  part print after ops { PLit when Print; PAdd when Print & Add; PNeg when Print & Neg; }
  part eval after print { ELit when Eval; EAdd when Eval && Add; }
}
delta BExp {
  adds class Größe { Größe after; Größe plus(Größe other) { return other; } }
  adds class Exp { Exp line; }
  adds class Lit extends Exp { Größe part; }
}
delta DAdd { adds class Add extends Exp { Exp left; Exp right; } }
delta DNeg { adds class Neg extends Exp { Exp inner; } }
delta PLit {
  modifies class Exp { adds Exp print() { return this.line; } }
  modifies class Lit { adds Exp print() { return this; } }
}
delta PAdd { modifies class Add { adds Exp print() { return this.left.print(); } } }
delta PNeg { modifies class Neg { adds Exp print() { return this.inner.print(); } } }
delta ELit {
  modifies class Exp { adds Größe eval() { return null; } }
  modifies class Lit { adds Größe eval() { return this.part; } }
}
delta EAdd {
  modifies class Add { adds Größe eval() { return this.left.eval().plus(this.right.eval()); } }
}
";

// Each beginning of a line is one up to these places, and lacks its rest elsewhere.
fn ends_only_at(rt: &impl Abort, alloc: Global, line: &str, ends: &[u32]) -> Result<(), Fail> {
    if line.len() > MAX_LENGTH {
        return Err(Fail::new("too long"));
    }
    let Ok(tokens) = lex(alloc, line.as_bytes(), Dialect::Line) else {
        return Err(Fail::new("no tokens"));
    };
    for token in &tokens.list {
        let front = line.get(..token.to as usize).unwrap_or("?");
        let whole = ends.contains(&token.to);
        let place = if whole { None } else { Some(token.to) };
        assert_eq!(rt;
            place_of(alloc, front, Dialect::Line)?,
            place,
            "up to {}",
            token.to
        );
    }
    Ok(())
}

#[test]
fn beginnings_lack_their_rest(rt: HostRuntime) -> Result<(), Fail> {
    // The line ends at its block, and at each whole delta.
    let ends = [316, 495, 562, 619, 757, 842, 928, 1072, 1185];
    ends_only_at(&rt, rt.alloc(), EXPRESSIONS, &ends)
}

#[test]
fn lists_are_given_back(rt: HostRuntime) -> Result<(), Fail> {
    let list = Listed::from_vec(vec![in rt.alloc(); 1, 2]?);
    assert_eq!(rt; list.into_vec().as_slice(), [1, 2].as_slice());
    Ok(())
}

#[test]
fn formulas_have_their_nodes(rt: HostRuntime) -> Result<(), Fail> {
    let rows = [
        ("true", "true "),
        ("false | (A)", "false A | "),
        ("A -> B -> C", "A B C -> -> "),
        ("A <-> B <-> C", "A B <-> C <-> "),
        ("!A & B | C -> A <-> B", "A ! B & C | A -> B <-> "),
        ("A || B && C", "A B C & | "),
        ("A | B || C", "A B | C | "),
        ("(A | false) & !!C", "A false | C ! ! & "),
        ("(A -> B) -> C", "A B -> C -> "),
    ];
    for (formula, nodes) in rows {
        let text = format!(in rt.alloc(); "line L {{ features; valid {formula}; }}")?;
        let Ok(source) = line_of(rt.alloc(), text.as_str())? else {
            return Err(Fail::new("refused"));
        };
        let shown = shown_formula(rt.alloc(), text.as_str(), &source)?;
        assert_eq!(rt; shown.as_str(), nodes);
    }
    Ok(())
}

#[test]
fn expressions_have_their_nodes(rt: HostRuntime) -> Result<(), Fail> {
    let rows = [
        ("(A) x.f", "x .f (A) "),
        ("((A) x).f", "x (A) .f "),
        ("(x).f", "x .f "),
        ("(x)(y)", "y (x) "),
        ("(A) (B) x", "x (B) (A) "),
        ("(A) new B()", "new B (A) "),
        ("a.f = b.g = c", "a b c .g= .f= "),
        ("(a.b).c = d", "a .b d .c= "),
        ("((A) x).f = y", "x (A) y .f= "),
        ("this.m(a, (B) c, d.e())", "this a c (B) d .e() .m(,,) "),
        ("new C().m()", "new C .m() "),
        ("null", "null "),
        ("original", "original "),
        ("(A) this.m(null).f", "this null .m(..) .f (A) "),
        ("(((x)))", "x "),
        ("x.f = (A) y.g", "x y .g (A) .f= "),
        ("(A) (x.f = y)", "x y .f= (A) "),
        ("x.m(y.f = z, w)", "x y z .f= w .m(..) "),
        ("x.m(y.n(z)).f", "x y z .n(..) .m(..) .f "),
        ("x.original(y)", "x y .original(..) "),
        ("(original) x", "x (original) "),
    ];
    for (expr, nodes) in rows {
        let text = format!(in rt.alloc(); "class A {{ A m() {{ return {expr}; }} }}")?;
        let Ok(source) = java_of(rt.alloc(), text.as_str())? else {
            return Err(Fail::new("refused"));
        };
        let Some(root) = body_of(&source) else {
            return Err(Fail::new("no body"));
        };
        let shown = shown_expr(rt.alloc(), text.as_str(), &source, root)?;
        assert_eq!(rt; shown.as_str(), nodes);
    }
    Ok(())
}

// The root of a deep expression, whose number counts the nodes before it.
fn deep_expr(
    alloc: Global,
    front: &str,
    piece: &str,
    times: u32,
    last: &str,
) -> Result<Option<NodeId>, Fail> {
    let back = format!(in alloc; "{last}; }} }}")?;
    let front = format!(in alloc; "class A {{ A m() {{ return {front}")?;
    let text = repeated(alloc, front.as_str(), piece, times, back.as_str())?;
    match java_of(alloc, text.as_str())? {
        Ok(source) => Ok(body_of(&source)),
        Err(_) => Ok(None),
    }
}

// The root of a deep formula, likewise.
fn deep_formula(alloc: Global, piece: &str, times: u32) -> Result<Option<NodeId>, Fail> {
    let text = repeated(alloc, "line L { features; valid ", piece, times, "A; }")?;
    match line_of(alloc, text.as_str())? {
        Ok(source) => Ok(Some(source.valid)),
        Err(_) => Ok(None),
    }
}

#[test]
fn deep_casts_are_read(rt: HostRuntime) -> Result<(), Fail> {
    assert_eq!(rt;
        deep_expr(rt.alloc(), "", "(A) ", 200_000, "x")?,
        Some(NodeId(200_000))
    );
    Ok(())
}

#[test]
fn deep_fields_are_read(rt: HostRuntime) -> Result<(), Fail> {
    assert_eq!(rt;
        deep_expr(rt.alloc(), "x", ".f", 200_000, "")?,
        Some(NodeId(200_000))
    );
    Ok(())
}

#[test]
fn deep_assignments_are_read(rt: HostRuntime) -> Result<(), Fail> {
    assert_eq!(rt;
        deep_expr(rt.alloc(), "", "x.f = ", 200_000, "x")?,
        Some(NodeId(400_000))
    );
    Ok(())
}

#[test]
fn deep_negations_are_read(rt: HostRuntime) -> Result<(), Fail> {
    assert_eq!(rt;
        deep_formula(rt.alloc(), "!", 200_000)?,
        Some(NodeId(200_000))
    );
    Ok(())
}

#[test]
fn deep_implications_are_read(rt: HostRuntime) -> Result<(), Fail> {
    assert_eq!(rt;
        deep_formula(rt.alloc(), "A -> ", 100_000)?,
        Some(NodeId(200_000))
    );
    Ok(())
}
