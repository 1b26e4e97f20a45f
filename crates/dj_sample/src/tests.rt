//! The samples of one and two features, letter by letter, and how long the longest is.
use super::*;
use std::test::Fail;

const ONE: &str = "line Sample {
  features F1;
  valid true;
  part base { Base; }
  part choice after base {
    On1 when F1;
    Off1 when !F1;
  }
}
delta Base {
  adds class Node { Node next; Node run(Node x) { return x; } }
  adds class Main extends Node {
    Node go1(Node x) { return new C1().run(x); }
  }
}
delta On1 { adds class C1 extends Node { Node f1; Node run(Node x) { return this.f1.run(x); } } }
delta Off1 { adds class C1 extends Node { Node run(Node x) { return this.next; } } }
";

const TWO: &str = "line Sample {
  features F1, F2;
  valid true;
  part base { Base; }
  part choice after base {
    On1 when F1;
    Off1 when !F1;
    On2 when F2;
    Off2 when !F2;
  }
}
delta Base {
  adds class Node { Node next; Node run(Node x) { return x; } }
  adds class Main extends Node {
    Node go1(Node x) { return new C1().run(x); }
    Node go2(Node x) { return new C2().run(x); }
  }
}
delta On1 { adds class C1 extends Node { Node f1; Node run(Node x) { return this.f1.run(x); } } }
delta Off1 { adds class C1 extends Node { Node run(Node x) { return this.next; } } }
delta On2 { adds class C2 extends C1 { Node f2; Node run(Node x) { return this.f2.run(x); } } }
delta Off2 { adds class C2 extends Node { Node run(Node x) { return this.next; } } }
";

#[test]
fn small_samples_are_the_listing(rt: HostRuntime) -> Result<(), Fail> {
    let one = sample(rt.alloc(), 1)?;
    assert_eq!(rt; one.as_slice(), ONE.as_bytes());
    let two = sample(rt.alloc(), 2)?;
    assert_eq!(rt; two.as_slice(), TWO.as_bytes());
    Ok(())
}

#[test]
fn the_longest_sample(rt: HostRuntime) -> Result<(), Fail> {
    let text = sample(rt.alloc(), 64)?;
    assert_eq!(rt; text.len(), 18261);
    Ok(())
}
