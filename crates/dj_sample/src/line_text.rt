//! The text of a sample, section by section.
ghost use Rattle.std.specs.Prelude.{◌≡◌, ◌≤◌, ◌+◌, IfOk, string_bytes};
ghost use Rattle.dj_sample.specs.Samples.{sample as sample_text, listing as listing_of, for_each, feature as feature_of, placing as placing_of, call as call_of, parent as parent_of, on as on_of, off as off_of, deltas as deltas_of};

use std::alloc::{AllocError as NoMemory, Global};

/// The text of the sample line of n features, as `sample` of `specs/Samples` says it. `NoMemory` is for want of memory
/// alone.
pub fn sample(alloc: Global, n: u8) -> Result<Vec<u8>, NoMemory>
    requires some { 1 ≤ n }
    requires few { n ≤ 64 }
    ensures { IfOk result (λ text. text.items ≡ sample_text n) }
{
    let features = features(alloc, n)?;
    let placings = placings(alloc, n)?;
    let calls = calls(alloc, n)?;
    let deltas = deltas(alloc, n)?;
    let text = listing(alloc, &features, &placings, &calls, &deltas)?;
    Ok(text.into_bytes())
}

// The sample from its lists.
fn listing(
    alloc: Global,
    features: &str,
    placings: &str,
    calls: &str,
    deltas: &str,
) -> Result<String, NoMemory>
    ensures { IfOk result (λ text. string_bytes text ≡ listing_of features.now placings.now calls.now deltas.now) }
{
    format!(in alloc;
        "line Sample {{\n  features {features};\n  valid true;\n  part base {{ Base; }}\n  part choice after base {{\n{placings}  }}\n}}\ndelta Base {{\n  adds class Node {{ Node next; Node run(Node x) {{ return x; }} }}\n  adds class Main extends Node {{\n{calls}  }}\n}}\n{deltas}"
    )
}

// The names of the features, with commas between them.
fn features(alloc: Global, n: u8) -> Result<String, NoMemory>
    ensures { IfOk result (λ text. string_bytes text ≡ for_each n feature_of) }
{
    let mut text = String::new(alloc);
    for i in 0..n {
        let next = feature(alloc, i + 1)?;
        text.push_str(&next)?;
    }
    Ok(text)
}

fn feature(alloc: Global, i: u8) -> Result<String, NoMemory>
    ensures { IfOk result (λ text. string_bytes text ≡ feature_of i) }
{
    if i == 1 {
        String::from_str(alloc, "F1")
    } else {
        format!(in alloc; ", F{i}")
    }
}

// The lines that place the two deltas of each number.
fn placings(alloc: Global, n: u8) -> Result<String, NoMemory>
    ensures { IfOk result (λ text. string_bytes text ≡ for_each n placing_of) }
{
    let mut text = String::new(alloc);
    for i in 0..n {
        let next = placing(alloc, i + 1)?;
        text.push_str(&next)?;
    }
    Ok(text)
}

fn placing(alloc: Global, i: u8) -> Result<String, NoMemory>
    ensures { IfOk result (λ text. string_bytes text ≡ placing_of i) }
{
    format!(in alloc; "    On{i} when F{i};\n    Off{i} when !F{i};\n")
}

// The methods of `Main`, which call the class of each number.
fn calls(alloc: Global, n: u8) -> Result<String, NoMemory>
    ensures { IfOk result (λ text. string_bytes text ≡ for_each n call_of) }
{
    let mut text = String::new(alloc);
    for i in 0..n {
        let next = call(alloc, i + 1)?;
        text.push_str(&next)?;
    }
    Ok(text)
}

fn call(alloc: Global, i: u8) -> Result<String, NoMemory>
    ensures { IfOk result (λ text. string_bytes text ≡ call_of i) }
{
    format!(in alloc; "    Node go{i}(Node x) {{ return new C{i}().run(x); }}\n")
}

// The two deltas of each number.
fn deltas(alloc: Global, n: u8) -> Result<String, NoMemory>
    ensures { IfOk result (λ text. string_bytes text ≡ for_each n deltas_of) }
{
    let mut text = String::new(alloc);
    for i in 0..n {
        let next = deltas_at(alloc, i + 1)?;
        text.push_str(&next)?;
    }
    Ok(text)
}

fn deltas_at(alloc: Global, i: u8) -> Result<String, NoMemory>
    requires { 1 ≤ i }
    ensures { IfOk result (λ text. string_bytes text ≡ deltas_of i) }
{
    let parent = parent(alloc, i)?;
    let on = delta_on(alloc, i, &parent)?;
    let off = delta_off(alloc, i)?;
    format!(in alloc; "{on}{off}")
}

fn delta_on(alloc: Global, i: u8, parent: &str) -> Result<String, NoMemory>
    ensures { IfOk result (λ text. string_bytes text ≡ on_of parent.now i) }
{
    format!(in alloc;
        "delta On{i} {{ adds class C{i} extends {parent} {{ Node f{i}; Node run(Node x) {{ return this.f{i}.run(x); }} }} }}\n"
    )
}

fn delta_off(alloc: Global, i: u8) -> Result<String, NoMemory>
    ensures { IfOk result (λ text. string_bytes text ≡ off_of i) }
{
    format!(in alloc;
        "delta Off{i} {{ adds class C{i} extends Node {{ Node run(Node x) {{ return this.next; }} }} }}\n"
    )
}

// The superclass of the class of a number, where its feature is chosen.
fn parent(alloc: Global, i: u8) -> Result<String, NoMemory>
    requires { 1 ≤ i }
    ensures { IfOk result (λ text. string_bytes text ≡ parent_of i) }
{
    if i == 1 {
        String::from_str(alloc, "Node")
    } else {
        let before = i - 1;
        format!(in alloc; "C{before}")
    }
}
