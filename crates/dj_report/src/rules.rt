//! Broken rules.
ghost use Rattle.std.specs.Prelude.{◌≡◌, ◌≤◌, length, IfOk, string_bytes};
ghost use Rattle.std.specs.Fmt.{decimal};
ghost use Rattle.dj_refusals.specs.Sayable.{CanBeSaid};
ghost use Rattle.dj_report.specs.Rules.{IsRuleText, rule_words as rule_words_of, rule_line, rule_line_with};

use crate::join::joined;
use crate::place::place_text;
use dj_lexer::token_at;
use dj_tree::Instance;
use std::alloc::{AllocError as NoMemory, Global};

/// The line that tells an instance of a rule: the number and the words of its rule, the token that begins at its place,
/// and the place as line and column in the bytes; of rule 1 the second place too. It needs a rule from 1 to 23,
/// byte offsets that aren't behind the bytes, and that the bytes have tokens in one of the two dialects, one of which
/// begins at the place (`CanBeSaid`). Nothing is asked of how many brackets are open. `IsRuleText` says which line it is.
pub fn rule_text(alloc: Global, bytes: &[u8], instance: &Instance) -> Result<Vec<u8>, NoMemory>
    requires small { length bytes.now ≤ 4194305 }
    requires said { CanBeSaid bytes.now instance.now }
    ensures { IfOk result (λ text. IsRuleText bytes.now instance.now text.items) }
{
    let number = decimal_text(alloc, instance.rule)?;
    let words = rule_words(instance.rule);
    let name = token_at(bytes, instance.at);
    let place = place_text(alloc, bytes, instance.at)?;
    if instance.rule != 1 {
        return one_place_text(alloc, &number, words, name, &place);
    }
    let second = place_text(alloc, bytes, instance.second)?;
    two_places_text(alloc, &number, words, name, &place, &second)
}

fn one_place_text(
    alloc: Global,
    number: &str,
    words: &str,
    name: &[u8],
    place: &str,
) -> Result<Vec<u8>, NoMemory>
    ensures { IfOk result (λ text. text.items ≡ rule_line number.now words.now name.now place.now) }
{
    joined(
        alloc,
        &[
            b"rule ",
            number.as_bytes(),
            b" ",
            words.as_bytes(),
            b": ",
            name,
            b" at ",
            place.as_bytes(),
            b"\n",
        ],
    )
}

fn two_places_text(
    alloc: Global,
    number: &str,
    words: &str,
    name: &[u8],
    place: &str,
    second: &str,
) -> Result<Vec<u8>, NoMemory>
    ensures { IfOk result (λ text. text.items ≡ rule_line_with number.now words.now name.now place.now second.now) }
{
    joined(
        alloc,
        &[
            b"rule ",
            number.as_bytes(),
            b" ",
            words.as_bytes(),
            b": ",
            name,
            b" at ",
            place.as_bytes(),
            b" and ",
            second.as_bytes(),
            b"\n",
        ],
    )
}

fn decimal_text(alloc: Global, rule: u8) -> Result<String, NoMemory>
    ensures { IfOk result (λ text. string_bytes text ≡ decimal rule) }
{
    format!(in alloc; "{rule}")
}

/// The words of a rule.
fn rule_words(rule: u8) -> &'static str
    requires from_one { 1 ≤ rule }
    requires to_last { rule ≤ 23 }
    ensures { result.now ≡ rule_words_of rule }
{
    match rule {
        1 => "overlap",
        2 => "class there",
        3 => "class missing",
        4 => "field there",
        5 => "field missing",
        6 => "method there",
        7 => "method missing",
        8 => "signature differs",
        9 => "unknown superclass",
        10 => "circular superclasses",
        11 => "unknown type",
        12 => "hidden field",
        13 => "override differs",
        14 => "unknown variable",
        15 => "unknown class",
        16 => "no field",
        17 => "no method",
        18 => "number of arguments",
        19 => "argument type",
        20 => "assigned type",
        21 => "returned type",
        22 => "unrelated cast",
        _ => "member of null",
    }
}
