//! The command that the words say.
ghost use Rattle.std.specs.Prelude.{◌≡◌, map, if◌then◌else◌};
ghost use Rattle.std.specs.String.{string_bytes};
ghost use Rattle.dj_run.specs.Commands.{command_of as command_in_table, command_of_one, command_of_two, command_of_three, is_count as is_count_text, is_digit as is_digit_byte};
ghost use Rattle.dj_run.specs.Outcomes.{Reads};

/// A command, as far as it is built.
pub enum Command<'a> {
    /// A question about a file.
    Ask {
        file: &'a str,
        question: Question<'a>,
    },
    /// A command that isn't built yet.
    Unbuilt,
}

/// What is asked about a file.
#[derive(Drop)]
pub enum Question<'a> {
    /// Whether a product line is good.
    IsGood,
    /// The Java text of a configuration of a product line, in the order of deltas that a word gives where one is given.
    Generated {
        config: &'a str,
        order: Option<&'a str>,
    },
    /// Whether a Java file is well typed.
    IsTyped,
}

/// The command that the words say, or None where they say none.
pub fn command_of(words: &[String]) -> Option<Command<'_>>
    ensures { Reads result (command_in_table (map string_bytes words.now)) }
{
    match words {
        [word, operand] => with_one(word.as_str(), operand.as_str()),
        [word, first, second] => with_two(word.as_str(), first.as_str(), second.as_str()),
        [word, first, second, third] => {
            with_three(
                word.as_str(),
                first.as_str(),
                second.as_str(),
                third.as_str(),
            )
        }
        _ => None,
    }
}

fn with_one<'a>(word: &str, operand: &'a str) -> Option<Command<'a>>
    ensures { Reads result (command_of_one word.now operand.now) }
{
    if word == "check" {
        Some(Command::Ask {
            file: operand,
            question: Question::IsGood,
        })
    } else if word == "typecheck" {
        Some(Command::Ask {
            file: operand,
            question: Question::IsTyped,
        })
    } else {
        let takes_count = word == "sample" || word == "try";
        unbuilt(word == "explain" || takes_count && is_count(operand.as_bytes()))
    }
}

fn unbuilt<'a>(is_command: bool) -> Option<Command<'a>>
    ensures { result ≡ (if is_command then Some Command.Unbuilt else None) }
{
    if is_command {
        Some(Command::Unbuilt)
    } else {
        None
    }
}

fn with_two<'a>(word: &str, first: &'a str, second: &'a str) -> Option<Command<'a>>
    ensures { Reads result (command_of_two word.now first.now second.now) }
{
    if word == "generate" {
        Some(Command::Ask {
            file: first,
            question: Question::Generated {
                config: second,
                order: None,
            },
        })
    } else if word == "verify" {
        Some(Command::Unbuilt)
    } else {
        None
    }
}

fn with_three<'a>(
    word: &str,
    first: &'a str,
    second: &'a str,
    third: &'a str,
) -> Option<Command<'a>>
    ensures { Reads result (command_of_three word.now first.now second.now third.now) }
{
    if word != "generate" {
        return None;
    }
    Some(Command::Ask {
        file: first,
        question: Question::Generated {
            config: second,
            order: Some(third),
        },
    })
}

/// Whether a word is a decimal from 1 to 64, without sign or leading zero.
fn is_count(word: &[u8]) -> bool
    ensures { result ≡ is_count_text word.now }
{
    match word {
        [ones] => *ones >= b'1' && is_digit(*ones),
        [tens, ones] => {
            *tens >= b'1'
                && is_digit(*tens)
                && is_digit(*ones)
                && 10 * (*tens - b'0') + (*ones - b'0') <= 64
        }
        _ => false,
    }
}

fn is_digit(byte: u8) -> bool
    ensures { result ≡ is_digit_byte byte }
{
    byte.is_ascii_digit()
}
