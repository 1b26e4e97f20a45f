//! Refused words of the command line.
ghost use Rattle.std.specs.Prelude.{◌≡◌, ◌<◌, [], ◌∷◌, length, IfOk};
ghost use Rattle.dj_calculus.specs.Configurations.{pieces_of, ConfigurationFault};
ghost use Rattle.dj_calculus.specs.Products.{OrderFault};
ghost use Rattle.dj_line.specs.Words.{config_error};
ghost use Rattle.dj_line.specs.OrderWords.{order_error};
ghost use Rattle.dj_report.specs.Join.{joined as joined_texts, line_end};
ghost use Rattle.dj_report.specs.WordTexts.{piece_at, configuration_text, order_text as order_text_of, IsConfigurationRefusal, IsOrderRefusal};

use crate::join::joined;
use dj_line::{ConfigError, OrderError, pieces};
use std::alloc::{AllocError as NoMemory, Global};

/// Why a configuration word is refused: the text of its fault (`configuration_text`), which tells a piece as it stands
/// in the word. It needs an error other than want of memory, about a piece that the word has; pieces count from 0.
pub fn config_text(alloc: Global, word: &str, error: &ConfigError) -> Result<Vec<u8>, NoMemory>
    requires { IsConfigurationRefusal word.now error.now }
    ensures { IfOk result (λ text. (fault : ConfigurationFault) → error.now ≡ config_error fault
        → text.items ≡ configuration_text word.now fault) }
{
    match error {
        ConfigError::UnknownFeature(number) => {
            piece_text(
                alloc,
                b"configuration refused: unknown feature ",
                word,
                *number,
            )
        }
        ConfigError::RepeatedFeature(number) => {
            piece_text(
                alloc,
                b"configuration refused: repeated feature ",
                word,
                *number,
            )
        }
        ConfigError::NotValid => joined(alloc, &[b"configuration refused: not valid", b"\n"]),
        ConfigError::NoMemory => unreachable!(),
    }
}

/// Why an order word is refused: the text of its fault (`order_text`), as for configuration words.
pub fn order_text(alloc: Global, word: &str, error: &OrderError) -> Result<Vec<u8>, NoMemory>
    requires { IsOrderRefusal word.now error.now }
    ensures { IfOk result (λ text. (fault : OrderFault) → error.now ≡ order_error fault
        → text.items ≡ order_text_of word.now fault) }
{
    match error {
        OrderError::UnknownDelta(number) => {
            piece_text(alloc, b"order refused: unknown delta ", word, *number)
        }
        OrderError::NotAllowed => joined(alloc, &[b"order refused: not allowed", b"\n"]),
        OrderError::NoMemory => unreachable!(),
    }
}

/// Words about a piece, and the piece.
fn piece_text(alloc: Global, words: &[u8], word: &str, number: usize) -> Result<Vec<u8>, NoMemory>
    requires { number < length (pieces_of word.now) }
    ensures { IfOk result (λ text. text.items ≡ joined_texts (words.now ∷ piece_at word.now number ∷ line_end ∷ [])) }
{
    let pieces = pieces(alloc, word)?;
    joined(alloc, &[words, pieces[number].as_bytes(), b"\n"])
}
