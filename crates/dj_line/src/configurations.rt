//! Configurations from words.
ghost use Rattle.std.specs.Prelude.{◌≡◌, ◌≢◌, ◌↔◌, map, IsOk, MatchResult};
ghost use Rattle.dj_calculus.specs.Configurations.{Configuration, ConfigurationFault, ConfigurationWord, ConfigurationWordFault, HasNoPieceFault, choosing};
ghost use Rattle.dj_line.specs.Lines.{plain_line};
ghost use Rattle.dj_line.specs.Words.{config_error, IsPieceError, IsWordError};

use crate::errors::{Config, ConfigError};
use crate::line::Line;
use crate::word_pieces::pieces;
use dj_formula::eval;
use std::alloc::Global;

impl Line {
    /// The configuration of a word: the features that it names between its commas, and none for `-`. The
    /// first piece that is no feature or stood before is told, and then whether the configuration is
    /// valid. The empty word has one piece, the empty text.
    pub fn config_of(&self, alloc: Global, word: &str) -> Result<Config, ConfigError>
        ensures answer { MatchResult result (λ config. ConfigurationWord (plain_line self.now) word.now config.chosen.items)
            (λ error. IsWordError (plain_line self.now) word.now error) }
        ensures given { result ≢ Err ConfigError.NoMemory
            → IsOk result ↔ ((c : Configuration) × ConfigurationWord (plain_line self.now) word.now c) }
        ensures refused { (fault : ConfigurationFault) → result ≢ Err ConfigError.NoMemory
            → ((result ≡ Err (config_error fault)) ↔ ConfigurationWordFault (plain_line self.now) word.now fault) }
    {
        self.word_config(alloc, word)
    }

    fn word_config(&self, alloc: Global, word: &str) -> Result<Config, ConfigError>
        ensures { MatchResult result (λ config. ConfigurationWord (plain_line self.now) word.now config.chosen.items)
            (λ error. IsWordError (plain_line self.now) word.now error) }
    {
        let pieces = pieces(alloc, word)?;
        let chosen = self.choose(alloc, &pieces)?;
        if eval(alloc, self.formula(None), &chosen)? {
            Ok(Config { chosen })
        } else {
            Err(ConfigError::NotValid)
        }
    }

    // The configuration that chooses these pieces, where each is a feature and stands once.
    fn choose(&self, alloc: Global, pieces: &[&str]) -> Result<Vec<bool>, ConfigError>
        ensures { MatchResult result
            (λ chosen. HasNoPieceFault (plain_line self.now) (map (λ p. p.now) pieces.now)
            × (chosen.items ≡ choosing (plain_line self.now) (map (λ p. p.now) pieces.now)))
            (λ error. IsPieceError (plain_line self.now) (map (λ p. p.now) pieces.now) error) }
    {
        let mut chosen = vec![in alloc; false; self.feature_count()]?;
        for (k, piece) in pieces.iter().enumerate() {
            let Some(number) = self.feature_named(piece) else {
                return Err(ConfigError::UnknownFeature(k));
            };
            if chosen[number as usize] {
                return Err(ConfigError::RepeatedFeature(k));
            }
            chosen[number as usize] = true;
        }
        Ok(chosen)
    }
}
