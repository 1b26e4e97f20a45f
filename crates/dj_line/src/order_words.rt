//! Orders from words.
ghost use Rattle.std.specs.Prelude.{◌≡◌, ◌≢◌, ◌↔◌, ◌<◌, List, map, All, length, IfOk, IsOk, MatchResult, MatchBool};
ghost use Rattle.std.specs.List.Sorted.{IsPermutation};
ghost use Rattle.dj_tree.specs.Trees.{Delta};
ghost use Rattle.dj_calculus.specs.Products.{OrderFault, OrderWord, OrderWordFault};
ghost use Rattle.dj_line.specs.Lines.{plain_line};
ghost use Rattle.dj_line.specs.Orders.{plain_order};
ghost use Rattle.dj_line.specs.OrderWords.{order_error, IsPieceOrderError, IsOrderWordError, AreNamed, InOrder, active_along};

use crate::errors::{Config, Order, OrderError};
use crate::line::Line;
use crate::word_pieces::pieces;
use std::alloc::{AllocError as NoMemory, Global};

impl Line {
    /// The order of a word: the deltas that it names between its commas, and none for `-`. The first piece
    /// that names no delta is told, and then whether the order is allowed: part by part along the chain,
    /// the active deltas of the part, each once, in any order.
    pub fn order_of(&self, alloc: Global, config: &Config, word: &str) -> Result<Order, OrderError>
        requires { length config.now.chosen.items ≡ length (plain_line self.now).features }
        ensures answer { MatchResult result
            (λ order. OrderWord (plain_line self.now) config.now.chosen.items word.now (plain_order (plain_line self.now) order.deltas.items))
            (λ error. IsOrderWordError (plain_line self.now) config.now.chosen.items word.now error) }
        ensures below { IfOk result (λ order. All (λ delta. delta < length (plain_line self.now).deltas) order.deltas.items) }
        ensures given { result ≢ Err OrderError.NoMemory
            → IsOk result ↔ ((order : List Delta) × OrderWord (plain_line self.now) config.now.chosen.items word.now order) }
        ensures refused { (fault : OrderFault) → result ≢ Err OrderError.NoMemory
            → ((result ≡ Err (order_error fault)) ↔ OrderWordFault (plain_line self.now) config.now.chosen.items word.now fault) }
    {
        self.word_order(alloc, config, word)
    }

    fn word_order(&self, alloc: Global, config: &Config, word: &str) -> Result<Order, OrderError>
        requires { length config.now.chosen.items ≡ length (plain_line self.now).features }
        ensures below { IfOk result (λ order. All (λ delta. delta < length (plain_line self.now).deltas) order.deltas.items) }
        ensures answer { MatchResult result
            (λ order. OrderWord (plain_line self.now) config.now.chosen.items word.now (plain_order (plain_line self.now) order.deltas.items))
            (λ error. IsOrderWordError (plain_line self.now) config.now.chosen.items word.now error) }
    {
        let pieces = pieces(alloc, word)?;
        let deltas = self.deltas_named(alloc, &pieces)?;
        if self.is_in_order(alloc, config, &deltas)? {
            Ok(Order { deltas })
        } else {
            Err(OrderError::NotAllowed)
        }
    }

    // The deltas that these pieces name.
    fn deltas_named(&self, alloc: Global, pieces: &[&str]) -> Result<Vec<u32>, OrderError>
        ensures { MatchResult result
            (λ deltas. AreNamed (plain_line self.now) (map (λ p. p.now) pieces.now) deltas.items)
            (λ error. IsPieceOrderError (plain_line self.now) (map (λ p. p.now) pieces.now) error) }
    {
        let mut deltas = Vec::new(alloc);
        for (k, piece) in pieces.iter().enumerate() {
            let Some(delta) = self.delta_named(piece) else {
                return Err(OrderError::UnknownDelta(k));
            };
            if deltas.push(delta).is_err() {
                return Err(OrderError::NoMemory);
            }
        }
        Ok(deltas)
    }

    // Whether these are the active deltas of each part along the chain, those of a part in any order.
    fn is_in_order(&self, alloc: Global, config: &Config, deltas: &[u32]) -> Result<bool, NoMemory>
        requires { length config.now.chosen.items ≡ length (plain_line self.now).features }
        ensures { IfOk result (λ b. MatchBool b
            (InOrder (active_along (plain_line self.now) config.now.chosen.items) deltas.now)
            (¬ InOrder (active_along (plain_line self.now) config.now.chosen.items) deltas.now)) }
    {
        let mut rest = deltas;
        for part in 0..self.items.len() {
            let active = self.active(alloc, config, self.items[part].as_slice())?;
            if rest.len() < active.len() {
                return Ok(false);
            }
            let (mine, later) = rest.split_at(active.len());
            if !are_same(alloc, active, mine)? {
                return Ok(false);
            }
            rest = later;
        }
        Ok(rest.is_empty())
    }
}

// Whether the other numbers are these in some order.
fn are_same(alloc: Global, numbers: Vec<u32>, others: &[u32]) -> Result<bool, NoMemory>
    ensures { IfOk result (λ b. MatchBool b (IsPermutation numbers.items others.now) (¬ IsPermutation numbers.items others.now)) }
{
    let mut first = numbers;
    let mut second = Vec::from_slice(alloc, others)?;
    first.sort()?;
    second.sort()?;
    Ok(first.as_slice() == second.as_slice())
}
