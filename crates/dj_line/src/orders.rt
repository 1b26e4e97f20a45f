//! Orders of the active deltas.
ghost use Rattle.std.specs.Prelude.{◌≡◌, ◌<◌, length, filter, All, IfOk};
ghost use Rattle.dj_calculus.specs.Products.{default_order as plain_default_order, IsAllowed};
ghost use Rattle.dj_line.specs.Lines.{plain_line};
ghost use Rattle.dj_line.specs.Orders.{plain_order, is_active as is_active_in};

use crate::errors::{Config, Order};
use crate::line::Line;
use dj_formula::eval;
use std::alloc::{AllocError as NoMemory, Global};

impl Line {
    /// The order in which the items of the active deltas stand, part by part along the chain. It is
    /// allowed.
    pub fn default_order(&self, alloc: Global, config: &Config) -> Result<Order, NoMemory>
        requires { length config.now.chosen.items ≡ length (plain_line self.now).features }
        ensures order { IfOk result (λ order. plain_order (plain_line self.now) order.deltas.items
            ≡ plain_default_order (plain_line self.now) config.now.chosen.items) }
        ensures allowed { IfOk result (λ order. IsAllowed (plain_line self.now) config.now.chosen.items (plain_order (plain_line self.now) order.deltas.items)) }
        ensures below { IfOk result (λ order. All (λ delta. delta < length (plain_line self.now).deltas) order.deltas.items) }
    {
        let mut deltas = Vec::new(alloc);
        for part in 0..self.items.len() {
            let active = self.active(alloc, config, self.items[part].as_slice())?;
            deltas.extend_from_slice(&active)?;
        }
        Ok(Order { deltas })
    }

    // Those of these deltas whose condition holds.
    pub(crate) fn active(
        &self,
        alloc: Global,
        config: &Config,
        deltas: &[u32],
    ) -> Result<Vec<u32>, NoMemory>
        requires features { length config.now.chosen.items ≡ length (plain_line self.now).features }
        requires below { All (λ delta. delta < length (plain_line self.now).deltas) deltas.now }
        ensures { IfOk result (λ active. active.items ≡ filter (is_active_in (plain_line self.now) config.now.chosen.items) deltas.now) }
    {
        let mut active = Vec::new(alloc);
        for delta in deltas {
            if self.is_active(alloc, config, *delta)? {
                active.push(*delta)?;
            }
        }
        Ok(active)
    }

    /// Whether the condition of the delta of a number holds in a configuration.
    pub fn is_active(&self, alloc: Global, config: &Config, delta: u32) -> Result<bool, NoMemory>
        requires features { length config.now.chosen.items ≡ length (plain_line self.now).features }
        requires below { delta < length (plain_line self.now).deltas }
        ensures { IfOk result (λ active. active ≡ is_active_in (plain_line self.now) config.now.chosen.items delta) }
    {
        eval(alloc, self.formula(Some(delta)), &config.chosen)
    }
}
