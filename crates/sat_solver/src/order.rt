//! The order in which variables are decided.
ghost use Rattle.std.specs.Prelude.{◌≡◌, ◌≤◌, length, All, IfOk, IfSome, None};
ghost use Rattle.sat_links.specs.Queues.{variables, IsQueue};
ghost use Rattle.sat_solver.specs.Entries.{value_in};

use crate::entry::Entry;
use crate::trail::Trail;
use sat_clauses::Lit;
use sat_links::DecisionQueue;
use std::alloc::{AllocError as NoMemory, Global};

/// A queue of the variables, and the one from which on all later ones are taken to have values. That place and the stamps
/// save walks from the queue's end, and nothing rests on them.
#[derive(Drop)]
pub(crate) struct Order {
    pub(crate) queue: DecisionQueue,
    stamps: Stamps,
    from: u64,
}

/// A number for each variable, which is greater for those later in the queue.
#[derive(Drop)]
struct Stamps {
    stamps: Vec<u64>,
    latest: u64,
}

impl Order {
    /// The variables from 1 to `vars`, in order.
    pub(crate) fn new(alloc: Global, vars: u64) -> Result<Order, NoMemory>
        ensures { IfOk result (λ order. order.queue ≡ variables vars) }
    {
        Ok(Order {
            queue: DecisionQueue::new(alloc, vars)?,
            stamps: Stamps::new(alloc, vars)?,
            from: vars,
        })
    }

    /// Moves the variables of a clause to the end, so that they are decided next.
    pub(crate) fn postpone(&mut self, clause: &[Lit])
        requires queue { IsQueue (length self.old.queue) self.old.queue }
        requires within { All (λ lit. (1 ≤ lit.var) × (lit.var ≤ length self.old.queue)) clause.now }
        ensures { IsQueue (length self.old.queue) self.new.queue }
    {
        move_to_end(&mut self.queue, clause);
        self.stamps.renew(clause);
    }

    /// Moves the place back to the latest of the variables that lose their values where the levels above a level are
    /// dropped.
    pub(crate) fn release(&mut self, entries: &[Entry], level: u64)
        ensures { self.new.queue ≡ self.old.queue }
    {
        self.from = self.stamps.latest_above(self.from, entries, level);
    }

    /// A variable without a value, by a walk back from the place, which moves there.
    pub(crate) fn next_free(&mut self, trail: &Trail) -> Option<u64>
        requires { IsQueue trail.now.vars self.old.queue }
        ensures queue { self.new.queue ≡ self.old.queue }
        ensures within { IfSome result (λ var. (1 ≤ var) × (var ≤ trail.now.vars)) }
        ensures free { IfSome result (λ var. value_in trail.now.entries var ≡ None) }
    {
        let found = free_before(&self.queue, trail, self.from);
        if let Some(var) = found {
            self.from = var;
        }
        found
    }
}

impl Stamps {
    /// The stamps of the variables in order.
    fn new(alloc: Global, vars: u64) -> Result<Stamps, NoMemory> {
        let mut stamps = Vec::new(alloc);
        for stamp in 0..vars {
            stamps.push(stamp)?;
        }
        Ok(Stamps {
            stamps,
            latest: vars,
        })
    }

    /// The stamp of a variable.
    fn of(&self, var: u64) -> u64 {
        let at = var.saturating_sub(1) as usize;
        if at < self.stamps.len() {
            self.stamps[at]
        } else {
            0
        }
    }

    /// New stamps for the variables of a clause, in the order of its literals.
    fn renew(&mut self, clause: &[Lit]) {
        for lit in clause {
            self.latest = self.latest.saturating_add(1);
            let at = lit.var.saturating_sub(1) as usize;
            if at < self.stamps.len() {
                self.stamps[at] = self.latest;
            }
        }
    }

    /// The latest of a variable and those of the levels above a level.
    fn latest_above(&self, from: u64, entries: &[Entry], level: u64) -> u64 {
        let mut latest = from;
        'back: for at in (0..entries.len()).rev() {
            let entry = entries[at];
            if entry.level <= level {
                break;
            }
            if self.of(entry.lit.var) > self.of(latest) {
                latest = entry.lit.var;
            }
        }
        latest
    }
}

/// Moves the variables of a clause to the end of a queue.
fn move_to_end(queue: &mut DecisionQueue, clause: &[Lit])
    requires queue { IsQueue (length queue.old) queue.old }
    requires within { All (λ lit. (1 ≤ lit.var) × (lit.var ≤ length queue.old)) clause.now }
    ensures { IsQueue (length queue.old) queue.new }
{
    for lit in clause {
        queue.move_to_end(lit.var);
    }
}

/// The first variable without a value by a walk back from a variable.
fn free_before(queue: &DecisionQueue, trail: &Trail, from: u64) -> Option<u64>
    requires { IsQueue trail.now.vars queue.now }
    ensures within { IfSome result (λ var. (1 ≤ var) × (var ≤ trail.now.vars)) }
    ensures free { IfSome result (λ var. value_in trail.now.entries var ≡ None) }
{
    let values = trail.values();
    if from == 0 || from > values.len() as u64 {
        return None;
    }
    let mut var = from;
    'back: for _ in 0..values.len() {
        if values[(var - 1) as usize].is_none() {
            return Some(var);
        }
        match queue.previous(var) {
            Some(before) => var = before,
            None => return None,
        }
    }
    None
}
