//! Variables in the order in which they are decided.
ghost use Rattle.std.specs.Prelude.{◌≡◌, ◌↔◌, ◌<◌, length, slice_set, All, Contains, IfOk, IfSome, IsNone};
ghost use Rattle.sat_links.specs.Queues.{variables, IsQueue, moved_to_end, HasValue, IsLastFree, Precedes};

use std::alloc::{AllocError as NoMemory, Global};
use std::marker::Model;

/// A queue that has each variable from 1 to its length once. A clause sees the list of the variables, first to last.
#[derive(Drop)]
pub struct DecisionQueue {
    ring: Ring,
}

/// The variables and 0 in a ring, in which the first variable follows 0, and 0 the last.
#[derive(Drop)]
struct Ring {
    previous: Vec<usize>,
    next: Vec<usize>,
}

impl Ring {
    /// Makes one number follow another.
    fn link(&mut self, before: usize, after: usize)
        requires before { before < length self.old.next.items }
        requires after { after < length self.old.previous.items }
        ensures next { self.new.next.items ≡ slice_set self.old.next.items before after }
        ensures previous { self.new.previous.items ≡ slice_set self.old.previous.items after before }
    {
        self.next[before] = after;
        self.previous[after] = before;
    }
}

impl Model for DecisionQueue {
    ghost use Rattle.std.specs.Prelude.{List, ℕ};

    ghost Value = { List ℕ };

    ghost use Rattle.sat_links.specs.Rings.{ring_of, IsRing};

    ghost view = { λ q. ring_of q.ring.next.items };

    ghost invariant = { λ q. IsRing q.ring.previous.items q.ring.next.items };
}

impl DecisionQueue {
    /// The variables from 1 to `vars`, in order.
    pub fn new(alloc: Global, vars: u64) -> Result<DecisionQueue, NoMemory>
        ensures { IfOk result (λ queue. queue ≡ variables vars) }
    {
        let vars = vars as usize;
        let mut previous = Vec::new(alloc);
        let mut next = Vec::new(alloc);
        previous.push(vars)?;
        for var in 0..vars {
            previous.push(var)?;
            next.push(var + 1)?;
        }
        next.push(0)?;
        Ok(DecisionQueue {
            ring: Ring { previous, next },
        })
    }

    /// Moves a variable of the queue to its end, in constant time. The others keep their order.
    pub fn move_to_end(&mut self, var: u64)
        requires { Contains self.old var }
        ensures moved { self.new ≡ moved_to_end var self.old }
        ensures each_once { IsQueue (length self.old) self.new }
    {
        let var = var as usize;
        let (before, after) = (self.ring.previous[var], self.ring.next[var]);
        self.ring.link(before, after);
        let last = self.ring.previous[0];
        self.ring.link(last, var);
        self.ring.link(var, 0);
    }

    /// The variable right before one of the queue's, or `None` for the first.
    pub fn previous(&self, var: u64) -> Option<u64>
        requires { Contains self.now var }
        ensures { Precedes self.now var result }
    {
        let before = self.ring.previous[var as usize];
        if before == 0 {
            None
        } else {
            Some(before as u64)
        }
    }

    /// The last variable of the queue without a value, or `None` where all have one. The value of variable v is at v - 1.
    pub fn last_free(&self, values: &[Option<bool>]) -> Option<u64>
        requires { length values.now ≡ length self.now }
        ensures last { IfSome result (IsLastFree values.now self.now) }
        ensures none { IsNone result ↔ All (HasValue values.now) self.now }
        ensures each_once { IsQueue (length self.now) self.now }
    {
        let mut at = self.ring.previous[0];
        'back: while at != 0 {
            if values[at - 1].is_none() {
                return Some(at as u64);
            }
            at = self.ring.previous[at];
        }
        None
    }
}
