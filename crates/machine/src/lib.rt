// The machine of the decomposer: it decides what the next turn does with the list of waiting parts.
#![tactic(auto)]

ghost use Rattle.std.specs.Prelude.{◌≡◌, cond, eqb};
ghost use Rattle.machine.specs.Orders.{order_of, Reads};
ghost use Rattle.machine.specs.Aim.{AimAsk, wrapped, aim as aim_of, aimed as aimed_of};

use graph::refusal::Refusal;
use pivot::chooser::Chooser;
use sweep::Method;
use waiting::Part;

mod step;

// The record that stands where no part waits.
pub const NONE: Part = Part {
    first: 0,
    slicing: 0,
};

// Which of the waiting parts is taken.
#[derive(Clone, Copy, Debug, PartialEq, Eq)]
pub enum Order {
    Newest,
    Oldest,
}

impl TryFrom<u32> for Order {
    type Error = Refusal;

    ghost try_from_gives = { Reads };

    fn try_from(order: u32) -> Result<Order, Refusal> {
        match order {
            0 => Ok(Order::Newest),
            1 => Ok(Order::Oldest),
            _ => Err(Refusal::UnknownChoice),
        }
    }
}

impl Order {
    // The order that a number stands for where none is refused: 0 takes the newest, and every other number the oldest.
    pub fn of(order: u32) -> Order
        ensures { order_of result ≡ cond (eqb order 0) 0 1 }
    {
        match order {
            0 => Order::Newest,
            _ => Order::Oldest,
        }
    }
}

#[derive(Clone, Copy)]
pub struct Machine {
    // the place of the list that the next turn takes, None when nothing is left to do; and what the last turn put
    pub next: Option<usize>,
    pub part: Part,
    // a copy of the lent chooser, advanced by the draws made; its kind is a number, as C lends it
    pub chooser: Chooser,
    pub made: usize,
    pub order: Order,
    // the records set to zeros, the place of the oldest record, and how many wait
    pub cleared: usize,
    pub oldest: usize,
    pub count: usize,
    // the pending parts: those on the list already, and all of them
    pub given: usize,
    pub pending: usize,
    // Slice while the whole has still to be sliced
    pub method: Method,
    // the first colour that no part has
    pub top: usize,
}

// Place x, going round over n places. A remainder is no plainer: it divides, and asks 0 < n and x < 2 n of every caller.
fn wrap(n: usize, x: usize) -> usize
    ensures { result ≡ wrapped n x }
{
    if x < n {
        return x;
    }
    x - n
}

impl Machine {
    // The place that the next turn takes: one to clear, a free one for a pending part, or the record whose turn it is.
    fn aim(self, n: usize) -> Option<usize>
        requires { AimAsk self }
        ensures { result ≡ aim_of n self }
    {
        if self.cleared < n {
            return Some(self.cleared);
        }
        if self.given < self.pending {
            return Some(wrap(n, self.oldest + self.count));
        }
        if self.count == 0 {
            return None;
        }
        match self.order {
            Order::Newest => Some(wrap(n, self.oldest + (self.count - 1))),
            Order::Oldest => Some(self.oldest),
        }
    }

    // The machine ready for its next turn.
    pub fn aimed(self, n: usize) -> Machine
        requires { AimAsk self }
        ensures { result ≡ aimed_of n self }
    {
        Machine {
            next: self.aim(n),
            ..self
        }
    }
}
