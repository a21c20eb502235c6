// The turns of the machine on the lent list.
ghost use Rattle.graph.specs.Arrows.{SomeOf, EveryOf};
ghost use Rattle.decompose.specs.Turns.{DriveAsk, Driven};

use machine::Machine;
use memory::layout::Layout;
use waiting::Part;

// Turns until nothing is left to do: a record is read, the machine steps, and a record is put there.
pub fn drive(
    w: &mut [u32],
    words: &mut [u64],
    at: Layout,
    parts: &mut [Part],
    begun: Machine,
) -> Machine
    requires { SomeOf at.n at.m (λ g. DriveAsk g at.base parts.old w.old words.old begun) }
    ensures { EveryOf at.n at.m (λ g. DriveAsk g at.base parts.old w.old words.old begun → Driven g parts.old w.old words.old begun parts.new w.new words.new result) }
{
    let mut s = begun;
    // a `while`, since each turn says whether another follows
    while let Some(i) = s.next {
        s = s.step(w, words, at, parts[i]);
        parts[i] = s.part;
    }
    s
}
