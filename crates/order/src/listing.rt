// The definitions of a list in working order.
ghost use Rattle.std.specs.Prelude.{◌≡◌, ◌<◌, ◌≤◌, ◌^◌, true, length};
ghost use Rattle.std.specs.Int.Bits.{bit_xor};
ghost use Rattle.constraint.specs.Ticks.{bits};
ghost use Rattle.std.specs.List.{find};
ghost use Rattle.std.specs.Option.{option_copied};
ghost use Rattle.order.specs.Rows.{ready_among, clocks_left, turns_of};

use super::Defined;
use arrayvec::ArrayVec;
use constraint::TickSet;

impl Defined {
    // Whether the definition is not listed yet, and those of its operands are.
    fn is_ready(&self, left: TickSet) -> bool
        ensures { result ≡ ready_among left self.now }
    {
        left.contains(self.clock) && self.operands.bits() & left.bits() == 0
    }
}

// The clocks that are defined.
fn defined_clocks(definitions: &[Defined]) -> TickSet
    ensures { result ≡ clocks_left definitions.now }
{
    definitions.iter().fold(
        TickSet::EMPTY,
        |clocks, definition| clocks.with(definition.clock),
    )
}

// The lowest definition that is ready.
fn lowest_ready(definitions: &[Defined], left: TickSet) -> Option<&Defined>
    ensures { option_copied result ≡ find (ready_among left) definitions.now }
{
    definitions
        .iter()
        .find(|definition| definition.is_ready(left))
}

// The clocks that are left without one of them.
#[tactic(auto, using(crate::proofs::BitLaws::clock_below, crate::proofs::Turns::without_room))]
fn without(left: TickSet, clock: u8) -> TickSet
    requires { bits left clock ≡ true }
    ensures { result ≡ bit_xor left (2 ^ clock) }
{
    TickSet::from_bits(left.bits() ^ 1 << clock)
}

// Lists the lowest definition that is ready, and then looks again from the lowest, until none is.
#[tactic(auto, using(crate::proofs::Turns::turns_none, crate::proofs::Turns::turns_on, crate::proofs::Turns::turns_over, crate::proofs::Turns::ready_left))]
pub fn in_turns(definitions: &[Defined]) -> ArrayVec<usize, 32>
    requires { length definitions.now ≤ 32 }
    ensures { result.items ≡ turns_of (length definitions.now) (clocks_left definitions.now) definitions.now }
{
    let mut order = ArrayVec::new();
    let mut left = defined_clocks(definitions);
    for _ in definitions {
        let Some(next) = lowest_ready(definitions, left) else {
            break;
        };
        order.push(next.number);
        left = without(left, next.clock);
    }
    order
}
