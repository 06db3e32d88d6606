// The definitions of a list of records in working order, or the lowest record on a circle of definitions.
#![tactic(auto)]

mod circles;
mod gathering;
mod listing;

ghost use Rattle.std.specs.Prelude.{◌≡◌};
ghost use Rattle.order.specs.Order.{order_told, order_of};

use arrayvec::ArrayVec;
use circles::lowest_on_circle;
use constraint::{Clocks, Constraint, TickSet, broken_record};
use gathering::gather;
use limit::{Limit, Place, Refusal};
use listing::in_turns;

// A definition record: its number, from 1, the clock that it defines, and the set of its operands.
#[derive(Clone, Copy, Debug, PartialEq, Eq)]
struct Defined {
    number: usize,
    clock: u8,
    operands: TickSet,
}

// What stands in a place that is not used.
impl Default for Defined {
    fn default() -> Self {
        Defined {
            number: 0,
            clock: 0,
            operands: TickSet::EMPTY,
        }
    }
}

// The definitions of the records in working order, by their numbers: each comes after those of its operands, the lowest that is ready each time.
pub fn definition_order(
    records: &[Constraint],
    clocks: Clocks,
) -> Result<ArrayVec<usize, 32>, Refusal>
    ensures { order_told result ≡ order_of clocks records.now }
{
    if let Some(place) = broken_record(records, clocks) {
        return Err(Limit::Records.at(place));
    }
    let definitions = gather(records);
    if let Some(lowest) = lowest_on_circle(&definitions) {
        return Err(Limit::Circle.at(Place(lowest.number)));
    }
    Ok(in_turns(&definitions))
}
