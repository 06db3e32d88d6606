// The definition records of a list.
ghost use Rattle.std.specs.Prelude.{◌≡◌, ◌≤◌, length};
ghost use Rattle.constraint.specs.Meaning.{operands};
ghost use Rattle.constraint.specs.Ticks.{with_ticks};
ghost use Rattle.order.specs.Rows.{gathered};

use super::Defined;
use arrayvec::ArrayVec;
use constraint::{Constraint, Definition, Kind, TickSet};

// The operands of a definition, as a set of clocks.
fn operands(definition: &Definition, a: u8, b: u8) -> TickSet
    ensures { result ≡ with_ticks 0 (operands definition.now a b) }
{
    match definition {
        Definition::Await(_) => TickSet::EMPTY.with(a),
        _ => TickSet::EMPTY.with(b).with(a),
    }
}

// The definitions among the records, of which there are at most 32.
pub fn gather(records: &[Constraint]) -> ArrayVec<Defined, 32>
    requires { length (gathered 1 records.now) ≤ 32 }
    ensures { result.items ≡ gathered 1 records.now }
{
    let mut definitions = ArrayVec::new();
    for (i, constraint) in records.iter().enumerate() {
        let Kind::Defines(definition) = &constraint.kind else {
            continue;
        };
        definitions.push(Defined {
            number: i + 1,
            clock: constraint.defined,
            operands: operands(definition, constraint.first, constraint.second),
        });
    }
    definitions
}
