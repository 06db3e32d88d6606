// Circles of definitions: the links between clocks, from a clock to the operands of its definition, are closed clock by clock.
ghost use Rattle.std.specs.Prelude.{◌≡◌, ◌<◌, true};
ghost use Rattle.constraint.specs.Meaning.{all_below};
ghost use Rattle.std.specs.List.{find};
ghost use Rattle.std.specs.Option.{option_copied};
ghost use Rattle.order.specs.Rows.{clocks_in, rows_of, row_through, rows_through, closed_from, on_circle};

use super::Defined;
use constraint::TickSet;

// The links: row c has the operands of the definition of clock c.
fn rows_of(definitions: &[Defined]) -> [TickSet; 32]
    requires { all_below 32 (clocks_in definitions.now) ≡ true }
    ensures { result ≡ rows_of definitions.now }
{
    let mut rows = [TickSet::EMPTY; 32];
    for definition in definitions {
        rows[definition.clock as usize] = definition.operands;
    }
    rows
}

// A row, and what clock k leads to if the row has k.
fn row_through(k: u8, by: TickSet, row: TickSet) -> TickSet
    ensures { result ≡ row_through k by row }
{
    if row.contains(k) {
        TickSet::from_bits(row.bits() | by.bits())
    } else {
        row
    }
}

// Adds to the links those that go by clock k.
fn through(k: u8, rows: &mut [TickSet; 32])
    requires { k < 32 }
    ensures { rows.new ≡ rows_through k rows.old }
{
    let by = rows[k as usize];
    for row in rows {
        *row = row_through(k, by, *row);
    }
}

// Adds to the links those that go by any clocks.
#[tactic(auto, using(crate::proofs::Closing::closed_on, crate::proofs::Closing::closed_done))]
fn close(rows: &mut [TickSet; 32])
    ensures { rows.new ≡ closed_from 32 0 rows.old }
{
    for k in 0..32 {
        through(k, rows);
    }
}

impl Defined {
    // Whether the clock leads back to itself.
    fn leads_back(&self, rows: &[TickSet; 32]) -> bool
        ensures { result ≡ on_circle rows.now self.now }
    {
        match rows.get(self.clock as usize) {
            Some(row) => row.contains(self.clock),
            None => false,
        }
    }
}

// The lowest definition whose clock leads back to itself.
pub fn lowest_on_circle(definitions: &[Defined]) -> Option<&Defined>
    requires { all_below 32 (clocks_in definitions.now) ≡ true }
    ensures { option_copied result ≡ find (on_circle (closed_from 32 0 (rows_of definitions.now))) definitions.now }
{
    let mut rows = rows_of(definitions);
    close(&mut rows);
    definitions
        .iter()
        .find(|definition| definition.leads_back(&rows))
}
