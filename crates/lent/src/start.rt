// Where single steps begin: a monitor with the start words of records.
ghost use Rattle.std.specs.Prelude.{◌≡◌};
ghost use Rattle.lent.specs.Start.{start_told, start_of};

use super::Monitor;
use super::places::refuse_at;
use constraint::{Clocks, Configuration, Constraint, broken_record};
use limit::{Limit, Refusal};

impl Monitor {
    // A monitor with the start words of the records, where limit 59 lets them pass.
    #[tactic(auto, unfolding(crate::specs::Start::start_of))]
    pub fn start(records: &[Constraint], clocks: Clocks) -> Result<Monitor, Refusal>
        ensures { start_told result ≡ start_of clocks records.now }
    {
        refuse_at(Limit::Records, broken_record(records, clocks))?;
        let configuration = Configuration::start(records);
        Ok(Monitor { configuration })
    }
}
