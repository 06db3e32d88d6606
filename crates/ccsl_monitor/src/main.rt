// The classroom program: judges `trace.vcd` by `table.ccsl` and prints three lines. A variable whose name the table lacks is ignored.
#![tactic(auto)]

use recording::UnknownNames;
use std::io;

fn main(rt: HostRuntime) -> io::Result<()> {
    console::judge_folder(&rt, &rt.stderr(), UnknownNames::Ignored)
}
