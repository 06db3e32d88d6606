// The strict program: as ccsl_monitor, but a variable whose name the table lacks is refused (38). It is a program of its own, so that neither reads
// an argument.
#![tactic(auto)]

use recording::UnknownNames;
use std::io;

fn main(rt: HostRuntime) -> io::Result<()> {
    console::judge_folder(&rt, &rt.stderr(), UnknownNames::Refused)
}
