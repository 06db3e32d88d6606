// Reads each table text that an argument names, and prints what the reader of `table` answers. What document 01 says of each
// stands in `stdout`.
#![tactic(auto)]

mod show;

use console::ARGUMENT_ROOM;
use std::io;
use std::rt::Files;

// Prints a file's name, and what the reader answers to its bytes.
fn case<R: Files + Print>(rt: &R, errors: &impl Print, name: &[u8]) -> io::Result<()> {
    let mut buffer = [0u8; 4100];
    let text = console::read_file(rt, errors, name, &mut buffer);
    rt.write_all(name)?;
    rt.write_all(b": ")?;
    match table::read_table(text) {
        Ok(table) => show::table(rt, text, &table),
        Err(refusal) => rt.println(refusal),
    }
}

// Reads the file of each argument, in order.
fn main(rt: HostRuntime) -> io::Result<()> {
    for place in 1..console::argument_count(&rt) {
        let mut buffer = [0u8; ARGUMENT_ROOM];
        let name = console::argument(&rt, place, &mut buffer).unwrap_or(&[]);
        case(&rt, &rt.stderr(), name)?;
    }
    Ok(())
}
