// Runs each recording that an argument names against the table that the argument before it names, and prints the recording's name and the
// three lines of the report. Names that the table lacks are ignored, and refused in the runs behind the argument `--strict`. What
// documents 01 and 02 say of each stands in `stdout`.
#![tactic(auto)]

use console::ARGUMENT_ROOM;
use recording::UnknownNames;
use std::io;
use std::rt::{Env, Files};

// A file's name without its ending of four bytes; the whole name where it has fewer.
fn stem(name: &[u8]) -> &[u8] {
    match name.len().checked_sub(4) {
        Some(end) => &name[..end],
        None => name,
    }
}

// Prints a recording's name, and the report of its run against a table.
fn case<R: Files + Print>(
    rt: &R,
    errors: &impl Print,
    table: &[u8],
    recording: &[u8],
    unknown: UnknownNames,
) -> io::Result<()> {
    let report = console::judge_files(rt, errors, table, recording, unknown);
    rt.write_all(stem(recording))?;
    rt.write_all(b"\n")?;
    console::print_report(rt, &report)
}

// Runs the arguments from one place on, up to another, two by two, a table and a recording; a last one without another is left over.
fn cases<R: Env + Files + Print>(
    rt: &R,
    errors: &impl Print,
    from: usize,
    to: usize,
    unknown: UnknownNames,
) -> io::Result<()> {
    for (first, second) in (from..to).zip((from..to).skip(1)).step_by(2) {
        let mut table = [0u8; ARGUMENT_ROOM];
        let mut recording = [0u8; ARGUMENT_ROOM];
        case(
            rt,
            errors,
            console::argument(rt, first, &mut table).unwrap_or(&[]),
            console::argument(rt, second, &mut recording).unwrap_or(&[]),
            unknown,
        )?;
    }
    Ok(())
}

// Whether the argument at a place is `--strict`.
fn is_strict(rt: &impl Env, place: usize) -> bool {
    let mut word = [0u8; ARGUMENT_ROOM];
    console::argument(rt, place, &mut word) == Some(b"--strict".as_slice())
}

fn main(rt: HostRuntime) -> io::Result<()> {
    let errors = rt.stderr();
    let count = console::argument_count(&rt);
    let strict = (1..count)
        .find(|place| is_strict(&rt, *place))
        .unwrap_or(count);
    cases(&rt, &errors, 1, strict, UnknownNames::Ignored)?;
    cases(
        &rt,
        &errors,
        strict.saturating_add(1),
        count,
        UnknownNames::Refused,
    )
}
