// The program, with a choice what becomes of names that the table lacks.
use super::file::read_file;
use printing::ROOM;
use recording::UnknownNames;
use run::Report;
use std::io;
use std::rt::Files;

// Judges the recording of a file by the table of another; what becomes of a file that can't be read goes to `errors`.
// There is room for one byte more than each limit, so that 10 and 30 are seen.
pub fn judge_files<R: Files>(
    rt: &R,
    errors: &impl Print,
    table: &[u8],
    recording: &[u8],
    unknown: UnknownNames,
) -> Report {
    let mut table_text = [0u8; 4097];
    let mut recording_text = [0u8; 65537];
    run::run(
        read_file(rt, errors, table, &mut table_text),
        read_file(rt, errors, recording, &mut recording_text),
        unknown,
    )
}

// Judges the recording `trace.vcd` by the table `table.ccsl`, both in the working directory, and prints three lines: verdict, number of
// accepted steps, configuration. What is written are the bytes that `run_text` promises of the two texts and the choice.
pub fn judge_folder<R: Files + Print>(
    rt: &R,
    errors: &impl Print,
    unknown: UnknownNames,
) -> io::Result<()> {
    let mut table_text = [0u8; 4097];
    let mut recording_text = [0u8; 65537];
    let mut text = [0u8; ROOM];
    let n = printing::run_text(
        read_file(rt, errors, b"table.ccsl", &mut table_text),
        read_file(rt, errors, b"trace.vcd", &mut recording_text),
        unknown,
        &mut text,
    );
    rt.write_all(&text[..n])
}

// Prints the three lines of a report, by one write.
pub fn print_report(rt: &impl Print, report: &Report) -> io::Result<()> {
    let mut text = [0u8; ROOM];
    let n = printing::report_text(report, &mut text);
    rt.write_all(&text[..n])
}
