// What the programs share: their arguments; files are read, and two of them judged; a constraint's words as the test programs print them.
// `errors` is standard error, which is handed on beside `rt`: no bound gives it with a write of bytes that are no text.
#![tactic(auto)]

mod command_line;
mod file;
mod judge;
mod word;

pub use command_line::{ARGUMENT_ROOM, argument, argument_count};
pub use file::read_file;
pub use judge::{judge_files, judge_folder, print_report};
pub use word::Part;
