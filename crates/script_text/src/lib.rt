//! Scripts: their commands as text, and a reader of a script that takes no memory.
#![tactic(auto)]

mod byte_reader;
mod command;
mod line;
mod line_text;
mod script;

pub use command::{print_line, read_line};
pub use line::Line;
pub use script::{Script, ScriptFault};
