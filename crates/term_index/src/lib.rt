//! The command line over documents and their index.
#![tactic(auto)]

mod command_line;
mod commands;
mod input;
mod loading;
mod opening;
mod outcome;
mod printing;
mod reading;
mod running;
mod words;

pub use input::{INPUT_LIMIT, InputError, read_input};
pub use opening::{Opening, opening_of};
pub use outcome::Outcome;
pub use reading::{DocumentsError, read_documents};
pub use running::run;
pub use words::Word;
