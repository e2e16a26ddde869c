// The file that a command line names.
ghost use Rattle.term_index.specs.Commands.{Opens};

use crate::Word;
use crate::command_line::{Command, command_of};

/// The file that a command needs.
#[derive(Clone, Copy, Debug, PartialEq, Eq)]
pub enum Opening<'a> {
    Nothing,
    /// It is made, or emptied where it is there.
    Create(&'a str),
    Read(&'a str),
}

/// The file that the words name.
pub fn opening_of(words: &[Word]) -> Opening<'_>
    ensures { Opens words.now result }
{
    match command_of(words) {
        Some(Command::Build { path, .. }) => Opening::Create(path),
        Some(Command::Search { path, .. }) => Opening::Read(path),
        _ => Opening::Nothing,
    }
}
