// The words of a command line.
ghost use Rattle.std.specs.Prelude.{◌≡◌, IfOk};

use owned_bytes::Text;
use std::alloc::{AllocError, Global};
use std::marker::Model;

/// A word of the command line, which contracts see as its bytes.
#[derive(Debug, Drop)]
pub struct Word {
    text: Text,
}

impl Model for Word {
    ghost use Rattle.std.specs.Prelude.{List, ℕ};

    ghost Value = { List ℕ };

    ghost view = { λ word. word.text };
}

impl Word {
    /// A copy of the text.
    pub fn new(alloc: Global, text: &str) -> Result<Word, AllocError>
        ensures { IfOk result (λ word. word ≡ text.now) }
    {
        Ok(Word {
            text: Text::from_str(alloc, text)?,
        })
    }

    /// The word as a text.
    pub fn as_str(&self) -> &str
        ensures { result.now ≡ self.now }
    {
        self.text.as_str()
    }
}
