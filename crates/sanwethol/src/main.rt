//! Builds and searches indexes of documents, from the command line.
#![tactic(auto)]

mod texts;

use owned_bytes::{BytesFile, OwnedBytes, Sink, SinkError, StdSink, StdSource, VecSink, WrapFile};
use std::alloc::AllocError;
use std::env::{self, Env};
use std::fs::File;
use std::io::ErrorKind;
use std::process::ExitCode;
use term_index::{Opening, Outcome, Word, opening_of, run};

// Why there are no words.
enum WordsError {
    Memory,
    NotText,
}

impl From<AllocError> for WordsError {
    fn from(_: AllocError) -> WordsError {
        WordsError::Memory
    }
}

// How the program ends.
enum Ending {
    Outcome(Outcome),
    // The file that the words name cannot be opened or made.
    CannotOpen,
}

// The words behind the program's name.
fn words_of<R: Env + AllocGlobal>(rt: &R) -> Result<Vec<Word>, WordsError> {
    let args = match env::args(rt) {
        Ok(args) => args,
        Err(e) if e.kind() == ErrorKind::OutOfMemory => return Err(WordsError::Memory),
        Err(_) => return Err(WordsError::NotText),
    };
    let mut words = Vec::new(rt.alloc());
    for arg in args.skip(1) {
        let word = Word::new(rt.alloc(), arg.as_str())?;
        if words.push(word).is_err() {
            return Err(WordsError::Memory);
        }
    }
    Ok(words)
}

// Runs a command that makes this file.
fn create(rt: &HostRuntime, words: &[Word], path: &str) -> Ending {
    let Ok(made) = File::create(rt, path) else {
        return Ending::CannotOpen;
    };
    let mut docs = StdSource::new(rt.stdin());
    let mut file = BytesFile::new(OwnedBytes::empty(rt.alloc()).unwrap());
    let mut store = StdSink::new(made);
    let mut out = StdSink::new(rt.stdout());
    Ending::Outcome(run(
        rt.alloc(),
        words,
        &mut docs,
        &mut file,
        &mut store,
        &mut out,
    ))
}

// Runs a command that reads this file.
fn read(rt: &HostRuntime, words: &[Word], path: &str) -> Ending {
    let Ok(opened) = File::open(rt, path) else {
        return Ending::CannotOpen;
    };
    let Ok(mut file) = WrapFile::new(opened) else {
        return Ending::CannotOpen;
    };
    let mut docs = StdSource::new(rt.stdin());
    let mut store = VecSink::new(rt.alloc());
    let mut out = StdSink::new(rt.stdout());
    Ending::Outcome(run(
        rt.alloc(),
        words,
        &mut docs,
        &mut file,
        &mut store,
        &mut out,
    ))
}

// Runs a command without a file.
fn without_file(rt: &HostRuntime, words: &[Word]) -> Ending {
    let mut docs = StdSource::new(rt.stdin());
    let mut file = BytesFile::new(OwnedBytes::empty(rt.alloc()).unwrap());
    let mut store = VecSink::new(rt.alloc());
    let mut out = StdSink::new(rt.stdout());
    Ending::Outcome(run(
        rt.alloc(),
        words,
        &mut docs,
        &mut file,
        &mut store,
        &mut out,
    ))
}

// Writes a text to the standard output.
fn tell(rt: &HostRuntime, text: &str) -> Ending {
    let mut out = StdSink::new(rt.stdout());
    Ending::Outcome(match out.write_all(text.as_bytes()) {
        Ok(()) => Outcome::Done,
        Err(SinkError::Memory) => Outcome::Memory,
        Err(SinkError::Failed) => Outcome::OutFault,
    })
}

// The text that a word alone asks for.
fn text_of(words: &[Word]) -> Option<&'static str> {
    match words {
        [word] if word.as_str() == "--help" => Some(texts::HELP),
        [word] if word.as_str() == "--version" => Some(texts::VERSION),
        _ => None,
    }
}

// Does what the words ask for.
fn ending_of(rt: &HostRuntime) -> Ending {
    let words = match words_of(rt) {
        Ok(words) => words,
        Err(WordsError::Memory) => return Ending::Outcome(Outcome::Memory),
        Err(WordsError::NotText) => return Ending::Outcome(Outcome::Usage),
    };
    if let Some(text) = text_of(words.as_slice()) {
        return tell(rt, text);
    }
    match opening_of(words.as_slice()) {
        Opening::Create(path) => create(rt, words.as_slice(), path),
        Opening::Read(path) => read(rt, words.as_slice(), path),
        Opening::Nothing => without_file(rt, words.as_slice()),
    }
}

// Tells by its status how it ended, and by a line on standard error where that is not done.
fn main(rt: HostRuntime) -> ExitCode {
    let ending = ending_of(&rt);
    let mut errors = StdSink::new(rt.stderr());
    // The status tells how the program ended even where the line cannot be written.
    match ending {
        Ending::Outcome(outcome) => {
            let _ = outcome.print_line(&mut errors);
            ExitCode::from(outcome.status())
        }
        Ending::CannotOpen => {
            let _ = errors.write_all(b"cannot open file\n");
            ExitCode::from(Outcome::ReadFault.status())
        }
    }
}
