//! The words of a command line.

ghost use Rattle.std.specs.Prelude.{◌≡◌, ◌↔◌, IsTrue};
ghost use Rattle.command_line.specs.Words.{HasWords, words_of};

use std::alloc::AllocError;
use std::env;
use std::io::ErrorKind;
use std::rt::Env;

/// What a program was called with.
#[derive(Drop)]
pub enum CommandLine {
    /// Its name, and then its words.
    Text(Vec<String>),
    /// One of these, the name among them, isn't UTF-8.
    NotText,
}

impl CommandLine {
    /// The words behind the program's name. Where one isn't UTF-8 there are none.
    pub fn words(&self) -> &[String]
        ensures { result.now ≡ words_of self.now }
    {
        match self {
            CommandLine::Text(arguments) => match arguments.as_slice() {
                [_name, words @ ..] => words,
                [] => &[],
            },
            CommandLine::NotText => &[],
        }
    }

    /// Whether something stands behind the program's name, or something, the name among it, isn't UTF-8.
    pub fn has_words(&self) -> bool
        ensures { IsTrue result ↔ HasWords self.now }
    {
        match self {
            CommandLine::Text(arguments) => arguments.len() > 1,
            CommandLine::NotText => true,
        }
    }
}

/// Reads what the program was called with.
pub fn read_command_line(rt: &(impl Env + AllocGlobal)) -> Result<CommandLine, AllocError> {
    match env::args(rt) {
        Ok(arguments) => Ok(CommandLine::Text(arguments.collect(rt.alloc())?)),
        Err(error) if error.kind() == ErrorKind::OutOfMemory => Err(AllocError),
        Err(_) => Ok(CommandLine::NotText),
    }
}
