// What the words ask for.
ghost use Rattle.std.specs.Prelude.{◌≡◌, IfOk};
ghost use Rattle.encore_run.specs.Command.{words_of, command_of};

use enc_ast::Word;
use std::alloc::{AllocError, Global};

/// What the words after the program's name ask for.
#[derive(Debug, Drop)]
pub enum Command {
    /// Runs the program of a file.
    Run(Word),
}

impl Command {
    ghost use Rattle.std.specs.Prelude.{◌≡◌};
    ghost use Rattle.encore_run.specs.Command.{source_of};

    /// The file with the program's text.
    pub fn source(&self) -> &str
        ensures { result.now ≡ source_of self.now }
    {
        match self {
            Command::Run(file) => file.as_str(),
        }
    }
}

/// The command that the words ask for, or none where they are no command.
pub fn read_words(alloc: Global, words: &[String]) -> Result<Option<Command>, AllocError>
    ensures { IfOk result (λ command. command ≡ command_of (words_of words.now)) }
{
    match words {
        [verb, file] if verb.as_str() == "run" => {
            Ok(Some(Command::Run(Word::copy_of(alloc, file.as_str())?)))
        }
        _ => Ok(None),
    }
}
