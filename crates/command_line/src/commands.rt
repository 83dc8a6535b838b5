//! The commands, and which options each has.

ghost use Rattle.std.specs.Prelude.{◌≡◌};
ghost use Rattle.command_line.specs.Commands.{command_named, is_option, takes_bare_words};

/// A command of the program.
#[derive(Clone, Copy, Debug, PartialEq, Eq)]
pub enum Command {
    Body,
    Pipe,
    Serve,
    Drill,
}

/// The command that a word names.
pub(crate) fn command_named(word: &str) -> Option<Command>
    ensures { result ≡ command_named word.now }
{
    match word {
        "body" => Some(Command::Body),
        "pipe" => Some(Command::Pipe),
        "serve" => Some(Command::Serve),
        "drill" => Some(Command::Drill),
        _ => None,
    }
}

/// Whether a name, with its two hyphens, is that of an option of the command.
pub(crate) fn is_option(command: Command, name: &str) -> bool
    ensures { result ≡ is_option command name.now }
{
    match command {
        Command::Body | Command::Pipe => name == "--table",
        Command::Serve => {
            name == "--table"
                || name == "--listen"
                || name == "--workers"
                || name == "--connections"
        }
        Command::Drill => false,
    }
}

/// Whether bare words may stand behind the command.
pub(crate) fn takes_bare_words(command: Command) -> bool
    ensures { result ≡ takes_bare_words command }
{
    match command {
        Command::Drill => true,
        Command::Body | Command::Pipe | Command::Serve => false,
    }
}
