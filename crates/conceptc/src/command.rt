ghost use Rattle.std.specs.Prelude.{◌≡◌, map};
ghost use Rattle.conceptc.specs.Command.{command_of};

/// What the program is asked to do.
#[derive(Clone, Copy, Debug, PartialEq, Eq)]
pub enum Command {
    /// Translate the unit of the input.
    Translate,
}

/// The command that the words are, if they are one.
#[tactic(auto, unfolding(crate::specs::Command::command_of))]
pub fn read_command(words: &[&str]) -> Option<Command>
    ensures { result ≡ command_of (map (λ w. w.now) words.now) }
{
    match words {
        [word] if *word == "translate" => Some(Command::Translate),
        _ => None,
    }
}
