//! The lines of a script that is being made.
ghost use Rattle.std.specs.Prelude.{◌≡◌, ◌++◌, ◌<◌, ◌≤◌, [], ◌∷◌, length, OnOk};
ghost use Rattle.rc_config.specs.Generator.{numbered_from};

use rc_ids::NoMemory;
use rc_script::{Command, NumberedCommand, Script};
use std::alloc::Global;
use std::marker::Model;

/// The commands so far, numbered from 1.
#[derive(Drop)]
pub(crate) struct Lines {
    commands: Vec<NumberedCommand>,
}

impl Model for Lines {
    ghost use Rattle.std.specs.Prelude.{◌≡◌, List};
    ghost use Rattle.rc_script.specs.declared.command.Command.{Command};
    ghost use Rattle.rc_script.specs.Grammar.{commands_of};
    ghost use Rattle.rc_config.specs.Generator.{numbered_from};

    ghost Value = { List Command };

    ghost view = { λ l. commands_of l.commands.items };

    ghost invariant = { λ l. l.commands.items ≡ numbered_from 1 (commands_of l.commands.items) };
}

impl Lines {
    /// No line.
    pub(crate) fn new(alloc: Global) -> Lines
        ensures { result ≡ [] }
    {
        Lines {
            commands: Vec::new(alloc),
        }
    }

    /// Adds a line of this command.
    pub(crate) fn push(&mut self, command: Command) -> Result<(), NoMemory>
        requires { length self.old < 65536 }
        ensures { OnOk result (self.new ≡ self.old ++ command ∷ []) }
    {
        let number = self.commands.len() as u32 + 1;
        self.commands.push(NumberedCommand { number, command })?;
        Ok(())
    }

    /// The script of these lines.
    pub(crate) fn into_script(self) -> Script
        ensures { result ≡ numbered_from 1 self }
    {
        Script::new(self.commands)
    }
}
