//! A script that was read.
ghost use Rattle.std.specs.Prelude.{◌≡◌};

use crate::command::Command;
use std::marker::Model;

/// A command and the number of its line, counted from 1.
#[derive(Debug, Drop)]
pub struct NumberedCommand {
    pub number: u32,
    pub command: Command,
}

/// The commands of a script, by line.
#[derive(Debug, Drop)]
pub struct Script {
    commands: Vec<NumberedCommand>,
}

impl Model for Script {
    ghost use Rattle.std.specs.Prelude.{List};
    ghost use Rattle.rc_script.specs.declared.script.NumberedCommand.{NumberedCommand};

    ghost Value = { List NumberedCommand };

    ghost view = { λ s. s.commands.items };
}

impl Script {
    /// The script of these commands.
    pub fn new(commands: Vec<NumberedCommand>) -> Self
        ensures { result ≡ commands.items }
    {
        Script { commands }
    }

    /// The commands, by line.
    pub fn lines(&self) -> &[NumberedCommand]
        ensures { result.now ≡ self.now }
    {
        self.commands.as_slice()
    }

    /// The commands, by line, with their memory.
    pub fn into_lines(self) -> Vec<NumberedCommand>
        ensures { result.items ≡ self }
    {
        self.commands
    }
}
