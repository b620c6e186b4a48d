//! The commands of a section, one by one.
ghost use Rattle.std.specs.Prelude.{◌≡◌, ◌⊎◌, ◌∷◌, ◌++◌, ◌+◌, [], false, true, length, IsTrue, IfSome, IfNone, MatchOption};
ghost use Rattle.mc_text.specs.Request.{view, spelling_of};
ghost use Rattle.mc_text.specs.Commands.{left, has_quit, commands_left, rest_left};
ghost use Rattle.mc_text.specs.Begins.{Begins};
ghost use Rattle.mc_text.specs.Section.{NoCommand};
ghost use Rattle.mc_text.specs.Reading.{commands_of, rest_of};

use crate::command::{Command, is_quit};
use crate::first::{first_command, pass_line};

/// The commands of a section that are still to be given, in the order of the section.
#[derive(Clone, Copy, Debug)]
pub struct Commands<'a> {
    rest: &'a [u8],
    ended: bool,
}

impl<'a> Commands<'a> {
    /// All commands of a section.
    pub fn new(section: &'a [u8]) -> Commands<'a>
        ensures left { left result ≡ section.now }
        ensures quit { has_quit result ≡ false }
        ensures commands { commands_left result ≡ commands_of section.now }
        ensures rest { rest_left result ≡ rest_of section.now }
    {
        Commands {
            rest: section,
            ended: false,
        }
    }

    /// The next command: the one with which what is left begins. `None` where that begins with no whole command, and behind `quit`.
    pub fn next(&mut self) -> Option<Command<'a>>
        ensures begins { IfSome result
            (λ command. Begins (left self.old) (view command) (length (spelling_of command))) }
        ensures none { IfNone result (IsTrue (has_quit self.old) ⊎ NoCommand (left self.old)) }
        ensures some { IfSome result (λ _. has_quit self.old ≡ false) }

        // What is left loses the command's bytes, and stays where no command is given.
        ensures parts { MatchOption result
            (left self.new ≡ left self.old)
            (λ command. left self.old ≡ spelling_of command ++ left self.new) }

        // The commands still to come are all but this one, and what stands behind them stays.
        ensures commands { MatchOption result
            ((commands_left self.old ≡ []) × (commands_left self.new ≡ []))
            (λ command. commands_left self.old ≡ view command ∷ commands_left self.new) }
        ensures rest { rest_left self.new ≡ rest_left self.old }
        ensures end { IfNone result (rest_left self.old ≡ left self.old) }
    {
        if self.ended {
            return None;
        }
        let command = first_command(self.rest)?;
        let (_, rest) = self.rest.split_at(command.spelling().len());
        self.rest = rest;
        self.ended = is_quit(&command);
        Some(command)
    }

    /// Passes the next command over. The answer is whether there was one.
    pub(crate) fn pass(&mut self) -> bool
        ensures some { result ≡ true → length (commands_left self.old) ≡ length (commands_left self.new) + 1 }
        ensures none { result ≡ false → length (commands_left self.old) ≡ 0 }
        ensures rest { rest_left self.new ≡ rest_left self.old }
        ensures end { result ≡ false → left self.new ≡ rest_left self.old }
    {
        if self.ended {
            return false;
        }
        match pass_line(self.rest) {
            Some(behind) => {
                self.rest = behind;
                true
            }
            None => self.next().is_some(),
        }
    }

    /// What stands behind the commands that were given.
    pub fn rest(&self) -> &'a [u8]
        ensures { result.now ≡ left self.now }
    {
        self.rest
    }
}
