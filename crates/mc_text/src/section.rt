//! What is said of a whole section.
ghost use Rattle.std.specs.Prelude.{◌≡◌, ◌<◌, ◌≤◌, ◌^◌, ℕ, List, length};
ghost use Rattle.mc_text.specs.Request.{WholeCommand};
ghost use Rattle.mc_text.specs.Section.{Spelled};
ghost use Rattle.mc_text.specs.Reading.{commands_of, rest_of};

use crate::commands::Commands;

/// What a section holds.
#[derive(Clone, Copy, Debug)]
pub struct Tally<'a> {
    /// How many commands it has.
    pub commands: u32,
    /// What stands behind them.
    pub rest: &'a [u8],
}

impl<'a> Tally<'a> {
    /// What a section of fewer than 2^32 bytes holds. Its lines are gone over once.
    pub fn new(section: &'a [u8]) -> Tally<'a>
        requires { length section.now < 2 ^ 32 }
        ensures commands { result.commands ≡ length (commands_of section.now) }
        ensures rest { result.rest.now ≡ rest_of section.now }
        ensures bound { result.commands ≤ length section.now }
        ensures spelled { (commands : List WholeCommand) (rest : List ℕ) → Spelled section.now commands rest →
            (result.commands ≡ length commands) × (result.rest.now ≡ rest) }
    {
        let mut commands = Commands::new(section);
        let mut number = 0;
        while commands.pass() {
            number += 1;
        }
        Tally {
            commands: number,
            rest: commands.rest(),
        }
    }
}

/// The number of commands of a section, which has fewer than 2^32 bytes.
pub fn count(section: &[u8]) -> u32
    requires { length section.now < 2 ^ 32 }
    ensures exact { result ≡ length (commands_of section.now) }
    ensures bound { result ≤ length section.now }
    ensures spelled { (commands : List WholeCommand) (rest : List ℕ) → Spelled section.now commands rest → result ≡ length commands }
{
    Tally::new(section).commands
}
