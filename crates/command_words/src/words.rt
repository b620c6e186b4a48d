//! The words of the command line.
ghost use Rattle.std.specs.Prelude.{◌≡◌, ◌⊎◌, Some, None, map, string_bytes, IfOk, IfErr};
ghost use Rattle.command_words.specs.Plain.{plain};
ghost use Rattle.command_words.specs.Words.{are_short, command_asked, asked_of, Says, IsUsage, NamesCommand};

use crate::asked::Asked;
use crate::calc_words::read_calc;
use crate::check_words::read_check;
use crate::distrib_words::read_distrib;
use crate::drill_words::read_drill;
use crate::fault::WordsFault;
use crate::run_words::read_run;
use crate::select_words::read_select;
use crate::set_words::read_set;
use crate::topo_words::read_topo;
use std::alloc::Global;

// One more than the greatest number of words, and of bytes of a word.
const SHORT: usize = 4_294_967_296;

/// What the words behind the program's name ask for. Usage: they are no command line of the program. OutOfMemory: the
/// words of a command that `clap` reads want memory.
#[tactic(auto, unfolding(crate::specs::Words::asked_of))]
pub fn read_words<'a>(alloc: Global, words: &'a [String]) -> Result<Asked<'a>, WordsFault>
    ensures asked { IfOk result (λ asked. Says words.entry.now (plain asked)) }
    ensures refused { IfErr result (λ fault. ((fault ≡ WordsFault.OutOfMemory) × NamesCommand words.entry.now)
        ⊎ ((fault ≡ WordsFault.Usage) × IsUsage words.entry.now)) }
{
    if are_short(words) {
        read_command(alloc, words)
    } else {
        Err(WordsFault::Usage)
    }
}

// Whether there are fewer than 2^32 words, each of fewer than 2^32 bytes.
fn are_short(words: &[String]) -> bool
    ensures { result ≡ are_short (map string_bytes words.now) }
{
    if words.len() >= SHORT {
        return false;
    }
    for word in words {
        if word.len() >= SHORT {
            return false;
        }
    }
    true
}

// What words ask of the command that the first one names.
#[tactic(auto, unfolding(crate::specs::Words::command_asked))]
fn read_command<'a>(alloc: Global, words: &'a [String]) -> Result<Asked<'a>, WordsFault>
    ensures asked { IfOk result (λ asked. command_asked (map string_bytes words.entry.now) ≡ Some (plain asked)) }
    ensures refused { IfErr result (λ fault. ((fault ≡ WordsFault.OutOfMemory) × NamesCommand words.entry.now)
        ⊎ ((fault ≡ WordsFault.Usage) × (command_asked (map string_bytes words.entry.now) ≡ None))) }
{
    let Some(first) = words.first() else {
        return Err(WordsFault::Usage);
    };
    let name = first.as_str().as_bytes();
    if name == b"run".as_slice() {
        read_run(alloc, words)
    } else if name == b"set".as_slice() {
        read_set(alloc, words)
    } else if name == b"topo".as_slice() {
        read_topo(alloc, words)
    } else if name == b"calc".as_slice() {
        read_calc(alloc, words)
    } else if name == b"distrib".as_slice() {
        read_distrib(alloc, words)
    } else if name == b"select".as_slice() {
        read_select(alloc, words)
    } else if name == b"drill".as_slice() {
        read_drill(alloc, words)
    } else if name == b"check".as_slice() {
        read_check(alloc, words)
    } else {
        Err(WordsFault::Usage)
    }
}
