// The office program on slices: what it prints for an input.
#![tactic(auto)]

ghost use Rattle.std.specs.Prelude.{◌+◌, ◌*◌, ◌≤◌, length};
ghost use Rattle.model.specs.Gate.{gate};
ghost use Rattle.output.specs.Laid.{Laid};
ghost use Rattle.printing.specs.Printing.{answer_bytes};

use answer::Memory;
use book::{BOOK_WORDS, RULE_BYTES, TABLE_WORDS};
use codes::Refusal;
use printing::Loaded;

pub mod answer;
pub mod command;
pub mod input;

// "Over 65,536 bytes: `load=2,0` alone."
pub const INPUT_BYTES: usize = 65536;

// Lays the output of an input over a buffer, and answers how long it is; what lies behind the buffer's end is counted and not written.
pub fn run(input: &[u8], out: &mut [u8]) -> usize
    ensures { Laid out.old 0 (gate input.now) out.new result × (result ≤ answer_bytes + answer_bytes * length input.now) }
{
    if INPUT_BYTES < input.len() {
        let too_long = Loaded {
            number: Refusal::TooLong as u8,
            line: 0,
        };
        return printing::put_load(out, 0, too_long);
    }
    let parts = input::split(input);
    let mut book = [0; BOOK_WORDS];
    let mut rules = [0; RULE_BYTES];
    let mut table = [0; TABLE_WORDS];
    let loaded = engine::load(parts.file, &mut book, &mut rules, &mut table);
    let at = printing::put_load(out, 0, loaded.into());
    let mut memory = Memory {
        book: &mut book,
        rules: &rules,
        table: &mut table,
    };
    memory.answer_all(parts.commands, out, at)
}
