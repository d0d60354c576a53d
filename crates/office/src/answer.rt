// The answers: each command's call made, and what it answers printed.
ghost use Rattle.std.specs.Prelude.{◌+◌, ◌*◌, ◌≤◌, [], length};
ghost use Rattle.model.specs.Limits.{input_bytes};
ghost use Rattle.output.specs.Laid.{far};
ghost use Rattle.request.specs.Decisions.{Listed};
ghost use Rattle.printing.specs.Printing.{answer_bytes};
ghost use Rattle.office.specs.Answers.{lent, memory, SameReferences, EditAnswered, RequestAnswered, CommandAnswered, Answered};

use crate::command::Command;
use crate::input::Lines;
use book::{BOOK_WORDS, RULE_BYTES, TABLE_WORDS};

// The bytes of the longest block that an input has room for.
const BLOCK_BYTES: usize = 32768;

// An edit, on the book and the table that are lent.
pub fn answer_edit(
    line: &[u8],
    book: &mut [u64; BOOK_WORDS],
    table: &mut [u64; TABLE_WORDS],
    out: &mut [u8],
    at: usize,
) -> usize
    requires { at + answer_bytes ≤ far }
    ensures { EditAnswered line.now book.old table.old book.new table.new out.old at out.new result }
{
    let edited = edit::edit(line, book, table);
    printing::put_edit(out, at, edited.into())
}

// A request, on a book, its rules and a table, none of them written.
pub fn answer_request(
    block: &[u8],
    book: &[u64; BOOK_WORDS],
    rules: &[u8; RULE_BYTES],
    table: &[u64; TABLE_WORDS],
    out: &mut [u8],
    at: usize,
) -> usize
    requires { at + answer_bytes ≤ far }
    ensures { (a : RequestAnswered block.now (memory book.now rules.now table.now) out.old at out.new result) × Listed a.decision }
{
    let decision = request::decide(block, book, rules, table);
    printing::put_decision(out, at, decision)
}

// What goes from one call to the next, all lent: the book, its rules and the table.
#[derive(Drop)]
pub struct Memory<'a> {
    pub book: &'a mut [u64; BOOK_WORDS],
    pub rules: &'a [u8; RULE_BYTES],
    pub table: &'a mut [u64; TABLE_WORDS],
}

impl Memory<'_> {
    pub fn answer_edit(&mut self, line: &[u8], out: &mut [u8], at: usize) -> usize
        requires { at + answer_bytes ≤ far }
        ensures answered { EditAnswered line.now self.old.book.now self.old.table.now self.new.book.now self.new.table.now out.old at out.new result }
        ensures same_references { SameReferences self.old self.new }
    {
        let book = &mut *self.book;
        let table = &mut *self.table;
        answer_edit(line, book, table, out, at)
    }

    pub fn answer_request(&self, block: &[u8], out: &mut [u8], at: usize) -> usize
        requires { at + answer_bytes ≤ far }
        ensures { (a : RequestAnswered block.now (lent self.now) out.old at out.new result) × Listed a.decision }
    {
        answer_request(block, self.book, self.rules, self.table, out, at)
    }

    // Answers a line. The buffer is room for its block.
    pub fn answer(&mut self, line: &[u8], buffer: &mut [u8], out: &mut [u8], at: usize) -> usize
        requires { (at + answer_bytes ≤ far) × (length line.now ≤ 2 * length buffer.old) }
        ensures answered { CommandAnswered line.now (lent self.old) (lent self.new) out.old at out.new result }
        ensures same_references { SameReferences self.old self.new }
    {
        match crate::command::read(line, buffer) {
            Some(Command::Edit) => self.answer_edit(line, out, at),
            Some(Command::Request(block)) => self.answer_request(block, out, at),
            None => output::put(out, at, b"bad=\n"),
        }
    }

    // The commands one after another, each on the book and the table that the one before it left.
    pub fn answer_all(&mut self, commands: Lines<'_>, out: &mut [u8], at: usize) -> usize
        requires { (at ≤ answer_bytes) × (length commands.rest.now ≤ input_bytes) }
        ensures answered { Answered commands.entry.rest.now [] (lent self.old) (lent self.new) out.old at out.new result }
        ensures same_references { SameReferences self.old self.new }
    {
        let mut buffer = [0u8; BLOCK_BYTES];
        let mut end = at;
        for line in commands {
            end = self.answer(line, &mut buffer, out, end);
        }
        end
    }
}
