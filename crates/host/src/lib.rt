// The calls for hosts in C, each answering one number. A slice is a pointer and a length; nothing is allocated or kept.
#![tactic(auto)]

ghost use Rattle.std.specs.Prelude.{◌≡◌, ◌/◌, ◌%◌, ◌≤◌, length};
ghost use Rattle.model.specs.Host.{host_call, host_table};
ghost use Rattle.request.specs.Decisions.{decision_of, number_and_values_of, Listed};
ghost use Rattle.book.specs.Calls.{Loads};
ghost use Rattle.edit.specs.EditSteps.{EditCall};
ghost use Rattle.writer.specs.WriteCalls.{WriteCall, LengthCall};
ghost use Rattle.host.specs.AnswerNumbers.{high, load_answer, edit_answer, rule_in, cause_in, Packs, RequestNumber};

use book::{BOOK_WORDS, RULE_BYTES};
use codes::{ABSENT, DENY, PERMIT, UNDEFINED, UNLIKE};
use request::{Cause, Decision};

// "0 permit, 64 deny, 65 undefined, else the refusal." A function and no `From`, as neither `Decision` nor `u32` is of this crate; so the two below.
fn number_of(d: Decision) -> u32
    ensures { result ≡ (number_and_values_of d).0 }
{
    match d {
        Decision::Permit(_) => u32::from(PERMIT),
        Decision::Deny => u32::from(DENY),
        Decision::Undefined(_) => u32::from(UNDEFINED),
        Decision::Refused(n) => u32::from(n),
    }
}

// The rule of a permit.
fn rule_of(d: Decision) -> u32
    ensures { (result ≡ rule_in (decision_of d)) × (result ≤ 255) }
{
    match d {
        Decision::Permit(rule) => u32::from(rule),
        _ => 0,
    }
}

// The cause of what is undefined.
fn cause_of(d: Decision) -> u32
    ensures { (result ≡ cause_in (decision_of d)) × (result ≤ 2) }
{
    match d {
        Decision::Undefined(Cause::Absent) => u32::from(ABSENT),
        Decision::Undefined(Cause::Unlike) => u32::from(UNLIKE),
        _ => 0,
    }
}

// A number in the low 32 bits, and what it carries in the high ones.
fn pack(number: u32, carried: u32) -> u64
    ensures { Packs number carried result }
{
    u64::from(number) + 4294967296 * u64::from(carried)
}

// "One call for hosts in C takes file, block and table, loads, then decides: 0 permit, 64 deny, 65 undefined, else the refusal. Table as after
// the load."
#[unsafe(no_mangle)]
pub extern "C" fn zhul_pass(file: &[u8], block: &[u8], table: &mut [u64]) -> u32
    ensures { (result ≡ host_call file.now block.now (length table.old)) × (table.new ≡ host_table file.now table.old) }
{
    let mut book = [0u64; BOOK_WORDS];
    let mut rules = [0u8; RULE_BYTES];
    match engine::load(file, &mut book, &mut rules, table) {
        Ok(_) => number_of(request::decide(block, &book, &rules, table)),
        Err(refused) => u32::from(refused.refusal),
    }
}

// Loads a file into the host's own book: the number, and the line in the high bits.
#[unsafe(no_mangle)]
pub extern "C" fn zhul_load(
    file: &[u8],
    book: &mut [u64; BOOK_WORDS],
    rules: &mut [u8; RULE_BYTES],
    table: &mut [u64],
) -> u64
    ensures { Loads file.now table.old (load_answer result) table.new book.new rules.new }
{
    match engine::load(file, book, rules, table) {
        Ok(lines) => pack(0, lines),
        Err(refused) => pack(u32::from(refused.refusal), refused.line),
    }
}

// An edit of the host's own book: the number, and in the high bits the count, twelve of them, and the joins.
#[unsafe(no_mangle)]
pub extern "C" fn zhul_edit(line: &[u8], book: &mut [u64; BOOK_WORDS], table: &mut [u64]) -> u64
    ensures { EditCall line.now book.old table.old (edit_answer result) table.new book.new }
{
    match edit::edit(line, book, table) {
        Ok(edited) => pack(0, edited.count + 4096 * edited.joins),
        Err(refusal) => pack(u32::from(refusal), 0),
    }
}

// Decides a request on the host's own book: the number, and in the high bits the rule of a permit, eight of them, and the cause of what is undefined.
#[unsafe(no_mangle)]
pub extern "C" fn zhul_decide(
    block: &[u8],
    book: &[u64; BOOK_WORDS],
    rules: &[u8; RULE_BYTES],
    table: &[u64],
) -> u64
    ensures { (n : RequestNumber block.now book.now rules.now table.now result) × Listed n.decision }
{
    let d = request::decide(block, book, rules, table);
    pack(number_of(d), rule_of(d) + 256 * cause_of(d))
}

// Writes the file as it stands now into the host's own buffer: the number, and the length in the high bits.
#[unsafe(no_mangle)]
pub extern "C" fn zhul_write(
    book: &[u64; BOOK_WORDS],
    rules: &[u8; RULE_BYTES],
    buffer: &mut [u8],
) -> u64
    ensures { WriteCall book.now rules.now buffer.old (result % high) (result / high) buffer.new }
{
    match writer::write(book, rules, buffer) {
        Ok(length) => pack(0, length as u32),
        Err(refusal) => pack(u32::from(refusal), 0),
    }
}

// Tells the length that the file as it stands now has: no number beside it, as nothing is refused.
#[unsafe(no_mangle)]
pub extern "C" fn zhul_length(book: &[u64; BOOK_WORDS], rules: &[u8; RULE_BYTES]) -> u64
    ensures { LengthCall book.now rules.now result × (result ≤ 15782188) }
{
    writer::length(book, rules) as u64
}
