// The request: decided on the book, the code of its rules and the table, all lent; nothing is written.
#![tactic(auto)]

ghost use Rattle.std.specs.Prelude.{◌≡◌, ℕ, ◌+◌, ◌*◌, ◌≤◌, ◌<◌, eqb, length, get_or, take, drop};
ghost use Rattle.model.specs.Block.{is_block};
ghost use Rattle.book.specs.Sections.{book_words};
ghost use Rattle.request.specs.Requests.{EntryFits, EntriesFit, WrongNumber, RuleTold};
ghost use Rattle.request.specs.Decisions.{Listed, Decided, Answered, Decides};

use book::{
    ATTRIBUTE_COUNT, ATTRIBUTES_AT, BOOK_WORDS, CODE_BYTES, OPERATION_COUNT, PAIR_ROWS_AT, ROWS_AT,
    ROWS_BYTES, RULE_BYTES, RULE_COUNT, RULES_AT, SORTS_AT, TABLE_WORDS,
};
use codes::{AtomType, Key, Refusal, Source};
use session::Activation;
use truth::Truth;
use truth::verdict::Verdict;

// "absent (an operand or that attribute lacks values …) or unlike (all other UNDEF, the constant too)."
#[derive(Clone, Copy, PartialEq, Eq)]
pub enum Cause {
    Absent,
    Unlike,
}

// "decision enum: Permit with rule number, Deny, Undefined, Refused with number"; undefined with its cause.
#[derive(Clone, Copy, PartialEq, Eq)]
pub enum Decision {
    Permit(u8),
    Deny,
    Undefined(Cause),
    Refused(u8),
}

// "15: byte 0, 8, 9 or length wrong."
#[tactic(auto, unfolding(model::specs::Block::is_block))]
fn is_block(block: &[u8]) -> bool
    ensures { result ≡ is_block block.now }
{
    10 <= block.len()
        && block[0] == 1
        && block[8] <= 8
        && block[9] == 0
        && block.len() == 10 + 5 * usize::from(block[8])
}

// Whether an entry is of an attribute of env or connect, and a bool at most 1.
fn entry_fits(attributes: &[u64; 256], k: u8, value: u64) -> bool
    ensures { EntryFits attributes.now k value result }
{
    let i = usize::from(k);
    i < 32
        && attributes[8 * i] > Source::Admin as u64
        && (attributes[8 * i + 1] != AtomType::Bool as u64 || value <= 1)
}

// Whether each entry fits. By their numbers: a chain over `chunks_exact` makes each request slower.
fn entries_fit(attributes: &[u64; 256], entries: &[u8]) -> bool
    ensures { EntriesFit attributes.now entries.now result }
{
    let n = entries.len() / 5;
    for i in 0..n {
        let value = values::four(entries, 5 * i + 1);
        if !entry_fits(attributes, entries[5 * i], value) {
            return false;
        }
    }
    true
}

// A number of rules or attributes; no more than have room, on any words.
fn in_room(n: u64) -> usize
    ensures { (result ≤ 32) × (n ≤ 32 → result ≡ n) }
{
    n.min(32) as usize
}

// The section of a book that begins at a word.
fn section<const N: usize>(book: &[u64; BOOK_WORDS], at: usize) -> &[u64; N]
    requires { at + N ≤ book_words }
    ensures { result.now ≡ take N (drop at book.now) }
{
    let words = &book[..];
    words[at..at + N].as_array().unwrap()
}

// What is lent for a request: sections of a book, the code of its rules, the table, and a block with its entries, the bytes behind its head.
#[derive(Clone, Copy)]
struct Request<'a> {
    counts: &'a [u64; 8],
    attributes: &'a [u64; 256],
    pairs: &'a [u64; 1024],
    sorts: &'a [u64; 256],
    targets: &'a [u64; 32],
    code: &'a [u8; RULE_BYTES],
    table: &'a [u64],
    block: &'a [u8],
    entries: &'a [u8],
    ghost head: { 10 ≤ length block.now },
    ghost bytes: { (i : ℕ) → get_or block.now i 0 < 256 },
}

impl Request<'_> {
    // "16: unknown or wrong-sort number, entry not env or connect, bool above 1."
    fn wrong_number(&self) -> bool
        ensures { WrongNumber self.now.counts.now self.now.sorts.now self.now.attributes.now self.now.block.now self.now.entries.now result }
    {
        self.sorts[usize::from(self.block[1])] != Key::User as u64
            || self.sorts[usize::from(self.block[2])] != Key::Object as u64
            || self.counts[OPERATION_COUNT] <= u64::from(self.block[3])
            || !entries_fit(self.attributes, self.entries)
    }

    // The verdict on rule k, by a run over its code and its rows; FALSE, which decides nothing, where its target, the operation that it is for, is another.
    fn rule_verdict(&self, session: &[u64; 128], k: usize) -> Verdict
        requires { k < 32 }
        ensures { RuleTold self.now.targets.now self.now.code.now self.now.pairs.now session.now self.now.entries.now (get_or self.now.block.now 3 0) k result }
    {
        if self.targets[k] != u64::from(self.block[3]) {
            return truth::verdict::plain(Truth::False);
        }
        let rules = self.code;
        let code = &rules[..];
        let pairs = self.pairs;
        let start = CODE_BYTES * k;
        let first = ROWS_AT + ROWS_BYTES * k;
        program::run(
            &code[start..start + CODE_BYTES],
            &code[first..first + ROWS_BYTES],
            pairs,
            session,
            self.entries,
        )
    }

    // "Permit, with the lowest TRUE rule number; else undefined if some is UNDEF; else deny." Undefined is absent "if one of its UNDEF rules is".
    fn decided(&self, session: &[u64; 128], count: usize) -> Decision
        requires { count ≤ 32 }
        ensures { Listed result × Decided self.now.targets.now self.now.code.now self.now.pairs.now session.now self.now.entries.now (get_or self.now.block.now 3 0) count result }
    {
        let mut undefined = false;
        let mut absent = false;
        for k in 0..count {
            let verdict = self.rule_verdict(session, k);
            if verdict.value == Truth::True {
                return Decision::Permit(k as u8);
            }
            undefined |= verdict.value == Truth::Undef;
            absent |= verdict.absent;
        }
        if absent {
            Decision::Undefined(Cause::Absent)
        } else if undefined {
            Decision::Undefined(Cause::Unlike)
        } else {
            Decision::Deny
        }
    }

    // A request with no wrong number: 17, or what its rules come to on the session that is opened for it, of the declared attributes.
    fn answered(&self) -> Decision
        ensures { Listed result × Answered self.now.counts.now self.now.targets.now self.now.code.now self.now.attributes.now self.now.pairs.now self.now.table.now self.now.block.now self.now.entries.now result }
    {
        let activation = Activation {
            attributes: self.attributes,
            table: self.table,
            user: usize::from(self.block[1]),
            object: usize::from(self.block[2]),
            mask: values::four(self.block, 4) as u32,
        };
        if activation.unheld() {
            return Decision::Refused(Refusal::NotHeld as u8);
        }
        let mut session = [0; 128];
        activation.open(in_room(self.counts[ATTRIBUTE_COUNT]), &mut session);
        self.decided(&session, in_room(self.counts[RULE_COUNT]))
    }
}

// Decides a request: its block, on a book with the code of its rules, and the table.
pub fn decide(
    block: &[u8],
    book: &[u64; BOOK_WORDS],
    rules: &[u8; RULE_BYTES],
    table: &[u64],
) -> Decision
    ensures decides { Decides block.now book.now rules.now table.now result }
    ensures listed { Listed result }
{
    if table.len() != TABLE_WORDS {
        return Decision::Refused(Refusal::WrongTable as u8);
    }
    if !is_block(block) {
        return Decision::Refused(Refusal::BadBlock as u8);
    }
    let request = Request {
        counts: section(book, 0),
        attributes: section(book, ATTRIBUTES_AT),
        pairs: section(book, PAIR_ROWS_AT),
        sorts: section(book, SORTS_AT),
        targets: section(book, RULES_AT),
        code: rules,
        table,
        block,
        entries: &block[10..],
    };
    if request.wrong_number() {
        return Decision::Refused(Refusal::WrongNumber as u8);
    }
    request.answered()
}
