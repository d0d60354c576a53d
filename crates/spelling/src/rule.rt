// The lines of rules, from the code of their policies: tokens as they are, and a space only between two neighbouring words.
ghost use Rattle.std.specs.Prelude.{◌≡◌, ◌+◌, ◌*◌, ◌<◌, ◌≤◌, length, get_or};
ghost use Rattle.model.specs.Atoms.{quoted};
ghost use Rattle.model.specs.Block.{value_at};
ghost use Rattle.output.specs.Laid.{far, Laid};
ghost use Rattle.book.specs.Sections.{rule_bytes};
ghost use Rattle.spelling.specs.LineTexts.{word_kind, code_string, token_text, size_at, gap_text, policy_text, rule_line_text, rules_text};

use book::{ATTRIBUTES_AT, CODE_BYTES, OPERATIONS_AT, RULE_COUNT, RULES_AT};
use codes::{AND, END, IN, INT, Key, NAME, STR, SUBSET, TRUE};

// How many rules there can be.
const RULES: usize = 32;

// The byte at a place of a rule's code; its end behind all bytes.
fn byte(code: &[u8], place: usize) -> u8
    ensures { result ≡ get_or code.now place 0 }
{
    code.get(place).copied().unwrap_or(END)
}

// The four bytes from a place on, as a number.
fn four(code: &[u8], place: usize) -> u32
    requires { place + 3 ≤ far }
    ensures { result ≡ value_at code.now place }
{
    u32::from_le_bytes([
        byte(code, place),
        byte(code, place + 1),
        byte(code, place + 2),
        byte(code, place + 3),
    ])
}

// Whether the tokens of a kind are words.
#[tactic(auto, unfolding(crate::specs::LineTexts::word_kind))]
fn is_word(kind: u8) -> bool
    ensures { result ≡ word_kind kind }
{
    matches!(kind, INT | NAME | AND..=TRUE | IN | SUBSET)
}

// The space between two neighbouring words.
fn put_gap(out: &mut [u8], at: usize, word: bool, kind: u8) -> usize
    requires { at < far }
    ensures { Laid out.old at (gap_text word kind) out.new result × (result ≤ at + 1) }
{
    if word && is_word(kind) {
        output::put_byte(out, at, b' ')
    } else {
        at
    }
}

// How many bytes of code the token at a place takes.
#[tactic(auto, unfolding(crate::specs::LineTexts::size_at))]
fn size(code: &[u8], place: usize) -> usize
    requires { place + 1 ≤ far }
    ensures { (result ≡ size_at code.now place) × (1 ≤ result) × (result ≤ 257) }
{
    match byte(code, place) {
        INT => 5,
        STR => usize::from(byte(code, place + 1)) + 2,
        NAME => 2,
        _ => 1,
    }
}

// The string at a place, in its quotes.
fn put_string(out: &mut [u8], at: usize, code: &[u8], place: usize) -> usize
    requires { (at + 257 ≤ far) × (place + 257 ≤ far) }
    ensures { Laid out.old at (quoted (code_string code.now place)) out.new result × (result ≤ at + 2 + get_or code.now (place + 1) 0) }
{
    let start = (place + 2).min(code.len());
    let end = (place + 2 + usize::from(byte(code, place + 1))).min(code.len());
    let a = output::put_byte(out, at, b'"');
    let b = output::put(out, a, &code[start..end]);
    output::put_byte(out, b, b'"')
}

// The token at a place.
fn put_token(out: &mut [u8], at: usize, book: &[u64], code: &[u8], place: usize) -> usize
    requires { (at + 257 ≤ far) × (place + 257 ≤ far) }
    ensures { Laid out.old at (token_text book.now code.now place) out.new result × (result ≤ at + 31 * size_at code.now place) }
{
    match byte(code, place) {
        INT => output::put_decimal(out, at, four(code, place + 1)),
        STR => put_string(out, at, code, place),
        NAME => {
            let row = ATTRIBUTES_AT + 8 * usize::from(byte(code, place + 1));
            crate::field::put_attribute(out, at, book, row)
        }
        kind => crate::field::put_token(out, at, kind),
    }
}

// The policy of a rule's code.
fn put_policy(out: &mut [u8], at: usize, book: &[u64], code: &[u8]) -> usize
    requires { (at + 32800 ≤ far) × (length code.now ≤ 768) }
    ensures { Laid out.old at (policy_text book.now code.now) out.new result × (result ≤ at + 32800) }
{
    let mut n = at;
    let mut place = 0;
    let mut word = false;
    let mut kind = byte(code, 0);
    // A token is as long as its kind tells, so that no iterator over bytes fits.
    while kind != END {
        n = put_gap(out, n, word, kind);
        n = put_token(out, n, book, code, place);
        word = is_word(kind);
        place += size(code, place);
        kind = byte(code, place);
    }
    n
}

fn put_rule_line(out: &mut [u8], at: usize, book: &[u64], rules: &[u8], k: usize) -> usize
    requires { (at + 32832 ≤ far) × (k < 32) × (length rules.now ≡ rule_bytes) }
    ensures { Laid out.old at (rule_line_text book.now rules.now k) out.new result × (result ≤ at + 32832) }
{
    let operation = crate::field::word(book, RULES_AT + k) % 8;
    let start = CODE_BYTES * k;
    let a = crate::field::put_key(out, at, Key::Rule as u8);
    let b = crate::field::put_name(out, a, book, OPERATIONS_AT + 2 * operation as usize);
    let c = output::put_byte(out, b, b',');
    let d = put_policy(out, c, book, &rules[start..start + CODE_BYTES]);
    output::put_byte(out, d, b'\n')
}

pub fn put_rules(out: &mut [u8], at: usize, book: &[u64], rules: &[u8]) -> usize
    requires { (at + 1050624 ≤ far) × (length rules.now ≡ rule_bytes) }
    ensures { Laid out.old at (rules_text book.now rules.now) out.new result × (result ≤ at + 1050624) }
{
    let count = crate::line::count(book, RULE_COUNT, RULES);
    crate::line::put_lines::<32832, _>(
        out,
        at,
        count,
        |out, n, k| put_rule_line(out, n, book, rules, k),
    )
}
