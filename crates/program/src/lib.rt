// A rule's program: its code, in which parentheses, NOT, AND and OR are passed one after another, and a row for each term without parentheses, in which
// operator and operands were looked up when the rule was loaded. One loop runs it.
#![tactic(auto)]

mod lent;

ghost use Rattle.std.specs.Prelude.{◌≡◌, true, [], ℕ, ◌+◌, ◌*◌, ◌≤◌, ◌<◌, length, get_or};
ghost use Rattle.model.specs.Truth as model;
ghost use Rattle.model.specs.Notation.{if◌then◌otherwise◌};
ghost use Rattle.codes.specs.Codes.{truth_code};
ghost use Rattle.truth.specs.Truths.{truth_of};
ghost use Rattle.truth.specs.Verdicts.{verdict_of, either};
ghost use Rattle.values.specs.Operands.{lent};
ghost use Rattle.program.specs.TermRows.{lent_by};
ghost use Rattle.program.specs.Walks.{is_passed, either_of, both_of, Fresh, Termed, Passed, Around};
ghost use Rattle.program.specs.TermRows.{row_bytes, two, operand_at, RowTruth, RowLacks, RowTold};
ghost use Rattle.program.specs.Runs.{NextAt, next_row, Stepped, Ran};

use codes::{AND, END, FALSE, LPAREN, NAME, NOT, OR, RPAREN, TRUE, UNDEF};
use lent::Lent;
use truth::Truth;
use truth::verdict::Verdict;
use values::Operand;

// The bytes of a row.
pub const ROW_BYTES: usize = 16;

// Room for so many levels that none is lost where parentheses are no deeper than is allowed.
const OUTERMOST: u64 = 144115188075855872;

// The policy that is walked over: its conjunctions passed so far, joined by OR; the terms of this one, joined by AND; beside each, whether it is UNDEF for
// lack of values; whether NOT stands before what comes next. Then the policies around it whose parentheses are open, seven bits each, the innermost lowest.
// The causes are fields beside the values, since verdicts as fields would be packed and unpacked at each term.
#[derive(Clone, Copy)]
pub struct Walk {
    either: Truth,
    absent: bool,
    both: Truth,
    lacking: bool,
    negated: bool,
    outer: u64,
}

// No conjunction so far, and no term.
fn fresh(outer: u64) -> Walk
    ensures { Fresh outer result }
{
    Walk {
        either: Truth::False,
        absent: false,
        both: Truth::True,
        lacking: false,
        negated: false,
        outer,
    }
}

fn either_of(w: Walk) -> Verdict
    ensures { verdict_of result ≡ either_of w }
{
    Verdict {
        value: w.either,
        absent: w.absent,
    }
}

fn both_of(w: Walk) -> Verdict
    ensures { verdict_of result ≡ both_of w }
{
    Verdict {
        value: w.both,
        absent: w.lacking,
    }
}

// What the walk comes to, where it ends.
fn verdict_of(w: Walk) -> Verdict
    ensures { verdict_of result ≡ either (either_of w) (both_of w) }
{
    truth::verdict::or(either_of(w), both_of(w))
}

fn with_term(w: Walk, v: Verdict) -> Walk
    ensures { Termed w (verdict_of v) result }
{
    let term = truth::verdict::signed(w.negated, v);
    let verdict = truth::verdict::and(both_of(w), term);
    Walk {
        both: verdict.value,
        lacking: verdict.absent,
        negated: false,
        ..w
    }
}

fn negated(w: Walk) -> Walk
    ensures { Passed 12 w result }
{
    Walk { negated: true, ..w }
}

// The next conjunction, behind OR.
fn joined(w: Walk) -> Walk
    ensures { Passed 11 w result }
{
    let verdict = verdict_of(w);
    Walk {
        either: verdict.value,
        absent: verdict.absent,
        both: Truth::True,
        lacking: false,
        ..w
    }
}

// A parenthesis begins.
fn opened(w: Walk) -> Walk
    ensures { Passed 5 w result }
{
    let either = either_of(w);
    let both = both_of(w);
    let level = truth::verdict::number_of(either)
        + 8 * truth::verdict::number_of(both)
        + 64 * truth::verdict::flag_number(w.negated);
    fresh(128 * (w.outer % OUTERMOST) + level)
}

// The policy around the innermost one.
fn around(outer: u64) -> Walk
    ensures { Around outer result }
{
    let level = outer % 128;
    let conjunctions = truth::verdict::of_number(level % 8);
    let terms = truth::verdict::of_number(level / 8 % 8);
    Walk {
        either: conjunctions.value,
        absent: conjunctions.absent,
        both: terms.value,
        lacking: terms.absent,
        negated: level / 64 == 1,
        outer: outer / 128,
    }
}

// A parenthesis ends: its policy is a term of the one around it.
fn closed(w: Walk) -> Walk
    ensures { Passed 6 w result }
{
    let inside = verdict_of(w);
    with_term(around(w.outer), inside)
}

// A mark passed, by its kind. AND changes nothing.
fn passed(w: Walk, kind: u8) -> Walk
    requires { is_passed kind ≡ true }
    ensures { Passed kind w result }
{
    match kind {
        NOT => negated(w),
        LPAREN => opened(w),
        RPAREN => closed(w),
        OR => joined(w),
        _ => w,
    }
}

// Whether a kind is that of a mark that is passed; with others a term begins, or the code ends. One condition in place of the tests one after another is
// slower.
pub fn is_passed(kind: u8) -> bool
    ensures { result ≡ is_passed kind }
{
    if kind < LPAREN {
        return false;
    }
    if kind <= RPAREN {
        return true;
    }
    if kind < AND {
        return false;
    }
    kind <= NOT
}

// The number of two bytes, low byte first.
fn two(s: &[u8], at: usize) -> usize
    requires { at + 2 ≤ length s.now }
    ensures { (result ≡ two s.now at) × (result < 65536) }
{
    usize::from(s[at]) + 256 * usize::from(s[at + 1])
}

fn operand_at(rows: &[u8], at: usize) -> Operand
    requires { at + 6 ≤ length rows.now }
    ensures { result ≡ operand_at rows.now at }
{
    Operand {
        ty: rows[at],
        place: rows[at + 1],
        start: two(rows, at + 2),
        end: two(rows, at + 4),
    }
}

// The truth value of a word.
fn spoken(kind: u8) -> Truth
    ensures { (t : model.Truth) → kind ≡ truth_code t → truth_of result ≡ t }
{
    match kind {
        FALSE => Truth::False,
        UNDEF => Truth::Undef,
        _ => Truth::True,
    }
}

// The value of the term whose row begins at a byte.
fn row_value(lent: &Lent<'_>, row: usize) -> Truth
    requires { row + row_bytes ≤ length lent.now.rows.now }
    ensures { RowTruth (lent_by lent.now) lent.now.rows.now row result }
{
    let Lent {
        code,
        rows,
        pairs,
        session,
        entries,
    } = *lent;
    let kind = rows[row];
    let left = operand_at(rows, row + 1);
    match kind {
        FALSE | UNDEF | TRUE => spoken(kind),
        NAME => values::lone(code, pairs, session, entries, left),
        _ => {
            let right = operand_at(rows, row + 7);
            values::compare(code, pairs, session, entries, kind, left, right)
        }
    }
}

// Whether an operand of it lacks values; a word has none, and an attribute that stands alone no second one.
fn row_lacks(lent: &Lent<'_>, row: usize) -> bool
    requires { row + row_bytes ≤ length lent.now.rows.now }
    ensures { RowLacks lent.now.code.now lent.now.session.now lent.now.entries.now lent.now.rows.now row result }
{
    let Lent {
        code,
        rows,
        session,
        entries,
        ..
    } = *lent;
    let left = operand_at(rows, row + 1);
    match rows[row] {
        FALSE | UNDEF | TRUE => false,
        NAME => values::lacks(code, session, entries, left),
        _ => {
            let right = operand_at(rows, row + 7);
            values::lacks(code, session, entries, left)
                || values::lacks(code, session, entries, right)
        }
    }
}

// The verdict on it. The row is looked at again for the cause, at one place, so that what is no UNDEF pays nothing.
fn row_verdict(lent: &Lent<'_>, row: usize) -> Verdict
    requires { row + row_bytes ≤ length lent.now.rows.now }
    ensures { RowTold (lent_by lent.now) lent.now.rows.now row result }
{
    let value = row_value(lent, row);
    if value != Truth::Undef {
        return truth::verdict::plain(value);
    }
    Verdict {
        value,
        absent: row_lacks(lent, row),
    }
}

// One token or one term further; a row that is not there says nothing.
fn step(lent: &Lent<'_>, kind: u8, row: usize, w: Walk) -> Walk
    requires { row ≤ 1048576 }
    ensures { Stepped (lent_by lent.now) lent.now.rows.now kind row w result }
{
    if is_passed(kind) {
        return passed(w, kind);
    }
    if lent.rows.len() < row + ROW_BYTES {
        return w;
    }
    with_term(w, row_verdict(lent, row))
}

// Where the code goes on.
fn next_at(rows: &[u8], kind: u8, row: usize, at: usize) -> usize
    requires { (row ≤ 1048576) × (at ≤ 65536) }
    ensures { NextAt rows.now kind row at result }
{
    if is_passed(kind) || rows.len() < row + ROW_BYTES {
        return at + 1;
    }
    two(rows, row + 13).max(at + 1)
}

pub fn next_row(kind: u8, row: usize) -> usize
    requires { row ≤ 1048576 }
    ensures { (result ≡ next_row kind row) × (result ≤ row + row_bytes) }
{
    if is_passed(kind) {
        row
    } else {
        row + ROW_BYTES
    }
}

// The verdict on a rule: its code and its rows, on what is lent for a request. UNDEF where they are no program.
pub fn run(code: &[u8], rows: &[u8], pairs: &[u64], session: &[u64; 128], entries: &[u8]) -> Verdict
    requires { (length pairs.now ≡ 1024) × (length code.now ≤ 65536) }
    ensures { Ran (lent code.now pairs.now session.now entries.now) rows.now result }
{
    let lent = Lent {
        code: &*code,
        rows: &*rows,
        pairs: &*pairs,
        session: &*session,
        entries: &*entries,
    };
    let mut w = fresh(0);
    let mut at: usize = 0;
    let mut row: usize = 0;
    // How far a turn goes is told by the row of the term that begins there, so that no iterator over bytes fits.
    while at < code.len() {
        let kind = code[at];
        if kind == END {
            return verdict_of(w);
        }
        let next = step(&lent, kind, row, w);
        // field by field: the whole would be copied with the bytes between its fields, at each turn
        let either = next.either;
        let both = next.both;
        w = Walk {
            either,
            absent: next.absent,
            both,
            lacking: next.lacking,
            negated: next.negated,
            outer: next.outer,
        };
        at = next_at(rows, kind, row, at);
        row = next_row(kind, row);
    }
    truth::verdict::plain(Truth::Undef)
}
