// A rule's code made into a program: for each term without parentheses a row, in which its operator and operands are looked up once and for all.
#![tactic(auto)]

ghost use Rattle.std.specs.Prelude.{◌≡◌, ◌*◌, ◌≤◌, ◌<◌, length, get_or};
ghost use Rattle.std.proofs.lemmas.List.Edits.{sets};
ghost use Rattle.compile.specs.Compiled.{TermRead, RowRead, low, high, row_of, TokenDone, Compiled};

use codes::{AND, END, NAME};
use values::Operand;

// A term: its operator, the word of a truth value or the kind of a name that stands alone; its operands; and where the code goes on behind it.
#[derive(Clone, Copy)]
pub struct Term {
    kind: u8,
    left: Operand,
    right: Operand,
    next: usize,
}

// The term that begins at a place. No truth value is a var; a var that no operator and var follow stands alone.
fn term_at(code: &[u8], attributes: &[u64], kind: u8, at: usize) -> Term
    requires { (length attributes.now ≡ 256) × (kind ≡ get_or code.now at 0) × (at < length code.now) × (length code.now ≤ 1024) }
    ensures { TermRead code.now attributes.now at result }
{
    let Some(left) = policy::var_at(code, at) else {
        return Term {
            kind,
            left: values::no_values(),
            right: values::no_values(),
            next: at + 1,
        };
    };
    match policy::second_var(code, false, left.next) {
        Some(right) => Term {
            kind: policy::kind_at(code, left.next),
            left: left.meant.operand(attributes),
            right: right.meant.operand(attributes),
            next: right.next,
        },
        None => Term {
            kind: NAME,
            left: left.meant.operand(attributes),
            right: values::no_values(),
            next: left.next,
        },
    }
}

// The same, with an AND behind it: AND changes nothing, so a run need not stop there.
fn row_at(code: &[u8], attributes: &[u64], kind: u8, at: usize) -> Term
    requires { (length attributes.now ≡ 256) × (kind ≡ get_or code.now at 0) × (at < length code.now) × (length code.now ≤ 1024) }
    ensures { RowRead code.now attributes.now at result }
{
    let t = term_at(code, attributes, kind, at);
    if policy::kind_at(code, t.next) != AND {
        return t;
    }
    Term {
        next: t.next + 1,
        ..t
    }
}

fn low(n: usize) -> u8
    ensures { result ≡ low n }
{
    (n % 256) as u8
}

fn high(n: usize) -> u8
    ensures { result ≡ high n }
{
    (n / 256 % 256) as u8
}

// Writes the row of a term.
fn put_row(rows: &mut [u8], row: usize, t: Term)
    requires { row ≤ 65536 }
    ensures { rows.new ≡ sets rows.old row (row_of t) }
{
    let left = t.left;
    let right = t.right;
    let bytes: [u8; 16] = [
        t.kind,
        left.ty,
        left.place,
        low(left.start),
        high(left.start),
        low(left.end),
        high(left.end),
        right.ty,
        right.place,
        low(right.start),
        high(right.start),
        low(right.end),
        high(right.end),
        low(t.next),
        high(t.next),
        0,
    ];
    output::put(rows, row, &bytes);
}

// One token passed, or the row of a term written; answers where the code goes on, at least one further.
fn token(code: &[u8], attributes: &[u64], rows: &mut [u8], kind: u8, at: usize, row: usize) -> usize
    requires { (length attributes.now ≡ 256) × (kind ≡ get_or code.now at 0) × (at < length code.now) × (length code.now ≤ 1024) × (row ≤ 65536) }
    ensures { TokenDone code.now attributes.now kind at row rows.old rows.new result }
{
    if program::is_passed(kind) {
        return at + 1;
    }
    let t = row_at(code, attributes, kind, at);
    put_row(rows, row, t);
    t.next.max(at + 1)
}

// The rows of a rule's terms, in their order, by one loop over its code. Whatever the code is, it ends and stays in bounds.
pub fn compile(code: &[u8], attributes: &[u64], rows: &mut [u8])
    requires { (length attributes.now ≡ 256) × (length code.now ≤ 1024) }
    ensures { Compiled code.now attributes.now rows.new × (length rows.new ≡ length rows.old) }
{
    let mut at: usize = 0;
    let mut row: usize = 0;
    // How far a turn goes is told by the token that stands there, so that no iterator over bytes fits.
    while at < code.len() {
        let kind = code[at];
        if kind == END {
            return;
        }
        let next = token(code, attributes, rows, kind, at, row);
        row = program::next_row(kind, row);
        at = next;
    }
}
