// The lines of what is declared, up to the holders.
ghost use Rattle.std.specs.Prelude.{ℕ, ◌≡◌, ◌+◌, ◌*◌, ◌<◌, ◌≤◌};
ghost use Rattle.model.specs.Notation.{each, below};
ghost use Rattle.model.specs.Bytes.{Bytes};
ghost use Rattle.model.specs.Limits.{attribute_limit, operation_limit, pair_limit};
ghost use Rattle.output.specs.Laid.{far, Laid};
ghost use Rattle.spelling.specs.Lines.{PutsWithin, PutsTexts};
ghost use Rattle.spelling.specs.LineTexts.{counted, attribute_line_text, row_of_pair, pair_atom_text, operation_line_text, pair_line_text, holder_line_text, sort_text, name_of_holder};

use book::find::{HOLDERS, OPERATIONS, PAIRS};
use book::{
    ATTRIBUTE_COUNT, ATTRIBUTES_AT, HOLDER_COUNT, OPERATION_COUNT, OPERATIONS_AT, PAIR_COUNT,
    PAIR_ROWS_AT, SORTS_AT,
};
use codes::Key;
use rows::ATTRIBUTES;

// The names of holders: the second and third word of their rows, which stand behind the chains of their index.
const HOLDER_NAMES_AT: usize = 2329;

// How many there are of something.
pub fn count(book: &[u64], place: usize, limit: usize) -> usize
    ensures { (result ≡ counted book.now place limit) × (result ≤ limit) }
{
    crate::field::word(book, place).min(limit as u64) as usize
}

// The lines of the numbers below `count`, one behind another: `put` puts the line of a number, of SIZE bytes at most.
pub fn put_lines<const SIZE: usize, F: Fn(&mut [u8], usize, usize) -> usize>(
    out: &mut [u8],
    at: usize,
    count: usize,
    put: F,
) -> usize
    requires room { at + SIZE * count ≤ far }
    requires puts { PutsWithin F.Fn put SIZE count }
    ensures laid { (text : ℕ → Bytes) → PutsTexts F.Fn put SIZE count text → Laid out.old at (each text (below count)) out.new result }
    ensures within { result ≤ at + SIZE * count }
{
    let mut n = at;
    for k in 0..count {
        n = put(out, n, k);
    }
    n
}

fn put_attribute_line(out: &mut [u8], at: usize, book: &[u64], k: usize) -> usize
    requires { (at + 64 ≤ far) × (k < 256) }
    ensures { Laid out.old at (attribute_line_text book.now k) out.new result × (result ≤ at + 64) }
{
    let row = ATTRIBUTES_AT + 8 * k;
    let a = crate::field::put_key(out, at, Key::Attr as u8);
    let b = crate::field::put_source(out, a, crate::field::word(book, row));
    let c = output::put_byte(out, b, b',');
    let d = crate::field::put_name(out, c, book, row + 2);
    let e = output::put_byte(out, d, b',');
    let f = crate::field::put_type(out, e, crate::field::word(book, row + 1));
    output::put_byte(out, f, b'\n')
}

pub fn put_attributes(out: &mut [u8], at: usize, book: &[u64]) -> usize
    requires { at + 2048 ≤ far }
    ensures { Laid out.old at (each (attribute_line_text book.now) (below (counted book.now 0 attribute_limit))) out.new result × (result ≤ at + 2048) }
{
    let count = count(book, ATTRIBUTE_COUNT, ATTRIBUTES);
    put_lines::<64, _>(
        out,
        at,
        count,
        |out, n, k| put_attribute_line(out, n, book, k),
    )
}

fn put_operation_line(out: &mut [u8], at: usize, book: &[u64], k: usize) -> usize
    requires { (at + 32 ≤ far) × (k < 256) }
    ensures { Laid out.old at (operation_line_text book.now k) out.new result × (result ≤ at + 32) }
{
    let a = crate::field::put_key(out, at, Key::Op as u8);
    let b = crate::field::put_name(out, a, book, OPERATIONS_AT + 2 * k);
    output::put_byte(out, b, b'\n')
}

pub fn put_operations(out: &mut [u8], at: usize, book: &[u64]) -> usize
    requires { at + 256 ≤ far }
    ensures { Laid out.old at (each (operation_line_text book.now) (below (counted book.now 1 operation_limit))) out.new result × (result ≤ at + 256) }
{
    let count = count(book, OPERATION_COUNT, OPERATIONS);
    put_lines::<32, _>(
        out,
        at,
        count,
        |out, n, k| put_operation_line(out, n, book, k),
    )
}

// Where the row of a pair's attribute is: the pair has one more than its number.
pub fn row_of_pair(book: &[u64], p: usize) -> usize
    requires { p < 256 }
    ensures { (result ≡ row_of_pair book.now p) × (result ≤ 504) }
{
    let number = crate::field::word(book, PAIR_ROWS_AT + 4 * p) % 64;
    ATTRIBUTES_AT + 8 * number as usize - 8
}

// The atom of a pair, of the type of its attribute. Inlined, since the text of a full file takes longer where it is called.
#[inline(always)]
pub fn put_pair_atom(out: &mut [u8], at: usize, book: &[u64], p: usize) -> usize
    requires { (at + 26 ≤ far) × (p < 256) }
    ensures { Laid out.old at (pair_atom_text book.now p) out.new result × (result ≤ at + 26) }
{
    let row = row_of_pair(book, p);
    let ty = crate::field::word(book, row + 1);
    crate::field::put_atom(out, at, book, ty, PAIR_ROWS_AT + 4 * p + 1)
}

fn put_pair_line(out: &mut [u8], at: usize, book: &[u64], p: usize) -> usize
    requires { (at + 64 ≤ far) × (p < 256) }
    ensures { Laid out.old at (pair_line_text book.now p) out.new result × (result ≤ at + 64) }
{
    let a = crate::field::put_key(out, at, Key::Atom as u8);
    let b = crate::field::put_attribute(out, a, book, row_of_pair(book, p));
    let c = output::put_byte(out, b, b',');
    let d = put_pair_atom(out, c, book, p);
    output::put_byte(out, d, b'\n')
}

pub fn put_pairs(out: &mut [u8], at: usize, book: &[u64]) -> usize
    requires { at + 16384 ≤ far }
    ensures { Laid out.old at (each (pair_line_text book.now) (below (counted book.now 2 pair_limit))) out.new result × (result ≤ at + 16384) }
{
    let count = count(book, PAIR_COUNT, PAIRS);
    put_lines::<64, _>(out, at, count, |out, n, p| put_pair_line(out, n, book, p))
}

// The name of a holder.
pub fn put_holder(out: &mut [u8], at: usize, book: &[u64], k: usize) -> usize
    requires { (at + 16 ≤ far) × (k < 256) }
    ensures { Laid out.old at (name_of_holder book.now k) out.new result × (result ≤ at + 16) }
{
    crate::field::put_name(out, at, book, HOLDER_NAMES_AT + 4 * k)
}

// The line of holder k, if it is of that sort: its number is that of the key. Inlined, since a length takes longer where it is called.
#[inline(always)]
fn put_holder_line(out: &mut [u8], at: usize, book: &[u64], sort: u8, k: usize) -> usize
    requires { (at + 32 ≤ far) × (k < 256) }
    ensures { Laid out.old at (holder_line_text book.now sort k) out.new result × (result ≤ at + 32) }
{
    if crate::field::word(book, SORTS_AT + k) != u64::from(sort) {
        return at;
    }
    let a = crate::field::put_key(out, at, sort);
    let b = put_holder(out, a, book, k);
    output::put_byte(out, b, b'\n')
}

pub fn put_holders(out: &mut [u8], at: usize, book: &[u64], sort: u8) -> usize
    requires { at + 8192 ≤ far }
    ensures { Laid out.old at (sort_text book.now sort) out.new result × (result ≤ at + 8192) }
{
    let count = count(book, HOLDER_COUNT, HOLDERS);
    put_lines::<32, _>(
        out,
        at,
        count,
        |out, n, k| put_holder_line(out, n, book, sort, k),
    )
}
