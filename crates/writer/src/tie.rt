// The lines of ties, key by key, those of a key by the number of the holder, then by the other's or the pair's.
ghost use Rattle.std.specs.Prelude.{ℕ, ◌≡◌, ◌+◌, ◌*◌, ◌<◌, ◌≤◌, length};
ghost use Rattle.model.specs.Notation.{each, below};
ghost use Rattle.model.specs.Bytes.{Bytes};
ghost use Rattle.model.specs.Limits.{group_limit};
ghost use Rattle.codes.specs.Enums.{key_number};
ghost use Rattle.output.specs.Laid.{far, Laid};
ghost use Rattle.book.specs.Sections.{book_words};
ghost use Rattle.writer.specs.GroupSets.{AddsGroup, AddsGroups};
ghost use Rattle.writer.specs.Texts.{member_text, up_line_text, ups_text, key_of_ups, holder_ups_text, key_ups_text, value_line_text, values_text};
ghost use Rattle.spelling.specs.Lines.{PutsWithin, PutsTexts};
ghost use Rattle.spelling.specs.LineTexts.{holder_count};

use book::find::{HOLDERS, PAIRS};
use book::{HOLDER_COUNT, OWN_AT, SLOT_OF_AT, SLOTS_AT, UPS_AT};
use codes::Key;

// No holder has a number from here on.
const NUMBERS: u64 = 256;

// A set of holders with one more, if its number is one of a holder.
fn add_group(groups: &mut [u64], number: u64)
    requires { length groups.old ≡ 4 }
    ensures { AddsGroup number groups.old groups.new }
{
    if number < NUMBERS {
        bits::insert(groups, number as usize);
    }
}

// A set of holders with the groups of a mask's slots: it is walked by numbers then, in whatever order slots were given.
fn add_groups(groups: &mut [u64], slots: &[u64], mask: u64)
    requires { (length groups.old ≡ 4) × (length slots.now ≡ group_limit) }
    ensures { AddsGroups slots.now mask groups.old groups.new }
{
    let mut left = mask;
    while left != 0 {
        let q = bits::lowest(left);
        add_group(groups, slots[q]);
        left = bits::without(left, q);
    }
}

fn put_up_line(out: &mut [u8], at: usize, book: &[u64], key: u8, h: usize, g: usize) -> usize
    requires { (at + 64 ≤ far) × (h < 256) × (g < 256) }
    ensures { Laid out.old at (up_line_text book.now key h g) out.new result × (result ≤ at + 64) }
{
    let a = spelling::field::put_key(out, at, key);
    let b = spelling::line::put_holder(out, a, book, h);
    let c = output::put_byte(out, b, b',');
    let d = spelling::line::put_holder(out, c, book, g);
    output::put_byte(out, d, b'\n')
}

// The lines of the numbers below n that a set holds, one behind another: `put` puts the line of a number, of SIZE bytes at most.
fn put_members<const SIZE: usize, F: Fn(&mut [u8], usize, usize) -> usize>(
    out: &mut [u8],
    at: usize,
    set: &[u64],
    n: usize,
    put: F,
) -> usize
    requires room { at + SIZE * n ≤ far }
    requires few { (length set.now ≡ 4) × (n ≤ 256) }
    requires puts { PutsWithin F.Fn put SIZE n }
    ensures laid { (text : ℕ → Bytes) → PutsTexts F.Fn put SIZE n text → Laid out.old at (each (member_text set.now text) (below n)) out.new result }
    ensures within { result ≤ at + SIZE * n }
{
    let mut m = at;
    let mut k = bits::first_from(set, 0);
    while k < n {
        m = put(out, m, k);
        k = bits::first_from(set, k + 1);
    }
    m
}

// The ties of a holder up to holders with numbers below n.
fn put_ups(out: &mut [u8], at: usize, book: &[u64], key: u8, h: usize, n: usize) -> usize
    requires { (at + 16384 ≤ far) × (h < 256) × (n ≤ 256) × (length book.now ≡ book_words) }
    ensures { Laid out.old at (ups_text book.now n key h) out.new result × (result ≤ at + 16384) }
{
    let mut groups: [u64; 4] = [0; 4];
    let mask = spelling::field::word(book, UPS_AT + h);
    add_groups(&mut groups, &book[SLOTS_AT..UPS_AT], mask);
    put_members::<64, _>(
        out,
        at,
        &groups,
        n,
        |out, m, g| put_up_line(out, m, book, key, h, g),
    )
}

// A group's ties up are to parents, another holder's are those of a member.
fn key_of_ups(book: &[u64], h: usize) -> Key
    requires { h < 256 }
    ensures { key_number result ≡ key_of_ups book.now h }
{
    if spelling::field::word(book, SLOT_OF_AT + h) == 0 {
        Key::Member
    } else {
        Key::Parent
    }
}

// The ties of a holder up, if they are of that key.
fn put_holder_ups(out: &mut [u8], at: usize, book: &[u64], key: u8, h: usize, n: usize) -> usize
    requires { (at + 16384 ≤ far) × (h < 256) × (n ≤ 256) × (length book.now ≡ book_words) }
    ensures { Laid out.old at (holder_ups_text book.now n key h) out.new result × (result ≤ at + 16384) }
{
    if u8::from(key_of_ups(book, h)) == key {
        put_ups(out, at, book, key, h, n)
    } else {
        at
    }
}

// The ties of all holders up that are of a key.
pub fn put_key_ups(out: &mut [u8], at: usize, book: &[u64], key: u8) -> usize
    requires { (at + 4194304 ≤ far) × (length book.now ≡ book_words) }
    ensures { Laid out.old at (key_ups_text book.now key) out.new result × (result ≤ at + 4194304) }
{
    let count = spelling::line::count(book, HOLDER_COUNT, HOLDERS);
    spelling::line::put_lines::<16384, _>(
        out,
        at,
        count,
        |out, n, h| put_holder_ups(out, n, book, key, h, count),
    )
}

fn put_value_line(out: &mut [u8], at: usize, book: &[u64], h: usize, p: usize) -> usize
    requires { (at + 96 ≤ far) × (h < 256) × (p < 256) }
    ensures { Laid out.old at (value_line_text book.now h p) out.new result × (result ≤ at + 96) }
{
    let row = spelling::line::row_of_pair(book, p);
    let a = spelling::field::put_key(out, at, Key::Value as u8);
    let b = spelling::line::put_holder(out, a, book, h);
    let c = output::put_byte(out, b, b',');
    let d = spelling::field::put_name(out, c, book, row + 2);
    let e = output::put_byte(out, d, b',');
    let f = spelling::line::put_pair_atom(out, e, book, p);
    output::put_byte(out, f, b'\n')
}

// The lines of a holder's own pairs.
fn put_values_of(out: &mut [u8], at: usize, book: &[u64], h: usize) -> usize
    requires { (at + 24576 ≤ far) × (h < 256) × (length book.now ≡ book_words) }
    ensures { Laid out.old at (values_text book.now h) out.new result × (result ≤ at + 24576) }
{
    let start = OWN_AT + 4 * h;
    let own = &book[start..start + 4];
    put_members::<96, _>(
        out,
        at,
        own,
        PAIRS,
        |out, n, p| put_value_line(out, n, book, h, p),
    )
}

pub fn put_values(out: &mut [u8], at: usize, book: &[u64]) -> usize
    requires { (at + 6291456 ≤ far) × (length book.now ≡ book_words) }
    ensures { Laid out.old at (each (values_text book.now) (below (holder_count book.now))) out.new result × (result ≤ at + 6291456) }
{
    let count = spelling::line::count(book, HOLDER_COUNT, HOLDERS);
    spelling::line::put_lines::<24576, _>(
        out,
        at,
        count,
        |out, n, h| put_values_of(out, n, book, h),
    )
}
