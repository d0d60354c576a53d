// One thing more in the book for each line that declares.
ghost use Rattle.std.specs.Prelude.{◌≡◌, ◌≤◌, ◌<◌, MatchResult, leb, ltb, length};
ghost use Rattle.model.specs.Attributes.{env};
ghost use Rattle.model.specs.Declarations.{Sort};
ghost use Rattle.model.specs.Limits.{attribute_limit, operation_limit, pair_limit, group_limit};
ghost use Rattle.codes.specs.declared.Refusal.TheVariants as refusal;
ghost use Rattle.codes.specs.Codes.{source_code};
ghost use Rattle.codes.specs.Enums.{number_in};
ghost use Rattle.book.specs.Sections.{book_words, book_holders};
ghost use Rattle.book.specs.Held.{sort_code};
ghost use Rattle.book.specs.Declaring.{block_text, attribute_put, operation_put, PairPut, HolderPut, group_put, AttributeStep, OperationStep, PairStep, HolderStep, Keeps, Emptied};

use crate::find::{self, HOLDERS, OPERATIONS, PAIRS};
use crate::{
    ATTRIBUTE_COUNT, ATTRIBUTES_AT, GROUP_COUNT, HOLDER_COUNT, HOLDERS_AT, OPERATION_COUNT,
    OPERATIONS_AT, PAIR_COUNT, PAIRS_AT, SLOT_OF_AT, SLOTS_AT, SORTS_AT, UPS_AT,
};
use codes::{AtomType, Key, Refusal, Source};
use rows::ATTRIBUTES;
use text::{Packed, Value, Words};

// How many groups there can be.
const GROUPS: usize = 64;

// The sort of holder 0.
pub const ADMIN_SORT: u8 = 1;

// The number of the next of a kind of which there are `count`, if there can be one more.
fn next_number(count: u64, limit: usize) -> Result<usize, Refusal>
    ensures { MatchResult result (λ n. (n ≡ count) × (n < limit)) (λ r. (r ≡ refusal.Full) × (limit ≤ count)) }
{
    if count < limit as u64 {
        Ok(count as usize)
    } else {
        Err(Refusal::Full)
    }
}

// Whether a source is env or connect.
fn is_of_block(source: u8) -> bool
    ensures { result ≡ leb (source_code env) source }
{
    source >= Source::Env as u8
}

// Whether an attribute would be a str of env or connect.
fn is_block_text(source: u8, ty: u8) -> bool
    ensures { result ≡ block_text source ty }
{
    is_of_block(source) && ty == AtomType::Str as u8
}

// Writes attribute n, of which there are no pairs yet, and counts it.
#[tactic(auto, unfolding(crate::specs::Declaring::attribute_put))]
fn put_attribute(book: &mut [u64], n: usize, source: u8, ty: u8, name: Packed)
    requires { (length book.old ≡ book_words) × (n < attribute_limit) }
    ensures { book.new ≡ attribute_put book.old n source ty name }
{
    let row = (u64::from(source), u64::from(ty), name.low, name.high);
    index::put_row(book, ATTRIBUTES_AT + 8 * n, row);
    book[ATTRIBUTE_COUNT] = n as u64 + 1;
}

// The step of a line `attr`: refused where its sort is wrong, where it is repeated, and where the table is full.
pub fn attribute(book: &mut [u64], source: u8, ty: u8, name: Packed) -> Result<(), Refusal>
    requires { length book.old ≡ book_words }
    ensures { Keeps (number_in result) book.old book.new × AttributeStep book.old source ty name book.new (number_in result) }
{
    if is_block_text(source, ty) {
        return Err(Refusal::WrongSort);
    }
    let attributes = &book[ATTRIBUTES_AT..OPERATIONS_AT];
    if rows::attribute_number(attributes, source, name).is_some() {
        return Err(Refusal::Repeated);
    }
    let n = next_number(book[ATTRIBUTE_COUNT], ATTRIBUTES)?;
    put_attribute(book, n, source, ty, name);
    Ok(())
}

// Writes operation n, and counts it.
#[tactic(auto, unfolding(crate::specs::Declaring::operation_put))]
fn put_operation(book: &mut [u64], n: usize, name: Packed)
    requires { (length book.old ≡ book_words) × (n < operation_limit) }
    ensures { book.new ≡ operation_put book.old n name }
{
    let at = OPERATIONS_AT + 2 * n;
    book[at] = name.low;
    book[at + 1] = name.high;
    book[OPERATION_COUNT] = n as u64 + 1;
}

// The step of a line `op`: refused where it is repeated, and where the table is full.
pub fn operation(book: &mut [u64], name: Packed) -> Result<(), Refusal>
    requires { length book.old ≡ book_words }
    ensures { Keeps (number_in result) book.old book.new × OperationStep book.old name book.new (number_in result) }
{
    if find::operation_number(&book[OPERATIONS_AT..PAIRS_AT], name).is_some() {
        return Err(Refusal::Repeated);
    }
    let n = next_number(book[OPERATION_COUNT], OPERATIONS)?;
    put_operation(book, n, name);
    Ok(())
}

// Writes pair n, one of attribute k, with its bit in the attribute's mask, and counts it.
fn put_pair(book: &mut [u64], n: usize, k: usize, words: Words)
    requires { (length book.old ≡ book_words) × (n < pair_limit) × (k < attribute_limit) }
    ensures { PairPut book.old n k words book.new }
{
    let at = ATTRIBUTES_AT + (8 * k + 4 + n / 64);
    let word = book[at];
    let mask = bits::with(word, n % 64);
    book[at] = mask;
    let row = (k as u64 + 1, words.first, words.second, words.third);
    index::add(&mut book[PAIRS_AT..HOLDERS_AT], n, row);
    book[PAIR_COUNT] = n as u64 + 1;
}

// The step of a line `atom`: refused where its attribute is undeclared, where its sort is wrong, where it is repeated, and where the table is full.
pub fn pair(book: &mut [u64], source: u8, name: Packed, atom: Value) -> Result<(), Refusal>
    requires { length book.old ≡ book_words }
    ensures { Keeps (number_in result) book.old book.new × PairStep book.old source name atom book.new (number_in result) }
{
    let attributes = &book[ATTRIBUTES_AT..OPERATIONS_AT];
    let Some(k) = rows::attribute_number(attributes, source, name) else {
        return Err(Refusal::Undeclared);
    };
    if is_of_block(source) || attributes[8 * k + 1] != u64::from(atom.ty) {
        return Err(Refusal::WrongSort);
    }
    if find::pair_number(&book[PAIRS_AT..HOLDERS_AT], k, atom.words).is_some() {
        return Err(Refusal::Repeated);
    }
    let n = next_number(book[PAIR_COUNT], PAIRS)?;
    put_pair(book, n, k, atom.words);
    Ok(())
}

// Writes holder n, and counts it.
fn put_holder(book: &mut [u64], n: usize, sort: u64, name: Packed)
    requires { (length book.old ≡ book_words) × (n < book_holders) }
    ensures { HolderPut book.old n sort name book.new }
{
    index::add(
        &mut book[HOLDERS_AT..SORTS_AT],
        n,
        (1, name.low, name.high, 0),
    );
    book[SORTS_AT + n] = sort;
    book[HOLDER_COUNT] = n as u64 + 1;
}

// Gives the group of holder number n slot g, and counts it.
fn put_group(book: &mut [u64], n: usize, g: usize)
    requires { (length book.old ≡ book_words) × (n < book_holders) × (g < group_limit) }
    ensures { book.new ≡ group_put book.old n g }
{
    ties::give_slot(&mut book[SLOTS_AT..UPS_AT], g, n);
    book[SLOT_OF_AT + n] = g as u64 + 1;
    book[GROUP_COUNT] = g as u64 + 1;
}

// Whether a key that declares a holder declares a group: those of groups come first.
fn is_group(key: u8) -> bool
    ensures { result ≡ ltb key (sort_code Sort.user) }
{
    key < Key::User as u8
}

// The step of a line that declares a holder, by its key: refused where it is repeated, and where a table is full. A group gets the next slot.
pub fn holder(book: &mut [u64], key: u8, name: Packed) -> Result<(), Refusal>
    requires { length book.old ≡ book_words }
    ensures { Keeps (number_in result) book.old book.new × HolderStep book.old key name book.new (number_in result) }
{
    if find::holder_number(&book[HOLDERS_AT..SORTS_AT], name).is_some() {
        return Err(Refusal::Repeated);
    }
    let n = next_number(book[HOLDER_COUNT], HOLDERS)?;
    if !is_group(key) {
        put_holder(book, n, u64::from(key), name);
        return Ok(());
    }
    let g = next_number(book[GROUP_COUNT], GROUPS)?;
    put_holder(book, n, u64::from(key), name);
    put_group(book, n, g);
    Ok(())
}

// The book of the empty state: nothing but holder 0, whatever was there. The rules' bytes may stay: there are no rules.
pub fn clear(book: &mut [u64])
    requires { length book.old ≡ book_words }
    ensures { (length book.new ≡ length book.old) × Emptied book.new }
{
    book.fill(0);
    put_holder(book, 0, u64::from(ADMIN_SORT), text::pack(b"admin"));
}
