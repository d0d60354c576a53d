// Operands: where the values are that stand beside an operator; and their comparison. Nothing is copied: an operand is a few numbers, and its
// values are found one after another where they are lent.
#![tactic(auto)]

mod lent;

ghost use Rattle.std.specs.Prelude.{◌≡◌, true, false, Option, ℕ, ◌+◌, ◌*◌, ◌/◌, ◌<◌, ◌≤◌, List, eqb, length};
ghost use Rattle.std.specs.Iterator.{YieldsFirst};
ghost use Rattle.model.specs.Block.{byte_at, value_at};
ghost use Rattle.model.specs.Truth.{NOT};
ghost use Rattle.truth.specs.Truths.{truth_of};
ghost use Rattle.text.specs.declared.Words.{Words};
ghost use Rattle.text.specs.Values.{words};
ghost use Rattle.values.specs.Operands.{lent, lent_by, First, words_from, pair_words, entry_words, entries_from, FirstPair, int_at, str_at, constants_from};
ghost use Rattle.values.specs.Operands.{operand_values, operand, no_values, row_type, attribute_operand};
ghost use Rattle.values.specs.Compared.{further, worst, extreme_of, at_end, among_of, asked, found_of, below_of, Compared, Lone, Lacks};

use codes::{AT_LEAST, AT_MOST, AtomType, EQUAL, GREATER, IN, INT, LESS, STR, SUBSET, UNEQUAL};
use lent::Lent;
use text::Words;
use truth::Truth;

// Where an operand's values are: the pairs of the session's words of an attribute, the entries of an attribute, or constants in the code.
const WORDS: u8 = 0;

const ENTRIES: u8 = 1;

const CONSTANTS: u8 = 2;

// How many pairs and attributes there are.
const PAIRS: usize = 256;

const ATTRIBUTES: usize = 32;

// The largest int.
const LARGEST: u64 = 4294967295;

// The values beside an operator, all of one type. Programs keep type and place as bytes of a row.
#[derive(Clone, Copy)]
pub struct Operand {
    // The type; 0 where there is no value.
    pub ty: u8,
    pub place: u8,
    // The attribute's number; of constants, the byte of the code where they begin, and the one behind their last.
    pub start: usize,
    pub end: usize,
}

// A constant, and the position behind it.
#[derive(Clone, Copy)]
pub struct Found {
    pub words: Words,
    pub next: usize,
}

fn one_word(first: u64) -> Words
    ensures { result ≡ words first 0 0 }
{
    Words {
        first,
        second: 0,
        third: 0,
    }
}

// The number of four bytes, low byte first.
#[inline]
pub fn four(s: &[u8], at: usize) -> u64
    requires { at + 4 ≤ length s.now }
    ensures { result ≡ value_at s.now at }
{
    let a = u64::from(s[at]);
    let b = u64::from(s[at + 1]);
    let c = u64::from(s[at + 2]);
    let d = u64::from(s[at + 3]);
    a + 256 * (b + 256 * (c + 256 * d))
}

// The number of the first pair from number i on that the session has of attribute k.
#[inline]
fn pair_number(session: &[u64; 128], k: usize, i: usize) -> Option<usize>
    ensures { FirstPair session.now k i result }
{
    if ATTRIBUTES <= k {
        return None;
    }
    let p = bits::first_from(&session[4 * k..4 * k + 4], i);
    if p < PAIRS { Some(p) } else { None }
}

// The words of a pair's atom.
fn pair_words(pairs: &[u64], p: usize) -> Words
    requires { 4 * p + 4 ≤ length pairs.now }
    ensures { result ≡ pair_words pairs.now p }
{
    Words {
        first: pairs[4 * p + 1],
        second: pairs[4 * p + 2],
        third: pairs[4 * p + 3],
    }
}

// The number of the first entry from number i on that is one of attribute k.
#[inline]
fn entry_number(entries: &[u8], k: usize, i: usize) -> Option<usize>
    ensures { First (λ j. eqb (byte_at entries.now (5 * j)) k) (length entries.now / 5) i result }
{
    for j in i..entries.len() / 5 {
        if usize::from(entries[5 * j]) == k {
            return Some(j);
        }
    }
    None
}

// "a 32-bit value, low byte first (bool 0 or 1)", by its type: the first of its words, the others are 0.
fn entry_word(ty: u8, v: u64) -> u64
    ensures { words result 0 0 ≡ entry_words ty v }
{
    if ty == AtomType::Bool as u8 {
        u64::from(v == 1)
    } else {
        v
    }
}

// The int constant at byte i, if it ends before `end`.
#[inline]
fn int_at(code: &[u8], end: usize, i: usize) -> Option<Found>
    ensures { result ≡ int_at code.now end i }
{
    if code.len() < end || end < 5 || end - 5 < i {
        return None;
    }
    Some(Found {
        words: one_word(four(code, i + 1)),
        next: i + 6,
    })
}

// The str constant at byte i, if it ends before `end`.
fn str_at(code: &[u8], end: usize, i: usize) -> Option<Found>
    ensures { result ≡ str_at code.now end i }
{
    if code.len() < end || end < 2 || end - 2 < i {
        return None;
    }
    let start = i + 2;
    let n = usize::from(code[i + 1]);
    if 24 < n || end < start + n {
        return None;
    }
    let past = start + n;
    Some(Found {
        words: text::words_of(&code[start..past]),
        next: past + 1,
    })
}

// Values, one after another. Each place has a type of its own, so that each search is a loop over that place alone; `next` is `inline`, so that a
// value need not go through memory.
trait Values: Drop {
    // those that come
    ghost left: { Self → List Words };

    fn next(&mut self) -> Option<Words>
        ensures { YieldsFirst left self.old result self.new };
}

// Those that a session has of attribute k, from pair `at` on.
#[derive(Drop)]
struct PairValues<'a> {
    lent: &'a Lent<'a>,
    k: usize,
    at: usize,
}

impl Values for PairValues<'_> {
    ghost left = { λ s. words_from s.lent.now.pairs.now s.lent.now.session.now s.k s.at };

    #[inline]
    fn next(&mut self) -> Option<Words> {
        let lent = self.lent;
        let p = pair_number(lent.session, self.k, self.at)?;
        self.at = p + 1;
        Some(pair_words(lent.pairs, p))
    }
}

// Those that the entries have of attribute k, from entry `at` on.
#[derive(Drop)]
struct EntryValues<'a> {
    entries: &'a [u8],
    ty: u8,
    k: usize,
    at: usize,
}

impl Values for EntryValues<'_> {
    ghost left = { λ s. entries_from s.entries.now s.ty s.k s.at };

    #[inline]
    fn next(&mut self) -> Option<Words> {
        let entries = self.entries;
        let j = entry_number(entries, self.k, self.at)?;
        self.at = j + 1;
        Some(one_word(entry_word(self.ty, four(entries, 5 * j + 1))))
    }
}

// The int constants from byte `at` up to byte `end`.
#[derive(Drop)]
struct IntValues<'a> {
    code: &'a [u8],
    end: usize,
    at: usize,
}

impl Values for IntValues<'_> {
    ghost left = { λ s. constants_from 1 s.code.now s.end s.at };

    #[inline]
    fn next(&mut self) -> Option<Words> {
        let found = int_at(self.code, self.end, self.at)?;
        self.at = found.next;
        Some(found.words)
    }
}

// The str constants from byte `at` up to byte `end`.
#[derive(Drop)]
struct StrValues<'a> {
    code: &'a [u8],
    end: usize,
    at: usize,
}

impl Values for StrValues<'_> {
    ghost left = { λ s. constants_from 2 s.code.now s.end s.at };

    #[inline]
    fn next(&mut self) -> Option<Words> {
        let found = str_at(self.code, self.end, self.at)?;
        self.at = found.next;
        Some(found.words)
    }
}

// Those of an operand, by its place.
fn pair_values<'a>(lent: &'a Lent<'a>, operand: Operand) -> PairValues<'a>
    requires { operand.place ≡ 0 }
    ensures { words_from result.lent.now.pairs.now result.lent.now.session.now result.k result.at ≡ operand_values (lent_by lent.now) operand }
{
    PairValues {
        lent,
        k: operand.start,
        at: 0,
    }
}

fn entry_values<'a>(lent: &'a Lent<'a>, operand: Operand) -> EntryValues<'a>
    requires { operand.place ≡ 1 }
    ensures { entries_from result.entries.now result.ty result.k result.at ≡ operand_values (lent_by lent.now) operand }
{
    EntryValues {
        entries: lent.entries,
        ty: operand.ty,
        k: operand.start,
        at: 0,
    }
}

fn int_values<'a>(lent: &'a Lent<'a>, operand: Operand) -> IntValues<'a>
    requires { (1 < operand.place) × (operand.ty ≡ 2 → ⊥) }
    ensures { constants_from 1 result.code.now result.end result.at ≡ operand_values (lent_by lent.now) operand }
{
    IntValues {
        code: lent.code,
        end: operand.end,
        at: operand.start,
    }
}

fn str_values<'a>(lent: &'a Lent<'a>, operand: Operand) -> StrValues<'a>
    requires { (1 < operand.place) × (operand.ty ≡ 2) }
    ensures { constants_from 2 result.code.now result.end result.at ≡ operand_values (lent_by lent.now) operand }
{
    StrValues {
        code: lent.code,
        end: operand.end,
        at: operand.start,
    }
}

// What a search says that met no answer but FALSE: UNDEF where it met no value.
fn at_end(some: bool) -> Truth
    ensures { truth_of result ≡ at_end some }
{
    if some { Truth::False } else { Truth::Undef }
}

// Whether a value is among others.
fn among<V: Values>(mut values: V, wanted: Words) -> Truth
    ensures { truth_of result ≡ among_of (V.left values) wanted }
{
    let mut some = false;
    while let Some(words) = values.next() {
        if wanted == words {
            return Truth::True;
        }
        some = true;
    }
    at_end(some)
}

// Whether a value is among those of an operand.
fn is_among<'a>(lent: &'a Lent<'a>, operand: Operand, wanted: Words) -> Truth
    ensures { truth_of result ≡ among_of (operand_values (lent_by lent.now) operand) wanted }
{
    match operand.place {
        WORDS => among(pair_values(lent, operand), wanted),
        ENTRIES => among(entry_values(lent, operand), wanted),
        _ if operand.ty == STR => among(str_values(lent, operand), wanted),
        _ => among(int_values(lent, operand), wanted),
    }
}

fn asked(wanted: bool, found: Truth) -> Truth
    ensures { truth_of result ≡ asked wanted (truth_of found) }
{
    if wanted { found } else { truth::not(found) }
}

// Whether some value is among those of an operand, or with `wanted` false, whether some is not.
fn found_among<'a, V: Values>(
    mut values: V,
    lent: &'a Lent<'a>,
    others: Operand,
    wanted: bool,
) -> Truth
    ensures { truth_of result ≡ found_of wanted (V.left values) (operand_values (lent_by lent.now) others) }
{
    let mut some = false;
    while let Some(words) = values.next() {
        let answer = asked(wanted, is_among(lent, others, words));
        if answer != Truth::False {
            return answer;
        }
        some = true;
    }
    at_end(some)
}

// Whether some value of an operand is among those of another, or with `wanted` false, whether some is not.
fn some_among<'a>(lent: &'a Lent<'a>, operand: Operand, others: Operand, wanted: bool) -> Truth
    ensures { truth_of result ≡ found_of wanted (operand_values (lent_by lent.now) operand) (operand_values (lent_by lent.now) others) }
{
    match operand.place {
        WORDS => found_among(pair_values(lent, operand), lent, others, wanted),
        ENTRIES => found_among(entry_values(lent, operand), lent, others, wanted),
        _ if operand.ty == STR => found_among(str_values(lent, operand), lent, others, wanted),
        _ => found_among(int_values(lent, operand), lent, others, wanted),
    }
}

// Whether some left value is among the right, or with `wanted` false, whether some is not. A common value is one seen from either side: constants on
// the right are walked first, so that each is taken out of the code once.
fn some_found<'a>(lent: &'a Lent<'a>, left: Operand, right: Operand, wanted: bool) -> Truth
    ensures { truth_of result ≡ found_of wanted (operand_values (lent_by lent.now) left) (operand_values (lent_by lent.now) right) }
{
    if wanted && ENTRIES < right.place {
        return some_among(lent, right, left, true);
    }
    some_among(lent, left, right, wanted)
}

// Whether no left value is among the right, or with `wanted` false, whether each is.
fn none_found<'a>(lent: &'a Lent<'a>, left: Operand, right: Operand, wanted: bool) -> Truth
    ensures { truth_of result ≡ NOT (found_of wanted (operand_values (lent_by lent.now) left) (operand_values (lent_by lent.now) right)) }
{
    truth::not(some_found(lent, left, right, wanted))
}

// The greater of two numbers, or the less.
fn further(greatest: bool, a: u64, b: u64) -> u64
    ensures { result ≡ further greatest a b }
{
    if greatest { a.max(b) } else { a.min(b) }
}

fn start_of(greatest: bool) -> u64
    ensures { result ≡ worst greatest }
{
    if greatest { 0 } else { LARGEST }
}

// The greatest of some ints, or the least, if there is one.
fn extreme<V: Values>(mut values: V, greatest: bool) -> Option<u64>
    ensures { result ≡ extreme_of greatest (V.left values) }
{
    let mut best = None;
    while let Some(words) = values.next() {
        let so_far = best.unwrap_or(start_of(greatest));
        best = Some(further(greatest, so_far, words.first));
    }
    best
}

// The greatest of an operand's values, which are ints, or the least.
fn extreme_int<'a>(lent: &'a Lent<'a>, operand: Operand, greatest: bool) -> Option<u64>
    requires { operand.ty ≡ 1 }
    ensures { result ≡ extreme_of greatest (operand_values (lent_by lent.now) operand) }
{
    match operand.place {
        WORDS => extreme(pair_values(lent, operand), greatest),
        ENTRIES => extreme(entry_values(lent, operand), greatest),
        _ => extreme(int_values(lent, operand), greatest),
    }
}

// Whether some value of `low` is below some value of `high`, or with `equal` equal to it: so it is exactly if the least and the greatest are. An order
// is one of integers alone.
fn below<'a>(lent: &'a Lent<'a>, low: Operand, high: Operand, equal: bool) -> Truth
    requires { low.ty ≡ high.ty }
    ensures { truth_of result ≡ below_of (lent_by lent.now) equal low high }
{
    if low.ty != INT {
        return Truth::Undef;
    }
    let Some(least) = extreme_int(lent, low, false) else {
        return Truth::Undef;
    };
    let Some(greatest) = extreme_int(lent, high, true) else {
        return Truth::Undef;
    };
    truth::tested(if equal {
        least <= greatest
    } else {
        least < greatest
    })
}

// What an operator says of its operands. "Absent operands, different types, and an order between non-integers give UNDEF."
pub fn compare(
    code: &[u8],
    pairs: &[u64],
    session: &[u64; 128],
    entries: &[u8],
    operator: u8,
    left: Operand,
    right: Operand,
) -> Truth
    requires { length pairs.now ≡ 1024 }
    ensures { Compared (lent code.now pairs.now session.now entries.now) operator left right result }
{
    if left.ty != right.ty {
        return Truth::Undef;
    }
    let lent = Lent {
        code: &*code,
        pairs: &*pairs,
        session: &*session,
        entries: &*entries,
    };
    match operator {
        EQUAL..=IN => some_found(&lent, left, right, true),
        UNEQUAL..=UNEQUAL => none_found(&lent, left, right, true),
        SUBSET..=SUBSET => none_found(&lent, left, right, false),
        LESS..=LESS => below(&lent, left, right, false),
        AT_MOST..=AT_MOST => below(&lent, left, right, true),
        GREATER..=GREATER => below(&lent, right, left, false),
        AT_LEAST..=AT_LEAST => below(&lent, right, left, true),
        _ => Truth::Undef,
    }
}

// What an attribute that stands alone comes to: whether TRUE is among its values.
pub fn lone(
    code: &[u8],
    pairs: &[u64],
    session: &[u64; 128],
    entries: &[u8],
    operand: Operand,
) -> Truth
    requires { length pairs.now ≡ 1024 }
    ensures { Lone (lent code.now pairs.now session.now entries.now) operand result }
{
    if operand.ty != AtomType::Bool as u8 {
        return Truth::Undef;
    }
    let lent = Lent {
        code: &*code,
        pairs: &*pairs,
        session: &*session,
        entries: &*entries,
    };
    is_among(&lent, operand, one_word(1))
}

// Whether an operand lacks values: whether its first one is not there.
pub fn lacks(code: &[u8], session: &[u64; 128], entries: &[u8], operand: Operand) -> bool
    ensures { Lacks code.now session.now entries.now operand result }
{
    let Operand {
        ty,
        place,
        start,
        end,
    } = operand;
    match place {
        WORDS => pair_number(session, start, 0).is_none(),
        ENTRIES => entry_number(entries, start, 0).is_none(),
        _ if ty == STR => str_at(code, end, start).is_none(),
        _ => int_at(code, end, start).is_none(),
    }
}

// An operand without a value.
pub fn no_values() -> Operand
    ensures { result ≡ no_values }
{
    Operand {
        ty: 0,
        place: CONSTANTS,
        start: 0,
        end: 0,
    }
}

// The constants of one type in the code from byte `start` up to byte `end`, parted by a byte.
pub fn constant(ty: u8, start: usize, end: usize) -> Operand
    ensures { result ≡ operand ty 2 start end }
{
    Operand {
        ty,
        place: CONSTANTS,
        start,
        end,
    }
}

// The type of row k of attributes.
fn type_of(attributes: &[u64], k: usize) -> u8
    requires { (length attributes.now ≡ 256) × (k < 32) }
    ensures { result ≡ row_type attributes.now k }
{
    let ty = attributes[8 * k + 1];
    if ty <= 3 { ty as u8 } else { 0 }
}

// The values of attribute k: in the session for user, object and admin, in the block for env and connect; none where no attribute has that number.
pub fn attribute(attributes: &[u64], k: usize) -> Operand
    requires { length attributes.now ≡ 256 }
    ensures { result ≡ attribute_operand attributes.now k }
{
    if ATTRIBUTES <= k {
        return no_values();
    }
    let place = match attributes[8 * k] {
        0 => return no_values(),
        1..=3 => WORDS,
        _ => ENTRIES,
    };
    Operand {
        ty: type_of(attributes, k),
        place,
        start: k,
        end: 0,
    }
}
