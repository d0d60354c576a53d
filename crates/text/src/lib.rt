// Readers of the parts of a line: each takes the bytes of one part and says what the specification reads in them.
#![tactic(auto)]

ghost use Rattle.std.specs.Prelude.{◌≡◌, true, ◌+◌, ◌/◌, ◌≤◌, ◌<◌, length};
ghost use Rattle.model.specs.Names.{is_name, name_byte};
ghost use Rattle.model.specs.Atoms.{is_text, text_byte, read_int, read_bool, read_atom};
ghost use Rattle.model.specs.Attributes.{read_source, read_type};
ghost use Rattle.model.specs.Keys.{read_key};
ghost use Rattle.model.specs.Block.{number};
ghost use Rattle.model.specs.Gate.{hex_digit};
ghost use Rattle.codes.specs.Enums.{told, told_by, source_for, type_for, key_for};
ghost use Rattle.text.specs.Parts.{FirstAt, Quoted};
ghost use Rattle.text.specs.ReadCodes.{is_decimal, limited};
ghost use Rattle.text.specs.Packing.{packed_of, packed_at, three_words};
ghost use Rattle.text.specs.Keywords.{Keyword};
ghost use Rattle.text.specs.Values.{words, value, atom_value};
ghost use Rattle.text.specs.Hex.{hex_pair_of, Unhexed};

use codes::{AtomType, Key, Source};

const NAME_BYTES: usize = 12;

const TEXT_BYTES: usize = 12;

const WORD_BYTES: usize = 8;

// The words of sources and of types, packed as names are. The number of a source or a type is its place.
pub const SOURCES: [u64; 6] = [
    0, // none
    1919251317, // `user`
    127970252055151, // `object`
    474215179361, // `admin`
    7761509, // `env`
    32760384594014051, // `connect`
];

pub const TYPES: [u64; 4] = [
    0, // none
    7630441, // `int`
    7500915, // `str`
    1819242338, // `bool`
];

// A name in words of eight bytes, low byte first.
#[derive(Clone, Copy, PartialEq, Eq)]
pub struct Packed {
    pub low: u64,
    pub high: u64,
}

// The words of an atom: an int's value, 0 or 1 for a truth value, or a str's bytes packed like a name's.
#[derive(Clone, Copy, PartialEq, Eq)]
pub struct Words {
    pub first: u64,
    pub second: u64,
    pub third: u64,
}

// The number of a type, and the atom's words.
#[derive(Clone, Copy)]
pub struct Value {
    pub ty: u8,
    pub words: Words,
}

// The pairs of digits in front of what is none.
#[derive(Clone, Copy)]
pub struct NoPair {
    pub pairs: usize,
}

// The place where b stands first.
pub fn index_of(s: &[u8], b: u8) -> Option<usize>
    ensures { FirstAt b s.now result }
{
    s.iter().position(|x| *x == b)
}

fn is_name_byte(b: u8) -> bool
    ensures { result ≡ name_byte b }
{
    matches!(b, b'a'..=b'z' | b'0'..=b'9' | b'_')
}

fn is_text_byte(b: u8) -> bool
    ensures { result ≡ text_byte b }
{
    matches!(b, b' '..=b'~') && b != b'"'
}

#[tactic(auto, unfolding(model::specs::Names::is_name))]
pub fn is_name(s: &[u8]) -> bool
    ensures { result ≡ is_name s.now }
{
    !s.is_empty() && s.len() <= NAME_BYTES && s.iter().all(|b| is_name_byte(*b))
}

#[tactic(auto, unfolding(model::specs::Atoms::is_text))]
pub fn is_text(s: &[u8]) -> bool
    ensures { result ≡ is_text s.now }
{
    s.len() <= TEXT_BYTES && s.iter().all(|b| is_text_byte(*b))
}

// Whether bytes are decimal digits without leading zeros.
#[tactic(auto, unfolding(crate::specs::ReadCodes::is_decimal))]
fn is_decimal(s: &[u8]) -> bool
    ensures { result ≡ is_decimal s.now }
{
    match s {
        [] | [b'0', _, ..] => false,
        _ => s.iter().all(|b| b.is_ascii_digit()),
    }
}

// The number that digits write, if it is at most the largest.
fn number_of(s: &[u8]) -> Option<u32>
    requires { is_decimal s.now ≡ true }
    ensures { result ≡ told (limited s.now) }
{
    let mut n: u32 = 0;
    for b in s {
        n = n.checked_mul(10)?.checked_add(u32::from(*b - b'0'))?;
    }
    Some(n)
}

#[tactic(auto, using(crate::proofs::DecimalDigits::int_decimal, crate::proofs::DecimalDigits::int_other))]
pub fn int_of(s: &[u8]) -> Option<u32>
    ensures { result ≡ told (read_int s.now) }
{
    if is_decimal(s) { number_of(s) } else { None }
}

// Whether bytes are a str: its text then stands between the first byte and the last.
#[tactic(auto, using(crate::proofs::Quotes::too_short, crate::proofs::Quotes::no_first, crate::proofs::Quotes::no_last, crate::proofs::Quotes::between))]
pub fn is_str(s: &[u8]) -> bool
    ensures { Quoted s.now result }
{
    match s {
        [b'"', text @ .., b'"'] => is_text(text),
        _ => false,
    }
}

// The number that at most eight bytes write, low byte first.
pub fn word_of(s: &[u8]) -> u64
    requires { length s.now ≤ 8 }
    ensures { result ≡ number s.now }
{
    let mut w: u64 = 0;
    for b in s.iter().rev() {
        w = w * 256 + u64::from(*b);
    }
    w
}

// The place of bytes in a table of packed words. Bytes that end in a 0 are no word, though a word has their number.
pub fn keyword(s: &[u8], table: &[u64]) -> Option<usize>
    ensures { Keyword table.now s.now result }
{
    if WORD_BYTES < s.len() || *s.last()? == 0 {
        return None;
    }
    let word = word_of(s);
    let (_, words) = table.split_first()?;
    Some(1 + words.iter().position(|w| *w == word)?)
}

pub fn source_of(s: &[u8]) -> Option<Source>
    ensures { result ≡ told_by source_for (read_source s.now) }
{
    match s {
        b"user" => Some(Source::User),
        b"object" => Some(Source::Object),
        b"admin" => Some(Source::Admin),
        b"env" => Some(Source::Env),
        b"connect" => Some(Source::Connect),
        _ => None,
    }
}

pub fn type_of(s: &[u8]) -> Option<AtomType>
    ensures { result ≡ told_by type_for (read_type s.now) }
{
    match s {
        b"int" => Some(AtomType::Int),
        b"str" => Some(AtomType::Str),
        b"bool" => Some(AtomType::Bool),
        _ => None,
    }
}

pub fn key_of(s: &[u8]) -> Option<Key>
    ensures { result ≡ told_by key_for (read_key s.now) }
{
    match s {
        b"value" => Some(Key::Value),
        b"member" => Some(Key::Member),
        b"parent" => Some(Key::Parent),
        b"rule" => Some(Key::Rule),
        b"user" => Some(Key::User),
        b"object" => Some(Key::Object),
        b"atom" => Some(Key::Atom),
        b"ugroup" => Some(Key::Ugroup),
        b"ogroup" => Some(Key::Ogroup),
        b"attr" => Some(Key::Attr),
        b"op" => Some(Key::Op),
        _ => None,
    }
}

// The value of TRUE or FALSE.
#[tactic(auto, unfolding(model::specs::Atoms::read_bool))]
pub fn bool_of(s: &[u8]) -> Option<bool>
    ensures { result ≡ told (read_bool s.now) }
{
    match s {
        b"TRUE" => Some(true),
        b"FALSE" => Some(false),
        _ => None,
    }
}

pub fn pack(s: &[u8]) -> Packed
    requires { length s.now ≤ 16 }
    ensures { result ≡ packed_of s.now }
{
    let (low, high) = s.split_at(s.len().min(WORD_BYTES));
    Packed {
        low: word_of(low),
        high: word_of(high),
    }
}

// Whether the two words from a place on are those of a packed name.
#[tactic(auto, unfolding(crate::specs::Packing::packed_at))]
pub fn is_packed_at(words: &[u64], at: usize, name: Packed) -> bool
    requires { at + 1 < length words.now }
    ensures { result ≡ packed_at words.now at name.low name.high }
{
    words[at] == name.low && words[at + 1] == name.high
}

pub fn words_of(s: &[u8]) -> Words
    requires { length s.now ≤ 24 }
    ensures { result ≡ three_words s.now }
{
    let (front, rest) = s.split_at(s.len().min(2 * WORD_BYTES));
    let Packed { low, high } = pack(front);
    Words {
        first: low,
        second: high,
        third: word_of(rest),
    }
}

// An atom that one word keeps.
fn single(ty: u8, word: u64) -> Value
    ensures { result ≡ value ty (words word 0 0) }
{
    Value {
        ty,
        words: Words {
            first: word,
            second: 0,
            third: 0,
        },
    }
}

pub fn atom_of(s: &[u8]) -> Option<Value>
    ensures { result ≡ told_by atom_value (read_atom s.now) }
{
    if let Some(n) = int_of(s) {
        return Some(single(AtomType::Int as u8, u64::from(n)));
    }
    if is_str(s) {
        return Some(Value {
            ty: AtomType::Str as u8,
            words: words_of(&s[1..s.len() - 1]),
        });
    }
    Some(single(AtomType::Bool as u8, u64::from(bool_of(s)?)))
}

// The value of a digit of lower-case hex.
pub fn hex_digit(b: u8) -> Option<u8>
    ensures { result ≡ told (hex_digit b) }
{
    match b {
        b'0'..=b'9' => Some(b - b'0'),
        b'a'..=b'f' => Some(b - b'a' + 10),
        _ => None,
    }
}

// The byte that two digits write.
fn hex_pair(x: u8, y: u8) -> Option<u8>
    ensures { result ≡ told (hex_pair_of x y) }
{
    Some(16 * hex_digit(x)? + hex_digit(y)?)
}

// The bytes that pairs of digits write, and how many.
pub fn unhex(s: &[u8], out: &mut [u8]) -> Result<usize, NoPair>
    requires { length s.now / 2 ≤ length out.old }
    ensures { Unhexed s.now out.old out.new result }
{
    let pairs = s.len() / 2;
    for i in 0..pairs {
        out[i] = hex_pair(s[2 * i], s[2 * i + 1]).ok_or(NoPair { pairs: i })?;
    }
    if s.len() % 2 == 0 {
        Ok(pairs)
    } else {
        Err(NoPair { pairs })
    }
}
