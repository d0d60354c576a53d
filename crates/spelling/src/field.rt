// What stands in a line: words of the format, names and atoms, as a book has them. Words behind the end of a book or a table count as 0, so that nothing
// is asked of either.
ghost use Rattle.std.specs.Prelude.{◌≡◌, ◌+◌, ◌≤◌, get_or};
ghost use Rattle.model.specs.Atoms.{quoted};
ghost use Rattle.output.specs.Laid.{far, Laid, word_text};
ghost use Rattle.spelling.specs.LineTexts.{listed_text, key_words, source_words, type_words, token_words, name_text, string_text, atom_text, attribute_text};

use codes::AtomType;
use text::{SOURCES, TYPES};

// Words of the format in tables, packed as names are. The number that a book or the code of a rule has for one is its place. Those of sources and types
// stand where these words are read.

// The keys, with their `=`.
const KEYS: [u64; 12] = [
    0, // none
    263913239649, // `attr=`
    4026479, // `op=`
    263829025889, // `atom=`
    17293623262603125, // `ugroup=`
    17293623262603119, // `ogroup=`
    263912256373, // `user=`
    17297943831405167, // `object=`
    17297991076569456, // `parent=`
    17295753347949933, // `member=`
    67505971028342, // `value=`
    263694611826, // `rule=`
];

// FALSE and TRUE.
const BOOLS: [u64; 2] = [
    297750249798, // `FALSE`
    1163219540, // `TRUE`
];

// The tokens that carry nothing.
const TOKENS: [u64; 24] = [
    0, // none
    0, // none
    0, // none
    0, // none
    0, // none
    40, // `(`
    41, // `)`
    123, // `{`
    125, // `}`
    44, // `,`
    4476481, // `AND`
    21071, // `OR`
    5525326, // `NOT`
    297750249798, // `FALSE`
    301809815125, // `UNDEF`
    1163219540, // `TRUE`
    61, // `=`
    20041, // `IN`
    15649, // `!=`
    92656726332755, // `SUBSET`
    60, // `<`
    15676, // `<=`
    62, // `>`
    15678, // `>=`
];

// The word at a place of a book.
pub fn word(words: &[u64], at: usize) -> u64
    ensures { result ≡ get_or words.now at 0 }
{
    words.get(at).copied().unwrap_or(0)
}

// A word of the format.
fn put_listed(out: &mut [u8], at: usize, table: &[u64], number: u64) -> usize
    requires { at + 8 ≤ far }
    ensures { Laid out.old at (listed_text table.now number) out.new result × (result ≤ at + 8) }
{
    output::put_word(out, at, word(table, number as usize))
}

pub fn put_key(out: &mut [u8], at: usize, key: u8) -> usize
    requires { at + 8 ≤ far }
    ensures { Laid out.old at (listed_text key_words key) out.new result × (result ≤ at + 8) }
{
    put_listed(out, at, &KEYS, u64::from(key))
}

pub fn put_source(out: &mut [u8], at: usize, source: u64) -> usize
    requires { at + 8 ≤ far }
    ensures { Laid out.old at (listed_text source_words source) out.new result × (result ≤ at + 8) }
{
    put_listed(out, at, &SOURCES, source)
}

pub fn put_type(out: &mut [u8], at: usize, ty: u64) -> usize
    requires { at + 8 ≤ far }
    ensures { Laid out.old at (listed_text type_words ty) out.new result × (result ≤ at + 8) }
{
    put_listed(out, at, &TYPES, ty)
}

// A token that carries nothing.
pub fn put_token(out: &mut [u8], at: usize, kind: u8) -> usize
    requires { at + 8 ≤ far }
    ensures { Laid out.old at (listed_text token_words kind) out.new result × (result ≤ at + 8) }
{
    put_listed(out, at, &TOKENS, u64::from(kind))
}

// The bytes of a packed word that stands behind another: mostly it is 0 and has none.
fn put_rest(out: &mut [u8], at: usize, word: u64) -> usize
    requires { at + 8 ≤ far }
    ensures { Laid out.old at (word_text 8 word) out.new result × (result ≤ at + 8) }
{
    if word == 0 {
        at
    } else {
        output::put_word(out, at, word)
    }
}

// The name in the two words from a place on. Inlined, as is the atom: a length takes longer where they are called.
#[inline(always)]
pub fn put_name(out: &mut [u8], at: usize, book: &[u64], place: usize) -> usize
    requires { (at + 16 ≤ far) × (place + 1 ≤ far) }
    ensures { Laid out.old at (name_text book.now place) out.new result × (result ≤ at + 16) }
{
    let n = output::put_word(out, at, word(book, place));
    put_rest(out, n, word(book, place + 1))
}

// The string in the three words from a place on, in its quotes.
fn put_string(out: &mut [u8], at: usize, book: &[u64], place: usize) -> usize
    requires { (at + 26 ≤ far) × (place + 2 ≤ far) }
    ensures { Laid out.old at (quoted (string_text book.now place)) out.new result × (result ≤ at + 26) }
{
    let a = output::put_byte(out, at, b'"');
    let b = put_name(out, a, book, place);
    let c = put_rest(out, b, word(book, place + 2));
    output::put_byte(out, c, b'"')
}

// The atom in the three words from a place on.
#[inline(always)]
pub fn put_atom(out: &mut [u8], at: usize, book: &[u64], ty: u64, place: usize) -> usize
    requires { (at + 26 ≤ far) × (place + 2 ≤ far) }
    ensures { Laid out.old at (atom_text book.now ty place) out.new result × (result ≤ at + 26) }
{
    if ty == u64::from(AtomType::Int) {
        output::put_decimal(out, at, (word(book, place) % 4294967296) as u32)
    } else if ty == u64::from(AtomType::Str) {
        put_string(out, at, book, place)
    } else {
        put_listed(out, at, &BOOLS, word(book, place))
    }
}

// SRC.NAME of the attribute whose row is at a place.
pub fn put_attribute(out: &mut [u8], at: usize, book: &[u64], row: usize) -> usize
    requires { (at + 25 ≤ far) × (row + 3 ≤ far) }
    ensures { Laid out.old at (attribute_text book.now row) out.new result × (result ≤ at + 25) }
{
    let a = put_source(out, at, word(book, row));
    let b = output::put_byte(out, a, b'.');
    put_name(out, b, book, row + 2)
}
