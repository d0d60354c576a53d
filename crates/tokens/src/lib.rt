// The tokens of a policy, and their code.
#![tactic(auto)]

ghost use Rattle.std.specs.Prelude.{◌≡◌, Some, false, eqb, get_or, ◌+◌, ◌-◌, ◌*◌, ◌≤◌, [], ◌∷◌, length};
ghost use Rattle.model.specs.Bytes.{is_byte, one_of};
ghost use Rattle.model.specs.Tokens.{word_byte, spelling, capitals, read_word, read_attribute_name, read_text};
ghost use Rattle.codes.specs.Codes.{kind_of};
ghost use Rattle.codes.specs.Enums.{told_by};
ghost use Rattle.output.specs.Laid.{Laid};
ghost use Rattle.tokens.specs.TokenAt.{lead, code_of, sign_at, coded_read, word_token, token_in, token_at};
ghost use Rattle.tokens.specs.RuleCode.{low_bytes, Encodes};
ghost use Rattle.tokens.specs.Writing.{NamePut, Given, Wrote};

use codes::{
    AND, AT_LEAST, AT_MOST, COMMA, END, EQUAL, FALSE, GREATER, IN, INT, LBRACE, LESS, LPAREN, NAME,
    NOT, OR, RBRACE, RPAREN, STR, SUBSET, Source, TRUE, UNDEF, UNEQUAL,
};
use text::Packed;

// The number of no attribute.
const UNKNOWN: u8 = 255;

// The words in capitals, packed as names are, and the kinds of token that they are.
const CAPITALS: [u64; 9] = [
    0, // none
    4476481, // `AND`
    21071, // `OR`
    5525326, // `NOT`
    1163219540, // `TRUE`
    297750249798, // `FALSE`
    301809815125, // `UNDEF`
    20041, // `IN`
    92656726332755, // `SUBSET`
];

// Beside the words and not with them, since words alone are the table that `keyword` searches.
const CAPITAL_KINDS: [u8; 9] = [0, AND, OR, NOT, TRUE, FALSE, UNDEF, IN, SUBSET];

// How far the code reaches, and whether some name is undeclared.
#[derive(Clone, Copy)]
pub struct Encoded {
    pub len: usize,
    pub unknown: bool,
}

// Some byte is of no token; how far the code of the tokens before it reaches.
#[derive(Clone, Copy)]
pub struct BadToken {
    pub len: usize,
}

// A token of a policy, as far as its code tells it: a name with its source, the value of an int, the length of a str's text, the kind of any other.
#[derive(Clone, Copy)]
enum Token {
    Name(Source, Packed),
    Int(u32),
    Str(usize),
    Sign(u8),
}

// A token, or none where only spaces are left; and the place behind it.
#[derive(Clone, Copy)]
struct Placed {
    token: Option<Token>,
    next: usize,
}

fn word_byte(b: u8) -> bool
    ensures { result ≡ word_byte b }
{
    b.is_ascii_alphanumeric() || b == b'.' || b == b'_'
}

// How many bytes at the front are spaces, and how many are a word's.
fn spaces(s: &[u8]) -> usize
    ensures { result ≡ lead (is_byte " ") s.now }
{
    s.iter().position(|b| *b != b' ').unwrap_or(s.len())
}

fn word_length(s: &[u8]) -> usize
    ensures { result ≡ lead word_byte s.now }
{
    s.iter().position(|b| !word_byte(*b)).unwrap_or(s.len())
}

fn capital_of(w: &[u8]) -> Option<u8>
    ensures { result ≡ told_by kind_of (one_of spelling capitals w.now) }
{
    let place = text::keyword(w, &CAPITALS)?;
    Some(CAPITAL_KINDS[place])
}

// The name of an attribute, with its source.
fn name_in(w: &[u8]) -> Option<Token>
    ensures { result ≡ told_by code_of (read_attribute_name w.now) }
{
    let dot = text::index_of(w, b'.')?;
    let source = text::source_of(&w[..dot])?;
    let name = &w[dot + 1..];
    if !text::is_name(name) {
        return None;
    }
    Some(Token::Name(source, text::pack(name)))
}

// A word: one in capitals, an int or a name.
fn word_in(w: &[u8]) -> Option<Token>
    ensures { result ≡ told_by code_of (read_word w.now) }
{
    if let Some(kind) = capital_of(w) {
        return Some(Token::Sign(kind));
    }
    if let Some(n) = text::int_of(w) {
        return Some(Token::Int(n));
    }
    name_in(w)
}

// The word at the front of the last bytes of n.
fn word_token(s: &[u8], n: usize) -> Option<Placed>
    requires { length s.now ≤ n }
    ensures { result ≡ word_token n s.now }
{
    let end = word_length(s);
    let token = word_in(&s[..end])?;
    Some(Placed {
        token: Some(token),
        next: n - (s.len() - end),
    })
}

// The str whose text starts the last bytes of n, behind its first quote.
fn text_token(s: &[u8], n: usize) -> Option<Placed>
    requires { length s.now ≤ n }
    ensures { result ≡ coded_read n (read_text s.now) }
{
    let quote = text::index_of(s, b'"')?;
    if !text::is_text(&s[..quote]) {
        return None;
    }
    Some(Placed {
        token: Some(Token::Str(quote)),
        next: n - (s.len() - (quote + 1)),
    })
}

// The sign of so many bytes at the front of the last bytes of n.
fn sign(kind: u8, size: usize, s: &[u8], n: usize) -> Option<Placed>
    requires { (size ≤ length s.now) × (length s.now ≤ n) }
    ensures { result ≡ sign_at kind (n - (length s.now - size)) }
{
    Some(Placed {
        token: Some(Token::Sign(kind)),
        next: n - (s.len() - size),
    })
}

// Whether the second byte is `=`.
fn equals_next(s: &[u8]) -> bool
    ensures { result ≡ eqb (get_or s.now 1 0) 61 }
{
    s.get(1) == Some(&b'=')
}

// The token at the front of the last bytes of n. Operators are read longest first.
fn token_in(s: &[u8], n: usize) -> Option<Placed>
    requires { length s.now ≤ n }
    ensures { result ≡ token_in n s.now }
{
    if s.is_empty() {
        return Some(Placed {
            token: None,
            next: n,
        });
    }
    let equals = equals_next(s);
    match s[0] {
        b'!' if equals => sign(UNEQUAL, 2, s, n),
        b'!' => None,
        b'"' => text_token(&s[1..], n),
        b'(' => sign(LPAREN, 1, s, n),
        b')' => sign(RPAREN, 1, s, n),
        b',' => sign(COMMA, 1, s, n),
        b'<' if equals => sign(AT_MOST, 2, s, n),
        b'<' => sign(LESS, 1, s, n),
        b'=' => sign(EQUAL, 1, s, n),
        b'>' if equals => sign(AT_LEAST, 2, s, n),
        b'>' => sign(GREATER, 1, s, n),
        b'{' => sign(LBRACE, 1, s, n),
        b'}' => sign(RBRACE, 1, s, n),
        _ => word_token(s, n),
    }
}

// The token from a place on: spaces are passed over.
fn token_at(s: &[u8], at: usize) -> Option<Placed>
    requires { at ≤ length s.now }
    ensures { result ≡ token_at s.now at }
{
    let rest = &s[at..];
    token_in(&rest[spaces(rest)..], s.len())
}

fn write_int(n: u32, code: &mut [u8], at: usize) -> usize
    requires { at + 5 ≤ length code.old }
    ensures { Laid code.old at (1 ∷ low_bytes 4 n) code.new result }
{
    let [a, b, c, d] = n.to_le_bytes();
    output::put(code, at, &[INT, a, b, c, d])
}

fn write_text(s: &[u8], code: &mut [u8], at: usize) -> usize
    requires { (at + (length s.now + 2) ≤ length code.old) × (length s.now ≤ 255) }
    ensures { Laid code.old at (2 ∷ length s.now ∷ s.now) code.new result }
{
    let text = output::put(code, at, &[STR, s.len() as u8]);
    output::put(code, text, s)
}

// A name, by the number of its attribute.
fn write_name(
    attributes: &[u64],
    source: Source,
    name: Packed,
    code: &mut [u8],
    at: usize,
) -> Encoded
    requires { (length attributes.now ≡ 256) × (at + 2 ≤ length code.old) }
    ensures { NamePut attributes.now source name code.old at code.new result }
{
    let number = rows::attribute_number(attributes, u8::from(source), name);
    let byte = match number {
        Some(k) => k as u8,
        None => UNKNOWN,
    };
    Encoded {
        len: output::put(code, at, &[NAME, byte]),
        unknown: number.is_none(),
    }
}

// Code up to a place, with no undeclared name.
fn known(len: usize) -> Encoded
    ensures { result ≡ record { len = len; unknown = false } }
{
    Encoded {
        len,
        unknown: false,
    }
}

// The code of a token of s; none for the end.
fn write(s: &[u8], attributes: &[u64], t: Placed, code: &mut [u8], at: usize) -> Encoded
    requires { (length attributes.now ≡ 256) × Given s.now t at (length code.old) }
    ensures { Wrote s.now attributes.now t code.old at code.new result }
{
    match t.token {
        Some(Token::Name(source, name)) => write_name(attributes, source, name, code, at),
        Some(Token::Int(n)) => known(write_int(n, code, at)),
        Some(Token::Str(long)) => {
            let end = t.next - 1;
            known(write_text(&s[end - long..end], code, at))
        }
        Some(Token::Sign(kind)) => known(output::put_byte(code, at, kind)),
        None => known(at),
    }
}

// The code of a policy's tokens, and the byte that ends it, in one pass over the policy's bytes.
pub fn encode(s: &[u8], attributes: &[u64], code: &mut [u8]) -> Result<Encoded, BadToken>
    requires { (length attributes.now ≡ 256) × (3 * length s.now + 3 ≤ length code.old) }
    ensures { Encodes s.now attributes.now code.old code.new result }
{
    let mut at = 0;
    let mut len = 0;
    let mut unknown = false;
    // A token is as long as its bytes tell, so that no iterator over bytes fits.
    while at < s.len() {
        let Some(t) = token_at(s, at) else {
            return Err(BadToken { len });
        };
        let w = write(s, attributes, t, code, len);
        len = w.len;
        unknown |= w.unknown;
        at = t.next;
    }
    code[len] = END;
    Ok(Encoded {
        len: len + 1,
        unknown,
    })
}
