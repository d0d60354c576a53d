// The file as it stands now: the text of the state that a book holds, put into a lent buffer. Length and writing are one walk: over a buffer of 0 bytes it
// tells the length, so that a refusal is known before a byte is written.
#![tactic(auto)]

ghost use Rattle.std.specs.Prelude.{◌≤◌, length};
ghost use Rattle.codes.specs.Enums.{number_in};
ghost use Rattle.output.specs.Laid.{Laid};
ghost use Rattle.writer.specs.Texts.{ties_text, book_text};
ghost use Rattle.spelling.specs.LineTexts.{declared_text, holders_text};
ghost use Rattle.writer.specs.WriteCalls.{length_in, WriteCall, LengthCall};

use book::{BOOK_WORDS, RULE_BYTES};
use codes::{Key, Refusal};

pub mod tie;

// The longest file.
const FILE_BYTES: usize = 32768;

// The lines of declarations before the holders.
fn put_declared(out: &mut [u8], at: usize, book: &[u64]) -> usize
    requires { at ≤ 9 }
    ensures { Laid out.old at (declared_text book.now) out.new result × (result ≤ 18700) }
{
    let a = spelling::line::put_attributes(out, at, book);
    let b = spelling::line::put_operations(out, a, book);
    spelling::line::put_pairs(out, b, book)
}

// The lines of holders, key by key.
fn put_holders(out: &mut [u8], at: usize, book: &[u64]) -> usize
    requires { at ≤ 18700 }
    ensures { Laid out.old at (holders_text book.now) out.new result × (result ≤ 51500) }
{
    let a = spelling::line::put_holders(out, at, book, Key::Ugroup as u8);
    let b = spelling::line::put_holders(out, a, book, Key::Ogroup as u8);
    let c = spelling::line::put_holders(out, b, book, Key::User as u8);
    spelling::line::put_holders(out, c, book, Key::Object as u8)
}

// The lines of ties, key by key.
fn put_ties(out: &mut [u8], at: usize, book: &[u64; BOOK_WORDS]) -> usize
    requires { at ≤ 51500 }
    ensures { Laid out.old at (ties_text book.now) out.new result × (result ≤ 14731564) }
{
    let a = tie::put_key_ups(out, at, book, Key::Parent as u8);
    let b = tie::put_key_ups(out, a, book, Key::Member as u8);
    tie::put_values(out, b, book)
}

// The text of a book, and how long it is.
fn put_text(out: &mut [u8], book: &[u64; BOOK_WORDS], rules: &[u8; RULE_BYTES]) -> usize
    ensures { Laid out.old 0 (book_text book.now rules.now) out.new result × (result ≤ 15782188) }
{
    let a = output::put(out, 0, b"rights=1\n");
    let b = put_declared(out, a, book);
    let c = put_holders(out, b, book);
    let d = put_ties(out, c, book);
    spelling::rule::put_rules(out, d, book, rules)
}

// "A call gives the exact byte length that the writer of E1 would put out, …, also when it exceeds 32,768, writing nothing": the text is laid over no bytes.
pub fn length(book: &[u64; BOOK_WORDS], rules: &[u8; RULE_BYTES]) -> usize
    ensures { LengthCall book.now rules.now result × (result ≤ 15782188) }
{
    let mut none: [u8; 0] = [0; 0];
    put_text(&mut none, book, rules)
}

// "A writer puts out the present one into a lent buffer and answers 0 and its length (18 and 0 if refused)": the length, or the one refusal there is.
pub fn write(
    book: &[u64; BOOK_WORDS],
    rules: &[u8; RULE_BYTES],
    buffer: &mut [u8],
) -> Result<usize, Refusal>
    ensures { WriteCall book.now rules.now buffer.old (number_in result) (length_in result) buffer.new × (length_in result ≤ 32768) }
{
    let length = length(book, rules);
    if buffer.len() < length || FILE_BYTES < length {
        return Err(Refusal::DoesNotFit);
    }
    put_text(buffer, book, rules);
    Ok(length)
}
