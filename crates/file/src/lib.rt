// A file, read as its lines one after another.
#![tactic(auto)]

ghost use Rattle.std.specs.Prelude.{◌≡◌, not, ◌≤◌, length};
ghost use Rattle.model.specs.Limits.{file_bytes};
ghost use Rattle.model.specs.Refusals.{wrong_first_line};
ghost use Rattle.model.specs.Load.{load};
ghost use Rattle.book.specs.Sections.{book_words, rule_bytes};
ghost use Rattle.file.specs.LineSteps.{FirstLine, OthersRead, LoadedAs};

use codes::Refusal;

pub mod line;
pub mod rule;

const FILE_BYTES: usize = 32768;

// How many bytes the first line has.
const FIRST: usize = 9;

// What a file is refused for, and the number of its refused line.
#[derive(Clone, Copy)]
pub struct Refused {
    pub refusal: Refusal,
    pub line: u32,
}

// Whether the first line, with its byte 10, is `rights=1`.
fn begins(file: &[u8]) -> bool
    ensures { result ≡ not (wrong_first_line file.now) }
{
    file.starts_with(b"rights=1\n")
}

// The first line, with the place of its byte 10, where it has one, and what stands behind it.
#[inline]
fn first_line(s: &[u8]) -> (&[u8], Option<usize>, &[u8])
    ensures { FirstLine s.now result.0.now result.1 result.2.now }
{
    match text::index_of(s, b'\n') {
        Some(e) => (&s[..e + 1], Some(e), &s[e + 1..]),
        None => (s, None, &[]),
    }
}

// The lines behind the first, until one is refused.
fn others(book: &mut [u64], code: &mut [u8], rest: &[u8]) -> Result<u32, Refused>
    requires { (length book.old ≡ book_words) × (length code.old ≡ rule_bytes) × (length rest.now ≤ file_bytes) }
    ensures { OthersRead book.old code.old rest.now book.new code.new result }
{
    let mut left = rest;
    let mut lines: u32 = 1;
    let mut previous: u8 = 0;
    // An iterator over lines would not say where byte 10 stands, and the frame would look for it again.
    while !left.is_empty() {
        let (line, end, behind) = first_line(left);
        lines += 1;
        match crate::line::read(book, code, line, end, previous) {
            Ok(key) => previous = u8::from(key),
            Err(refusal) => {
                return Err(Refused {
                    refusal,
                    line: lines,
                });
            }
        }
        left = behind;
    }
    Ok(lines)
}

// The book of a file, and how many lines the file has. After a refusal there may be anything in the book.
pub fn read(book: &mut [u64], code: &mut [u8], file: &[u8]) -> Result<u32, Refused>
    requires { (length book.old ≡ book_words) × (length code.old ≡ rule_bytes) }
    ensures { LoadedAs (load file.now) book.new code.new result }
{
    if file.len() > FILE_BYTES {
        return Err(Refused {
            refusal: Refusal::TooLong,
            line: 0,
        });
    }
    if !begins(file) {
        return Err(Refused {
            refusal: Refusal::WrongFirstLine,
            line: 1,
        });
    }
    book::declare::clear(book);
    others(book, code, &file[FIRST..])
}
