// Texts laid over a buffer from a place on. Each function answers the place behind its text. What lies behind the buffer's end is counted and not
// written, so no room is asked for: over a buffer of 0 bytes the place is the length.
#![tactic(auto)]

ghost use Rattle.std.specs.Prelude.{◌≡◌, [], ◌∷◌, ◌+◌, ◌<◌, ◌≤◌, length};
ghost use Rattle.model.specs.Atoms.{decimal};
ghost use Rattle.output.specs.Laid.{far, Laid, word_text, most_digits, Digits};

// The digits of the largest number.
const DIGITS: usize = 10;
// The most bytes of a packed word.
const WORD: usize = 8;

pub fn put_byte(out: &mut [u8], at: usize, byte: u8) -> usize
    requires { at < far }
    ensures { Laid out.old at (byte ∷ []) out.new result }
{
    if at < out.len() {
        out[at] = byte;
    }
    at + 1
}

// Bytes as they stand.
pub fn put(out: &mut [u8], at: usize, text: &[u8]) -> usize
    requires { at + length text.now ≤ far }
    ensures { Laid out.old at text.now out.new result }
{
    let end = at + text.len();
    if out.len() <= at {
        return end;
    }
    let fitting = text.len().min(out.len() - at);
    out[at..at + fitting].copy_from_slice(&text[..fitting]);
    end
}

// How many bytes a packed word has: those up to the last that is not 0.
fn width(word: u64) -> usize
    ensures { (result ≡ length (word_text 8 word)) × (result ≤ 8) }
{
    8 - word.leading_zeros() as usize / 8
}

// The bytes of a packed word where eight have room: all eight are written, those behind the word as they stand, so that no jump depends on its length.
fn put_eight(out: &mut [u8], at: usize, word: u64) -> usize
    requires { (at + 8 ≤ length out.old) × (at + 8 ≤ far) }
    ensures { Laid out.old at (word_text 8 word) out.new result × (result ≤ at + 8) }
{
    let n = width(word);
    let mut left = word;
    for i in 0..WORD {
        let byte = (left % 256) as u8;
        out[at + i] = if i < n { byte } else { out[at + i] };
        left /= 256;
    }
    at + n
}

// The bytes of a packed word, low byte first, up to the last that is not 0. Behind the buffer's end they are only counted.
pub fn put_word(out: &mut [u8], at: usize, word: u64) -> usize
    requires { at + 8 ≤ far }
    ensures { Laid out.old at (word_text 8 word) out.new result × (result ≤ at + 8) }
{
    if out.len() <= at {
        return at + width(word);
    }
    if at + WORD <= out.len() {
        return put_eight(out, at, word);
    }
    put(out, at, &word.to_le_bytes()[..width(word)])
}

// The digits of a number at the end of an array; answers where they begin. The walk goes by the number, which alone tells how many places it takes.
fn fill(digits: &mut [u8; DIGITS], n: u32) -> usize
    requires { length digits.old ≡ most_digits }
    ensures { Digits n digits.new result }
{
    let mut m = n;
    let mut i = DIGITS - 1;
    while 10 <= m {
        digits[i] = b'0' + (m % 10) as u8;
        m /= 10;
        i -= 1;
    }
    digits[i] = b'0' + m as u8;
    i
}

// A number without leading zeros.
pub fn put_decimal(out: &mut [u8], at: usize, n: u32) -> usize
    requires { at + most_digits ≤ far }
    ensures { Laid out.old at (decimal n) out.new result × (result ≤ at + most_digits) }
{
    let mut digits = [0; DIGITS];
    let start = fill(&mut digits, n);
    put(out, at, &digits[start..])
}
