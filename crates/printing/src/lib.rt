// Answers as bytes, each laid over the output behind the one before.
#![tactic(auto)]

ghost use Rattle.std.specs.Prelude.{◌≡◌, ◌+◌, ◌≤◌, length};
ghost use Rattle.model.specs.Ledger as ledger;
ghost use Rattle.model.specs.Ledger.{decided};
ghost use Rattle.model.specs.Gate.{printed};
ghost use Rattle.output.specs.Laid.{Laid, far};
ghost use Rattle.file.specs.LoadAnswers.{loaded_of};
ghost use Rattle.request.specs.Decisions.{decision_of};
ghost use Rattle.edit.specs.EditSteps.{edited_of};
ghost use Rattle.printing.specs.Printing.{answer_bytes, PrintedAt, numbers_behind, number_line};

use codes::Refusal;
use file::Refused;
use request::{Cause, Decision};

// What a load answers: its number, and the line that is refused, or how many lines there are. Any numbers are printed.
#[derive(Clone, Copy)]
pub struct Loaded {
    pub number: u8,
    pub line: u32,
}

// What an edit answers: its number, "the number of holders whose stored set changed", and "the number of set joins made". Any numbers are printed.
#[derive(Clone, Copy)]
pub struct Edited {
    pub number: u8,
    pub count: u32,
    pub joins: u32,
}

impl From<Result<u32, Refused>> for Loaded {
    ghost from_gives = { λ r l. loaded_of r ≡ ledger.loaded l.number l.line };

    fn from(loaded: Result<u32, Refused>) -> Loaded {
        match loaded {
            Ok(lines) => Loaded {
                number: 0,
                line: lines,
            },
            Err(refused) => Loaded {
                number: refused.refusal as u8,
                line: refused.line,
            },
        }
    }
}

impl From<Result<edit::Edited, Refusal>> for Edited {
    ghost from_gives = { λ r e. edited_of r ≡ ledger.edited e.number e.count e.joins };

    fn from(edited: Result<edit::Edited, Refusal>) -> Edited {
        match edited {
            Ok(edited) => Edited {
                number: 0,
                count: edited.count,
                joins: edited.joins,
            },
            Err(refusal) => Edited {
                number: refusal as u8,
                count: 0,
                joins: 0,
            },
        }
    }
}

// A key and two numbers, without a line's end.
fn put_pair(out: &mut [u8], at: usize, key: &[u8], number: u32, other: u32) -> usize
    requires { (at + answer_bytes ≤ far) × (length key.now ≤ 5) }
    ensures { Laid out.old at (numbers_behind key.now number other) out.new result × (result ≤ at + 26) }
{
    let a = output::put(out, at, key);
    let b = output::put_decimal(out, a, number);
    let c = output::put_byte(out, b, b',');
    output::put_decimal(out, c, other)
}

// The answer of a load.
pub fn put_load(out: &mut [u8], at: usize, loaded: Loaded) -> usize
    requires { at + answer_bytes ≤ far }
    ensures { PrintedAt out.old at (printed (ledger.loaded loaded.number loaded.line)) out.new result }
{
    let a = put_pair(out, at, b"load=", u32::from(loaded.number), loaded.line);
    output::put_byte(out, a, b'\n')
}

// The answer of an edit.
pub fn put_edit(out: &mut [u8], at: usize, edited: Edited) -> usize
    requires { at + answer_bytes ≤ far }
    ensures { PrintedAt out.old at (printed (ledger.edited edited.number edited.count edited.joins)) out.new result }
{
    let a = put_pair(out, at, b"edit=", u32::from(edited.number), edited.count);
    let b = output::put_byte(out, a, b',');
    let c = output::put_decimal(out, b, edited.joins);
    output::put_byte(out, c, b'\n')
}

// A text and one number.
fn put_number(out: &mut [u8], at: usize, text: &[u8], n: u32) -> usize
    requires { (at + answer_bytes ≤ far) × (length text.now ≤ 20) }
    ensures { PrintedAt out.old at (number_line text.now n) out.new result }
{
    let a = output::put(out, at, text);
    let b = output::put_decimal(out, a, n);
    output::put_byte(out, b, b'\n')
}

// The answer of a request.
pub fn put_decision(out: &mut [u8], at: usize, decision: Decision) -> usize
    requires { at + answer_bytes ≤ far }
    ensures { PrintedAt out.old at (printed (decided (decision_of decision))) out.new result }
{
    match decision {
        Decision::Permit(rule) => put_number(out, at, b"try=permit,", u32::from(rule)),
        Decision::Deny => output::put(out, at, b"try=deny\n"),
        Decision::Undefined(Cause::Absent) => output::put(out, at, b"try=undefined,absent\n"),
        Decision::Undefined(Cause::Unlike) => output::put(out, at, b"try=undefined,unlike\n"),
        Decision::Refused(number) => put_number(out, at, b"try=refused,", u32::from(number)),
    }
}
