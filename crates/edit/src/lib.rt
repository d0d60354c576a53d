// Edits: one tie more or one less in the book, and the table kept.
#![tactic(auto)]

ghost use Rattle.std.specs.Prelude.{◌≡◌, length};
ghost use Rattle.model.specs.Limits.{Edition, table_words};
ghost use Rattle.book.specs.Sections.{book_words};
ghost use Rattle.tielines.specs.TieReading.{tie_of};
ghost use Rattle.edit.specs.EditSteps.{LineTie, TableKept, Applied, Bounded, edited_of, EditCall};

use book::find::HOLDERS;
use book::{
    BOOK_WORDS, GROUP_COUNT, HOLDER_COUNT, OWN_AT, SLOT_OF_AT, SLOTS_AT, TABLE_WORDS, UPS_AT,
};
use codes::{Key, Refusal};
use fields::Sign;
use sets::Tally;
use tielines::Tie;

// How many groups a book has room for.
const GROUPS: usize = 64;

// What an edit that is not refused answers beside 0: "the number of holders whose stored set changed", and "the number of set joins made".
#[derive(Clone, Copy)]
pub struct Edited {
    pub count: u32,
    pub joins: u32,
}

// The tie of a whole line, as it stands behind the sign.
fn tie_of_line(line: &[u8], book: &[u64]) -> Result<Tie, Refusal>
    requires { length book.now ≡ book_words }
    ensures { LineTie book.now line.now result }
{
    let frame = fields::frame(line).ok_or(Refusal::Unframed)?;
    match frame.key {
        Key::Parent | Key::Member | Key::Value => {
            tielines::of_fields(book, u8::from(frame.key), &line[frame.start..frame.end])
        }
        _ => Err(Refusal::OtherKey),
    }
}

// The table refreshed after an edit of holder `edited`, by the book's sections of ties. Only as many words are lent as there are holders and groups, so that
// no walk goes further; on words that no load left the counts may be any numbers.
fn refresh(table: &mut [u64], book: &[u64], edited: usize) -> Tally
    requires { (length book.now ≡ book_words) × (length table.old ≡ table_words Edition.first) }
    ensures { TableKept book.now edited table.old table.new result.changed result.joins }
{
    let holders = HOLDERS.min(book[HOLDER_COUNT] as usize);
    let groups = GROUPS.min(book[GROUP_COUNT] as usize);
    let words = 4 * holders;
    sets::refresh(
        &mut table[..words],
        &book[OWN_AT..OWN_AT + words],
        &book[UPS_AT..UPS_AT + holders],
        &book[SLOTS_AT..SLOTS_AT + groups],
        &book[SLOT_OF_AT..SLOTS_AT],
        edited,
    )
}

// An edit that is not refused: the tie more or less, and the table refreshed.
fn apply(book: &mut [u64], table: &mut [u64], plus: bool, t: Tie) -> Tally
    requires { (length book.old ≡ book_words) × (length table.old ≡ table_words Edition.first) }
    ensures { Applied plus (tie_of t) book.old book.new table.old table.new result.changed result.joins × Bounded result.changed result.joins }
{
    tielines::change(book, t, plus);
    refresh(table, book, t.edited())
}

// An edit: its line with the sign, on the book and the table that go together.
pub fn edit(line: &[u8], book: &mut [u64; BOOK_WORDS], table: &mut [u64]) -> Result<Edited, Refusal>
    ensures { EditCall line.now book.old table.old (edited_of result) table.new book.new }
{
    if table.len() != TABLE_WORDS {
        return Err(Refusal::WrongTable);
    }
    let sign = fields::sign_of(line).ok_or(Refusal::Unframed)?;
    let plus = sign == Sign::Plus;
    let t = tie_of_line(&line[1..], book)?;
    tielines::judge(book, t, plus)?;
    let done = apply(book, table, plus, t);
    Ok(Edited {
        count: done.changed as u32,
        joins: done.joins as u32,
    })
}
