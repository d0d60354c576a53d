// A load: a file read into the book, and the table of its state.
#![tactic(auto)]

ghost use Rattle.std.specs.Prelude.{◌≡◌, length};
ghost use Rattle.model.specs.Limits.{Edition, table_words};
ghost use Rattle.book.specs.Sections.{book_words};
ghost use Rattle.book.specs.Calls.{Loads};
ghost use Rattle.file.specs.LoadAnswers.{loaded_of};
ghost use Rattle.engine.specs.LoadSteps.{TableFilled};

use book::{BOOK_WORDS, OWN_AT, RULE_BYTES, RULES_AT, SLOTS_AT, TABLE_WORDS, UPS_AT};
use codes::Refusal;
use file::Refused;

// Fills the table from the book's ties.
fn fill_table(book: &[u64], table: &mut [u64])
    requires { (length book.now ≡ book_words) × (length table.old ≡ table_words Edition.first) }
    ensures { TableFilled book.now table.new }
{
    sets::fill(
        table,
        &book[OWN_AT..RULES_AT],
        &book[UPS_AT..OWN_AT],
        &book[SLOTS_AT..UPS_AT],
    );
}

// Loads a file. "Book empty, table all 0" after a refusal; on a table of another length the book is emptied, and the table keeps its words. The bytes of
// rules may stay, since the empty book counts none.
pub fn load(
    file: &[u8],
    book: &mut [u64; BOOK_WORDS],
    rules: &mut [u8; RULE_BYTES],
    table: &mut [u64],
) -> Result<u32, Refused>
    ensures { Loads file.now table.old (loaded_of result) table.new book.new rules.new }
{
    if table.len() != TABLE_WORDS {
        book::declare::clear(book);
        return Err(Refused {
            refusal: Refusal::WrongTable,
            line: 0,
        });
    }
    match file::read(book, rules, file) {
        Ok(lines) => {
            fill_table(book, table);
            Ok(lines)
        }
        Err(refused) => {
            book::declare::clear(book);
            table.fill(0);
            Err(refused)
        }
    }
}
