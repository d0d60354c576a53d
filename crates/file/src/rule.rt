// A rule more in the book, read from the fields of its line.
ghost use Rattle.std.specs.Prelude.{◌≡◌, ◌<◌, ◌≤◌, length};
ghost use Rattle.model.specs.Limits.{line_bytes, rule_limit};
ghost use Rattle.model.specs.Lines.{read_rule};
ghost use Rattle.codes.specs.Enums.{number_in};
ghost use Rattle.book.specs.Sections as section;
ghost use Rattle.book.specs.Sections.{book_words, rule_bytes};
ghost use Rattle.file.specs.LineSteps.{FieldsRead, RuleJudged, RuleCompiled, rule_put};

use book::{
    ATTRIBUTES_AT, CODE_BYTES, OPERATIONS_AT, PAIRS_AT, ROWS_AT, ROWS_BYTES, RULE_COUNT, RULES_AT,
};
use codes::Refusal;

// How many rules there can be.
const RULES: usize = 32;

// Judges the policy of rule k into its bytes; where there can be no more rules, into bytes that nobody keeps.
fn judge(s: &[u8], attributes: &[u64], code: &mut [u8], k: usize) -> Result<(), Refusal>
    requires { (length s.now ≤ line_bytes) × (length attributes.now ≡ (section.attributes).size) × (length code.old ≡ rule_bytes) }
    ensures { RuleJudged s.now attributes.now k code.old code.new (number_in result) }
{
    if k >= RULES {
        let mut unkept = [0u8; CODE_BYTES];
        return policy::judge(s, attributes, &mut unkept);
    }
    let start = CODE_BYTES * k;
    let end = start + CODE_BYTES;
    policy::judge(s, attributes, &mut code[start..end])
}

// The rows of rule k's terms, made of its code.
fn put_rows(attributes: &[u64], code: &mut [u8], k: usize)
    requires { (length attributes.now ≡ (section.attributes).size) × (length code.old ≡ rule_bytes) × (k < rule_limit) }
    ensures { RuleCompiled attributes.now k code.old code.new }
{
    let mut rows = [0u8; ROWS_BYTES];
    let start = CODE_BYTES * k;
    let end = start + CODE_BYTES;
    compile::compile(&code[start..end], attributes, &mut rows);
    output::put(code, ROWS_AT + ROWS_BYTES * k, &rows);
}

// Writes the operation of rule k, and counts it.
fn put(book: &mut [u64], k: usize, operation: usize)
    requires { (length book.old ≡ book_words) × (k < rule_limit) }
    ensures { book.new ≡ rule_put book.old k operation }
{
    book[RULES_AT + k] = operation as u64;
    book[RULE_COUNT] = k as u64 + 1;
}

// The step of a line `rule`: refused for 6, 7, 8 or 11. A policy alone is refused for 6, 7 or 8, each of which comes before or is the number of an
// undeclared operation: so it is judged first.
pub fn rule(book: &mut [u64], code: &mut [u8], f: &[u8]) -> Result<(), Refusal>
    requires { (length book.old ≡ book_words) × (length code.old ≡ rule_bytes) × (length f.now ≤ line_bytes) }
    ensures { FieldsRead book.old code.old (read_rule f.now) book.new code.new (number_in result) }
{
    let parts = fields::rule_fields(f).ok_or(Refusal::Malformed)?;
    let k = book[RULE_COUNT] as usize;
    let start = parts.start;
    judge(&f[start..], &book[ATTRIBUTES_AT..OPERATIONS_AT], code, k)?;
    let operation = book::find::operation_number(
        &book[OPERATIONS_AT..PAIRS_AT],
        parts.operation,
    ).ok_or(Refusal::Undeclared)?;
    if k >= RULES {
        return Err(Refusal::Full);
    }
    put_rows(&book[ATTRIBUTES_AT..OPERATIONS_AT], code, k);
    put(book, k, operation);
    Ok(())
}
