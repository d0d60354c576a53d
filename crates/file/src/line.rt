// One line of a file: its frame, its key behind the one before, and the step of its key.
ghost use Rattle.std.specs.Prelude.{◌≡◌, ◌≤◌, length};
ghost use Rattle.model.specs.Limits.{line_bytes};
ghost use Rattle.model.specs.Bytes.{newline};
ghost use Rattle.model.specs.Lines.{read_attr, read_op, read_pair};
ghost use Rattle.codes.specs.Enums.{number_in};
ghost use Rattle.text.specs.Parts.{FirstAt};
ghost use Rattle.book.specs.Sections.{book_words, rule_bytes};
ghost use Rattle.file.specs.LineSteps.{KeyRead, TieRead, HolderRead, FieldsOf, LineRead};

use codes::{Key, Refusal};

// CHILD,PARENT, PARTY,GROUP and HOLDER,NAME,ATOM: the tie in the book, where it is refused for nothing.
fn tie(book: &mut [u64], key: Key, f: &[u8]) -> Result<(), Refusal>
    requires { length book.old ≡ book_words }
    ensures { TieRead book.old key f.now book.new (number_in result) }
{
    let t = tielines::of_fields(book, u8::from(key), f)?;
    tielines::judge(book, t, true)?;
    tielines::change(book, t, true);
    Ok(())
}

// SRC,NAME,TYPE
fn attribute(book: &mut [u64], f: &[u8]) -> Result<(), Refusal>
    requires { length book.old ≡ book_words }
    ensures { KeyRead book.old (read_attr f.now) book.new (number_in result) }
{
    let a = fields::attr_fields(f).ok_or(Refusal::Malformed)?;
    book::declare::attribute(book, u8::from(a.source), u8::from(a.ty), a.name)
}

// The name of an operation
fn operation(book: &mut [u64], f: &[u8]) -> Result<(), Refusal>
    requires { length book.old ≡ book_words }
    ensures { KeyRead book.old (read_op f.now) book.new (number_in result) }
{
    let name = fields::name_field(f).ok_or(Refusal::Malformed)?;
    book::declare::operation(book, name)
}

// SRC.NAME,ATOM
fn pair(book: &mut [u64], f: &[u8]) -> Result<(), Refusal>
    requires { length book.old ≡ book_words }
    ensures { KeyRead book.old (read_pair f.now) book.new (number_in result) }
{
    let p = fields::pair_fields(f).ok_or(Refusal::Malformed)?;
    book::declare::pair(book, u8::from(p.source), p.name, p.atom)
}

// The name of a holder
fn holder(book: &mut [u64], key: Key, f: &[u8]) -> Result<(), Refusal>
    requires { length book.old ≡ book_words }
    ensures { HolderRead book.old key f.now book.new (number_in result) }
{
    let name = fields::name_field(f).ok_or(Refusal::Malformed)?;
    book::declare::holder(book, u8::from(key), name)
}

// The fields of a key.
fn step(book: &mut [u64], code: &mut [u8], key: Key, f: &[u8]) -> Result<(), Refusal>
    requires { (length book.old ≡ book_words) × (length code.old ≡ rule_bytes) × (length f.now ≤ line_bytes) }
    ensures { FieldsOf book.old code.old key f.now book.new code.new (number_in result) }
{
    match key {
        Key::Attr => attribute(book, f),
        Key::Op => operation(book, f),
        Key::Atom => pair(book, f),
        Key::Ugroup | Key::Ogroup | Key::User | Key::Object => holder(book, key, f),
        Key::Parent | Key::Member | Key::Value => tie(book, key, f),
        Key::Rule => crate::rule::rule(book, code, f),
    }
}

// A line of a file, given with its byte 10, which stands first at `end`, or nowhere: its key, which may not stand before that of the number `previous`, 0
// where there is none before.
pub fn read(
    book: &mut [u64],
    code: &mut [u8],
    line: &[u8],
    end: Option<usize>,
    previous: u8,
) -> Result<Key, Refusal>
    requires { (length book.old ≡ book_words) × (length code.old ≡ rule_bytes) × FirstAt newline line.now end }
    ensures { LineRead book.old code.old line.now previous book.new code.new result }
{
    let framed = fields::frame_at(line, end).ok_or(Refusal::Unframed)?;
    if u8::from(framed.key) < previous {
        return Err(Refusal::OutOfOrder);
    }
    step(book, code, framed.key, &line[framed.start..framed.end])?;
    Ok(framed.key)
}
