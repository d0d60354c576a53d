// Tie lines, of files and of edits: the tie that the fields give, what it is refused for, and one tie more or less in a book.
#![tactic(auto)]

ghost use Rattle.std.specs.Prelude.{◌≡◌, ◌<◌, IfOk, IfSome, length};
ghost use Rattle.model.specs.Limits.{group_limit};
ghost use Rattle.model.specs.Ties.{edited_holder};
ghost use Rattle.codes.specs.Enums.{number_in};
ghost use Rattle.book.specs.Sections.{book_words, book_holders};
ghost use Rattle.tielines.specs.TieReading.{tie_of, HolderNamed, SortAbove, TwoNamed, SourceOfSort, PairNamed, ValueNamed, KeyTie};
ghost use Rattle.tielines.specs.TieSteps.{SlotFound, UpStands, ValueStands, TieStands, TieCloses, TieJudged, UpChanged, ValueChanged, TieChanged};

use book::find::{HOLDERS, PAIRS};
use book::{
    ATTRIBUTES_AT, HOLDERS_AT, OPERATIONS_AT, OWN_AT, PAIRS_AT, RULES_AT, SLOT_OF_AT, SLOTS_AT,
    SORTS_AT, UPS_AT,
};
use codes::{Key, Refusal, Source};
use fields::{TwoFields, ValueFields};
use text::{Packed, Value};

// How many slots there are.
const SLOTS: u64 = 64;

// The keys that are told apart.
const PARENT: u8 = Key::Parent as u8;

const VALUE: u8 = Key::Value as u8;

// The sorts in words of the book: a holder's sort has the number of the key that declares it, and admin, which none declares, its own.
const ADMIN_SORT: u64 = book::declare::ADMIN_SORT as u64;

const UGROUP_SORT: u64 = Key::Ugroup as u64;

const OGROUP_SORT: u64 = Key::Ogroup as u64;

const USER_SORT: u64 = Key::User as u64;

const OBJECT_SORT: u64 = Key::Object as u64;

// The tie that a line gives, by the number of the edited holder and that of the group or of the pair.
#[derive(Clone, Copy)]
pub enum Tie {
    Parent { child: usize, group: usize },
    Member { party: usize, group: usize },
    Value { holder: usize, pair: usize },
}

impl Tie {
    // The edited holder.
    pub fn edited(self) -> usize
        ensures { result ≡ edited_holder (tie_of self) }
    {
        match self {
            Tie::Parent { child, .. } => child,
            Tie::Member { party, .. } => party,
            Tie::Value { holder, .. } => holder,
        }
    }
}

// The sort that stands above one in a tie of that key.
fn above(key: u8, sort: u64) -> Option<u64>
    ensures { SortAbove key sort result }
{
    if key == PARENT {
        return if sort == UGROUP_SORT || sort == OGROUP_SORT {
            Some(sort)
        } else {
            None
        };
    }
    match sort {
        USER_SORT => Some(UGROUP_SORT),
        OBJECT_SORT => Some(OGROUP_SORT),
        _ => None,
    }
}

// The number of the declared holder of a name.
fn holder(book: &[u64], name: Packed) -> Result<usize, Refusal>
    requires { length book.now ≡ book_words }
    ensures number { HolderNamed book.now name result }
    ensures few { IfOk result (λ k. k < book_holders) }
{
    book::find::holder_number(&book[HOLDERS_AT..SORTS_AT], name).ok_or(Refusal::Undeclared)
}

// The tie of a parent or member line with these names.
fn two(book: &[u64], key: u8, names: TwoFields) -> Result<Tie, Refusal>
    requires { length book.now ≡ book_words }
    ensures { TwoNamed book.now key names.lower names.upper result }
{
    let lower = holder(book, names.lower)?;
    let group = holder(book, names.upper)?;
    if above(key, book[SORTS_AT + lower]) != Some(book[SORTS_AT + group]) {
        return Err(Refusal::WrongSort);
    }
    Ok(if key == PARENT {
        Tie::Parent {
            child: lower,
            group,
        }
    } else {
        Tie::Member {
            party: lower,
            group,
        }
    })
}

// The source of the attributes whose values a holder of that sort has.
fn source_for(sort: u64) -> Source
    ensures { SourceOfSort sort result }
{
    match sort {
        ADMIN_SORT => Source::Admin,
        UGROUP_SORT | USER_SORT => Source::User,
        _ => Source::Object,
    }
}

// The number of the pair of an attribute, by its source and name, and an atom.
fn pair_of(book: &[u64], source: Source, name: Packed, atom: Value) -> Option<usize>
    requires { length book.now ≡ book_words }
    ensures { PairNamed book.now source name atom result }
{
    let k = rows::attribute_number(&book[ATTRIBUTES_AT..OPERATIONS_AT], u8::from(source), name)?;
    if book[ATTRIBUTES_AT + 8 * k + 1] != u64::from(atom.ty) {
        return None;
    }
    book::find::pair_number(&book[PAIRS_AT..HOLDERS_AT], k, atom.words)
}

// The tie of a value line with these names and this atom.
fn value(book: &[u64], named: ValueFields) -> Result<Tie, Refusal>
    requires { length book.now ≡ book_words }
    ensures { ValueNamed book.now named.holder named.name named.atom result }
{
    let holder = holder(book, named.holder)?;
    let source = source_for(book[SORTS_AT + holder]);
    let pair = pair_of(book, source, named.name, named.atom).ok_or(Refusal::Undeclared)?;
    Ok(Tie::Value { holder, pair })
}

// The tie of a parent, member or value line, from its key and its fields.
pub fn of_fields(book: &[u64], key: u8, f: &[u8]) -> Result<Tie, Refusal>
    requires { length book.now ≡ book_words }
    ensures { KeyTie book.now key f.now result }
{
    if key == VALUE {
        value(book, fields::value_fields(f).ok_or(Refusal::Malformed)?)
    } else {
        two(book, key, fields::two_fields(f).ok_or(Refusal::Malformed)?)
    }
}

// The slot of the group of number g: a group's word is 1 + its slot, that of any other holder 0.
fn slot_of(book: &[u64], g: usize) -> Option<usize>
    requires { length book.now ≡ book_words }
    ensures found { SlotFound book.now g result }
    ensures few { IfSome result (λ q. q < group_limit) }
{
    let slot = book[SLOT_OF_AT..SLOTS_AT].get(g)?.checked_sub(1)?;
    if slot < SLOTS {
        Some(slot as usize)
    } else {
        None
    }
}

// Whether holder h has a tie up to the group of number g.
fn stands_up(book: &[u64], h: usize, g: usize) -> bool
    requires { length book.now ≡ book_words }
    ensures { UpStands h g book.now result }
{
    let Some(q) = slot_of(book, g) else {
        return false;
    };
    h < HOLDERS && bits::has(book[UPS_AT + h], q)
}

// Whether holder h has the pair p.
fn stands_value(book: &[u64], h: usize, p: usize) -> bool
    requires { length book.now ≡ book_words }
    ensures { ValueStands h p book.now result }
{
    h < HOLDERS && p < PAIRS && bits::contains(&book[OWN_AT..RULES_AT], PAIRS * h + p)
}

// Whether a tie that fits the declarations stands.
fn stands(book: &[u64], t: Tie) -> bool
    requires { length book.now ≡ book_words }
    ensures { TieStands book.now (tie_of t) result }
{
    match t {
        Tie::Parent { child: h, group } | Tie::Member { party: h, group } => {
            stands_up(book, h, group)
        }
        Tie::Value { holder, pair } => stands_value(book, holder, pair),
    }
}

// Whether a tie closes a circle: none but a parent tie does.
fn closes(book: &[u64], t: Tie) -> bool
    requires { length book.now ≡ book_words }
    ensures { TieCloses book.now (tie_of t) result }
{
    let Tie::Parent { child, group } = t else {
        return false;
    };
    ties::closes_circle(&book[UPS_AT..OWN_AT], &book[SLOTS_AT..UPS_AT], child, group)
}

// What a tie is refused for, behind `+` or `-`. A line of a file adds its tie, as behind `+`.
#[inline]
pub fn judge(book: &[u64], t: Tie, plus: bool) -> Result<(), Refusal>
    requires { length book.now ≡ book_words }
    ensures { TieJudged book.now (tie_of t) plus (number_in result) }
{
    let standing = stands(book, t);
    if !plus {
        return if standing {
            Ok(())
        } else {
            Err(Refusal::NotStanding)
        };
    }
    if standing {
        Err(Refusal::Repeated)
    } else if closes(book, t) {
        Err(Refusal::Circular)
    } else {
        Ok(())
    }
}

// Holder h gets or loses a tie up to the group of number g.
fn change_up(book: &mut [u64], h: usize, g: usize, plus: bool)
    requires { length book.old ≡ book_words }
    ensures { UpChanged h g plus book.old book.new }
{
    let Some(q) = slot_of(book, g) else {
        return;
    };
    if h < HOLDERS {
        ties::change_up(&mut book[UPS_AT..OWN_AT], h, q, plus);
    }
}

// Holder h gets or loses the pair p.
fn change_value(book: &mut [u64], h: usize, p: usize, plus: bool)
    requires { length book.old ≡ book_words }
    ensures { ValueChanged h p plus book.old book.new }
{
    if h < HOLDERS && p < PAIRS {
        ties::change_value(&mut book[OWN_AT..RULES_AT], h, p, plus);
    }
}

// One tie more or one less.
pub fn change(book: &mut [u64], t: Tie, plus: bool)
    requires { length book.old ≡ book_words }
    ensures { TieChanged (tie_of t) plus book.old book.new }
{
    match t {
        Tie::Parent { child: h, group } | Tie::Member { party: h, group } => {
            change_up(book, h, group, plus)
        }
        Tie::Value { holder, pair } => change_value(book, holder, pair, plus),
    }
}
