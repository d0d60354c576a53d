// The numbers that stand for what the specification has as constructors: one table, which every crate cites. What is of few kinds is an enum, whose
// variants have these numbers where words or bytes keep them; specs/Enums.antt says which constructor each variant stands for. The kinds of tokens are
// bytes of rule code, and stand here as bytes; specs/Codes.antt gives each constructor its number, and 0 stands for none.
#![tactic(auto)]

ghost use Rattle.std.specs.Prelude.{◌≡◌};
ghost use Rattle.codes.specs.Enums.{source_number, type_number, key_number, refusal_number};

// Sources.
#[derive(Clone, Copy, PartialEq, Eq)]
pub enum Source {
    User = 1,
    Object,
    Admin,
    Env,
    Connect,
}

// Types of atoms.
#[derive(Clone, Copy, PartialEq, Eq)]
pub enum AtomType {
    Int = 1,
    Str,
    Bool,
}

// Keys of lines, in their order.
#[derive(Clone, Copy, PartialEq, Eq, PartialOrd, Ord)]
pub enum Key {
    Attr = 1,
    Op,
    Atom,
    Ugroup,
    Ogroup,
    User,
    Object,
    Parent,
    Member,
    Value,
    Rule,
}

// Refusals, in the words of document 01; specs of `model`, Numbers.antt, has them by the same names.
#[derive(Clone, Copy, PartialEq, Eq)]
pub enum Refusal {
    // "table not 1,024 words, any call"
    WrongTable = 1,
    // "over 32,768 bytes"
    TooLong = 2,
    // "first line, with its byte 10, wrong or missing (line 1)"
    WrongFirstLine = 3,
    // "line too long, no byte 10 or bytes after it, no `=`, unknown key (a later `rights` too), edit sign missing"
    Unframed = 4,
    // "key before its predecessor's (file only)"
    OutOfOrder = 5,
    // "field count, SRC, TYPE, name, atom or policy malformed, the policy judged without the limits of 7; `{}` and sets of two types are 6"
    Malformed = 6,
    // "more than 16 terms, depth over 8 or a set over 8"
    OverLimits = 7,
    // "undeclared name or pair (for value: no such pair of the attribute source that the holder's sort fixes)"
    Undeclared = 8,
    // "parent or member of the wrong sort, env or connect str, atom of env or connect or of the wrong type"
    WrongSort = 9,
    // "already declared or standing"
    Repeated = 10,
    // "table of that key full (file only)"
    Full = 11,
    // "parent tie that closes a circle, itself included"
    Circular = 12,
    // "another known key; comes after 4, before the rest"
    OtherKey = 13,
    // "`-` of a tie not standing"
    NotStanding = 14,
    // "byte 0, 8, 9 or length wrong"
    BadBlock = 15,
    // "unknown or wrong-sort number, entry not env or connect, bool above 1"
    WrongNumber = 16,
    // "activated bit that is no user attribute held by that user"
    NotHeld = 17,
    // "the text is longer than the buffer or than 32,768 bytes"
    DoesNotFit = 18,
}

// Kinds of tokens, and the end of them. An int and a str are tokens of their types' numbers. They are bytes: rule code is the host's memory, and what
// is promised of a run over it holds of any bytes.
pub const END: u8 = 0;

pub const INT: u8 = 1;

pub const STR: u8 = 2;

pub const NAME: u8 = 4;

pub const LPAREN: u8 = 5;

pub const RPAREN: u8 = 6;

pub const LBRACE: u8 = 7;

pub const RBRACE: u8 = 8;

pub const COMMA: u8 = 9;

pub const AND: u8 = 10;

pub const OR: u8 = 11;

pub const NOT: u8 = 12;

pub const FALSE: u8 = 13;

pub const UNDEF: u8 = 14;

pub const TRUE: u8 = 15;

pub const EQUAL: u8 = 16;

pub const IN: u8 = 17;

pub const UNEQUAL: u8 = 18;

pub const SUBSET: u8 = 19;

pub const LESS: u8 = 20;

pub const AT_MOST: u8 = 21;

pub const GREATER: u8 = 22;

pub const AT_LEAST: u8 = 23;

// Answers to a request that is not refused, as hosts in C get them.
pub const PERMIT: u8 = 0;

pub const DENY: u8 = 64;

pub const UNDEFINED: u8 = 65;

// The causes of undefined.
pub const ABSENT: u8 = 1;

pub const UNLIKE: u8 = 2;

impl From<Source> for u64 {
    ghost from_gives = { λ s n. n ≡ source_number s };

    fn from(source: Source) -> u64 {
        source as u64
    }
}

impl From<Source> for u8 {
    ghost from_gives = { λ s n. n ≡ source_number s };

    fn from(source: Source) -> u8 {
        source as u8
    }
}

impl From<AtomType> for u64 {
    ghost from_gives = { λ t n. n ≡ type_number t };

    fn from(ty: AtomType) -> u64 {
        ty as u64
    }
}

impl From<AtomType> for u8 {
    ghost from_gives = { λ t n. n ≡ type_number t };

    fn from(ty: AtomType) -> u8 {
        ty as u8
    }
}

impl From<Key> for u64 {
    ghost from_gives = { λ k n. n ≡ key_number k };

    fn from(key: Key) -> u64 {
        key as u64
    }
}

impl From<Key> for u8 {
    ghost from_gives = { λ k n. n ≡ key_number k };

    fn from(key: Key) -> u8 {
        key as u8
    }
}

impl From<Refusal> for u32 {
    ghost from_gives = { λ r n. n ≡ refusal_number r };

    fn from(refusal: Refusal) -> u32 {
        refusal as u32
    }
}
