// The book: the words that hold a state's declarations and ties. Its sections lie one after another; specs/Sections.antt says what they are.
#![tactic(auto)]

pub mod declare;
pub mod find;

// How many words a table has.
pub const TABLE_WORDS: usize = 1024;

// How many words a book has, and how many bytes its rules have: the code of each, then the rows of each.
pub const BOOK_WORDS: usize = 5240;

pub const RULE_BYTES: usize = 32768;

// How many bytes the code of one rule has, where the rows begin, and how many bytes those of one rule have.
pub const CODE_BYTES: usize = 768;

pub const ROWS_AT: usize = 24576;

pub const ROWS_BYTES: usize = 256;

// Where sections begin; each ends where the next begins, the last with the book.
pub const ATTRIBUTES_AT: usize = 8;

pub const OPERATIONS_AT: usize = 264;

pub const PAIRS_AT: usize = 280;

// The rows of pairs, behind the chains of their index.
pub const PAIR_ROWS_AT: usize = 792;

pub const HOLDERS_AT: usize = 1816;

pub const SORTS_AT: usize = 3352;

pub const SLOT_OF_AT: usize = 3608;

pub const SLOTS_AT: usize = 3864;

pub const UPS_AT: usize = 3928;

pub const OWN_AT: usize = 4184;

pub const RULES_AT: usize = 5208;

// The counts, in the first section.
pub const ATTRIBUTE_COUNT: usize = 0;

pub const OPERATION_COUNT: usize = 1;

pub const PAIR_COUNT: usize = 2;

pub const HOLDER_COUNT: usize = 3;

pub const GROUP_COUNT: usize = 4;

pub const RULE_COUNT: usize = 5;
