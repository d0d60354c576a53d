// Numbers of what a book holds, found in its sections by words.
ghost use Rattle.std.specs.Prelude.{◌≡◌, IfSome, ◌*◌, ◌<◌, ◌≤◌, length};
ghost use Rattle.model.specs.Limits.{attribute_limit, operation_limit, pair_limit};
ghost use Rattle.book.specs.Sections as section;
ghost use Rattle.book.specs.Sections.{book_holders};
ghost use Rattle.book.specs.Finding.{HolderFound, OperationFound, PairFound};

use text::{Packed, Words};

// How many operations, pairs and holders there can be.
pub const OPERATIONS: usize = 8;

pub const PAIRS: usize = 256;

pub const HOLDERS: usize = 256;

// The number of the holder of a name.
pub fn holder_number(holders: &[u64], name: Packed) -> Option<usize>
    requires { length holders.now ≡ (section.holders).size }
    ensures { IfSome result (λ k. k < book_holders) × HolderFound holders.now name result }
{
    index::find(holders, (1, name.low, name.high, 0))
}

// The number of the pair of an attribute and an atom.
pub fn pair_number(pairs: &[u64], attribute: usize, words: Words) -> Option<usize>
    requires { (length pairs.now ≡ (section.pairs).size) × (attribute ≤ attribute_limit) }
    ensures { IfSome result (λ p. p < pair_limit) × PairFound pairs.now attribute words result }
{
    let row = (attribute as u64 + 1, words.first, words.second, words.third);
    index::find(pairs, row)
}

// The number of the operation of a name.
pub fn operation_number(operations: &[u64], name: Packed) -> Option<usize>
    requires { length operations.now ≡ (section.operations).size }
    ensures { IfSome result (λ k. k < operation_limit) × OperationFound operations.now name result }
{
    (0..OPERATIONS).find(|i| text::is_packed_at(operations, 2 * *i, name))
}
