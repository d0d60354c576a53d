// Sets of numbers in words of 64 bits: number p is bit p % 64, 0 the lowest, of word p / 64. Masks and shifts test, set, clear and join them.
#![tactic(auto)]

ghost use Rattle.std.specs.Prelude.{◌≡◌, ◌||◌, ◌&&◌, not, ℕ, ◌*◌, ◌<◌, ◌≤◌, eqb, leb, length};
ghost use Rattle.model.specs.Notation.{if◌then◌otherwise◌};
ghost use Rattle.bits.specs.Bits.{bit, member, Bits, Numbers, differ, count_below};
ghost use Rattle.bits.specs.Lowest.{Lowest, FirstFrom};

use std::array;

// Whether bit i of w is set.
pub fn has(w: u64, i: usize) -> bool
    requires { i < 64 }
    ensures { result ≡ bit w i }
{
    (w >> i) & 1 == 1
}

// w with bit i set.
pub fn with(w: u64, i: usize) -> u64
    requires { i < 64 }
    ensures { Bits result (λ j. bit w j || eqb j i) }
{
    w | (1 << i)
}

// w with bit i clear.
pub fn without(w: u64, i: usize) -> u64
    requires { i < 64 }
    ensures { Bits result (λ j. bit w j && not (eqb j i)) }
{
    w & !(1 << i)
}

// w with bit i set or clear.
pub fn put(w: u64, i: usize, on: bool) -> u64
    requires { i < 64 }
    ensures { Bits result (λ j. if eqb j i then on otherwise bit w j) }
{
    if on { with(w, i) } else { without(w, i) }
}

// The lowest bit of w that is set, 64 where none is. A walk over the bits of a word takes the lowest of those that are left, and goes on without it.
pub fn lowest(w: u64) -> usize
    ensures { Lowest w result }
{
    w.trailing_zeros() as usize
}

// The bits of w from i on.
pub fn from(w: u64, i: usize) -> u64
    requires { i < 64 }
    ensures { Bits result (λ j. bit w j && leb i j) }
{
    (w >> i) << i
}

// Whether a set holds p.
#[tactic(auto, unfolding(crate::specs::Bits::member))]
pub fn contains(set: &[u64], p: usize) -> bool
    requires { p < 64 * length set.now }
    ensures { result ≡ member set.now p }
{
    has(set[p / 64], p % 64)
}

// Puts p into a set.
pub fn insert(set: &mut [u64], p: usize)
    requires { p < 64 * length set.old }
    ensures { (q : ℕ) → member set.new q ≡ (member set.old q || eqb q p) }
{
    set[p / 64] = with(set[p / 64], p % 64);
}

// Takes p out of a set.
pub fn remove(set: &mut [u64], p: usize)
    requires { p < 64 * length set.old }
    ensures { (q : ℕ) → member set.new q ≡ (member set.old q && not (eqb q p)) }
{
    set[p / 64] = without(set[p / 64], p % 64);
}

// The lowest number in the words of a set from word k on, that behind all its words where there is none.
fn first_word(set: &[u64], k: usize) -> usize
    requires { (k ≤ length set.now) × (length set.now ≤ 65536) }
    ensures { FirstFrom set.now (64 * k) result }
{
    match set[k..].iter().position(|word| *word != 0) {
        Some(i) => 64 * (k + i) + lowest(set[k + i]),
        None => 64 * set.len(),
    }
}

// The lowest number from i on that a set holds, that behind all its words where there is none.
pub fn first_from(set: &[u64], i: usize) -> usize
    requires { length set.now ≤ 65536 }
    ensures { FirstFrom set.now i result }
{
    let at = i / 64;
    if at >= set.len() {
        return 64 * set.len();
    }
    let word = from(set[at], i % 64);
    if word != 0 {
        return 64 * at + lowest(word);
    }
    first_word(set, at + 1)
}

// The numbers of either of two sets of four words.
pub fn joined(a: [u64; 4], b: &[u64]) -> [u64; 4]
    requires { length b.now ≡ 4 }
    ensures { Numbers 256 result (λ p. member a p || member b.now p) }
{
    array::from_fn(|i| a[i] | b[i])
}

// Whether two sets of four words are not the same.
pub fn differs(a: &[u64], b: &[u64]) -> bool
    requires { (length a.now ≡ 4) × (length b.now ≡ 4) }
    ensures { result ≡ differ 256 a.now b.now }
{
    a != b
}

// How many bits of w are set.
pub fn ones(w: u64) -> usize
    ensures { result ≡ count_below 64 (bit w) }
{
    w.count_ones() as usize
}

// How many numbers a set holds: the ones of its words. A set of so many words is far from any that is kept, and keeps the sum in range.
pub fn count(set: &[u64]) -> usize
    requires { length set.now ≤ 65536 }
    ensures { result ≡ count_below (64 * length set.now) (member set.now) }
{
    let mut sum: usize = 0;
    for word in set {
        sum += ones(*word);
    }
    sum
}
