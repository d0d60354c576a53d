// Rows of four words that are found by their words in a few steps. Rows with the same hash form a chain, from the greatest number down:
// `first` has the greatest number of each chain, `next` for each row the greatest below it in its chain, as 1 + the number, 0 for none.
// A section has the 256 words of `first`, then `next`, then the rows; its length tells how many rows it has.
#![tactic(auto)]

ghost use Rattle.std.specs.Prelude.{◌≡◌, ◌+◌, ◌<◌, ◌≤◌, IfSome, length};
ghost use Rattle.index.specs.Index.{chains, rows_in, hash_of, is_at, link_of, FindsRow, put_row, LinkFound, Added, Removed};

// The four words of a row.
pub type Row = (u64, u64, u64, u64);

const CHAINS: usize = 256;

// The chain of a row. Remainders spread names that differ in a digit, and small numbers; nothing wraps.
#[tactic(auto, unfolding(crate::specs::Index::hash_of))]
fn hash(row: Row) -> usize
    ensures { (result ≡ hash_of row) × (result < chains) }
{
    let sum = 31 * (row.0 % 256) + row.1 % 233 + 5 * (row.2 % 241) + 7 * (row.3 % 239);
    sum as usize % CHAINS
}

// How many rows a section of so many words has.
fn rows_in(words: usize) -> usize
    requires { chains ≤ words }
    ensures { result ≡ rows_in words }
{
    (words - CHAINS) / 5
}

// The row that a word of a chain leads to; none for the chain's end, and for a word that leads to no row below `top`.
fn link(word: u64, top: usize) -> Option<usize>
    ensures { (result ≡ link_of word top) × IfSome result (λ k. k < top) }
{
    if 0 < word && word <= top as u64 {
        Some(word as usize - 1)
    } else {
        None
    }
}

// Whether the four words from a place on are these.
#[tactic(auto, unfolding(crate::specs::Index::is_at))]
fn is_at(section: &[u64], place: usize, row: Row) -> bool
    requires { place + 3 < length section.now }
    ensures { result ≡ is_at section.now place row }
{
    section[place] == row.0
        && section[place + 1] == row.1
        && section[place + 2] == row.2
        && section[place + 3] == row.3
}

// The number of the row with these words. On any words it ends: the numbers of the walk fall.
pub fn find(section: &[u64], row: Row) -> Option<usize>
    requires { chains ≤ length section.now }
    ensures { FindsRow section.now row result }
{
    let n = rows_in(section.len());
    let rows = CHAINS + n;
    let mut at = link(section[hash(row)], n);
    while let Some(k) = at {
        if is_at(section, rows + 4 * k, row) {
            return Some(k);
        }
        at = link(section[CHAINS + k], k);
    }
    None
}

// Writes the four words from a place on.
#[tactic(auto, unfolding(crate::specs::Index::put_row))]
pub fn put_row(section: &mut [u64], place: usize, row: Row)
    requires { place + 3 < length section.old }
    ensures { section.new ≡ put_row section.old place row }
{
    section[place] = row.0;
    section[place + 1] = row.1;
    section[place + 2] = row.2;
    section[place + 3] = row.3;
}

// The place of the link that leads to row `number` of a chain, or past it: the chain's first, or the next of the least row of the chain above it.
fn link_place(section: &[u64], chain: usize, number: usize) -> usize
    requires { (chains ≤ length section.now) × (chain < chains) × (number < rows_in (length section.now)) }
    ensures { LinkFound section.now chain number result }
{
    let mut place = chain;
    let mut at = link(section[chain], rows_in(section.len()));
    while let Some(k) = at {
        if k <= number {
            return place;
        }
        place = CHAINS + k;
        at = link(section[place], k);
    }
    place
}

// Puts a row, whose number no row has.
pub fn add(section: &mut [u64], number: usize, row: Row)
    requires { (chains ≤ length section.old) × (number < rows_in (length section.old)) }
    ensures { Added section.old section.new number row }
{
    let n = rows_in(section.len());
    let place = link_place(section, hash(row), number);
    let before = section[place];
    section[CHAINS + number] = before;
    section[place] = number as u64 + 1;
    put_row(section, CHAINS + n + 4 * number, row);
}

// Takes a row out.
pub fn remove(section: &mut [u64], number: usize)
    requires { (chains ≤ length section.old) × (number < rows_in (length section.old)) }
    ensures { Removed section.old section.new number }
{
    let n = rows_in(section.len());
    let at = CHAINS + n + 4 * number;
    let row = (
        section[at],
        section[at + 1],
        section[at + 2],
        section[at + 3],
    );
    let place = link_place(section, hash(row), number);
    let behind = section[CHAINS + number];
    section[place] = behind;
    put_row(section, at, (0, 0, 0, 0));
}
