// The kept table: every holder's effective set in four words, filled from the book's arrays and refreshed after an edit.
#![tactic(auto)]

ghost use Rattle.std.specs.Prelude.{◌≡◌, ◌||◌, ◌&&◌, ℕ, ◌*◌, ◌%◌, ◌<◌, ◌≤◌, length, get_or, eqb};
ghost use Rattle.model.specs.Limits.{group_limit};
ghost use Rattle.bits.specs.Bits.{bit, member, holds, differ, Numbers, any_below, count_below, Bits};
ghost use Rattle.ties.specs.TieJoins.{joins_by, joins_under, JoinsBelow};
ghost use Rattle.sets.specs.Settled.{mark_words, Shaped, unlike, MarksChanged, Stored, Settled, Deep, Spared, AllDeep, PartiesStored, StoredTied};
ghost use Rattle.sets.specs.Filled.{Filled};
ghost use Rattle.sets.specs.Refreshed.{Rewritten, Refreshed};

// A bit for each holder, of which there are at most 256.
const MARK_WORDS: usize = 4;

// What an edit does to the table: how many holders' sets changed, and the set joins of the edited holder and of those below it.
#[derive(Clone, Copy)]
pub struct Tally {
    pub changed: usize,
    pub joins: usize,
}

// The arrays that keep the ties, as they are lent to a call: own pairs, ties up, and the holder of each slot.
#[derive(Clone, Copy)]
struct Arrays<'a> {
    own: &'a [u64],
    ups: &'a [u64],
    slots: &'a [u64],
}

// Rewrites one set, which is lent by its four words: its own pairs, joined with those that it inherits. Tells whether it changed.
fn rewrite(set: &mut [u64], own: &[u64], inherited: [u64; 4]) -> bool
    requires { (length set.old ≡ 4) × (length own.now ≡ 4) }
    ensures { Numbers 256 set.new (λ p. member own.now p || member inherited p) × (result ≡ differ 256 set.old set.new) }
{
    let next = bits::joined(inherited, own);
    let is_changed = bits::differs(set, &next);
    set.copy_from_slice(&next);
    is_changed
}

// A set joined with holder k's.
fn inherit(sum: [u64; 4], table: &[u64], k: usize) -> [u64; 4]
    requires { length table.now % 4 ≡ 0 }
    ensures { Numbers 256 result (λ p. member sum p || holds table.now k p) }
{
    if k >= table.len() / 4 {
        return sum;
    }
    let at = 4 * k;
    bits::joined(sum, &table[at..at + 4])
}

// The pairs that stand in the sets of the groups of a mask.
fn gather(table: &[u64], slots: &[u64], mask: u64) -> [u64; 4]
    requires { length table.now % 4 ≡ 0 }
    ensures { Numbers 256 result (λ p. any_below group_limit (λ q. bit mask q && holds table.now (get_or slots.now q 0) p)) }
{
    let mut sum = [0u64; 4];
    let mut above = mask;
    while above != 0 {
        let q = bits::lowest(above);
        let next = inherit(sum, table, ties::holder_at(slots, q));
        sum = next;
        above = bits::without(above, q);
    }
    sum
}

// Rewrites holder k's set from its own pairs and the sets of the groups of a mask. Tells whether it changed.
fn store(table: &mut [u64], arrays: &Arrays<'_>, k: usize, mask: u64) -> bool
    requires { (length table.old % 4 ≡ 0) × (length arrays.now.own.now ≡ length table.old) }
    ensures { Stored arrays.now.own.now arrays.now.slots.now k mask table.old table.new × (result ≡ unlike table.old table.new k) }
{
    if k >= table.len() / 4 {
        return false;
    }
    let sum = gather(table, arrays.slots, mask);
    let at = 4 * k;
    rewrite(&mut table[at..at + 4], &arrays.own[at..at + 4], sum)
}

// The same, and marks the holder if its set changed. Tells whether it did. Inlined, since edits are slower where it is called.
#[inline(always)]
fn store_marked(
    table: &mut [u64],
    marks: &mut [u64],
    arrays: &Arrays<'_>,
    k: usize,
    mask: u64,
) -> bool
    requires { (length table.old % 4 ≡ 0) × (length arrays.now.own.now ≡ length table.old) × (length table.old ≤ 256 * length marks.old) }
    ensures { Stored arrays.now.own.now arrays.now.slots.now k mask table.old table.new × MarksChanged marks.old marks.new table.old table.new × (result ≡ unlike table.old table.new k) }
{
    if !store(table, arrays, k, mask) {
        return false;
    }
    bits::insert(marks, k);
    true
}

// The same for the group of a slot; answers the mask `seen` of the settled groups with it. Where its set stays as it was, nothing is marked, and the
// walk goes on all the same: a holder below may change by another path.
fn store_group(
    table: &mut [u64],
    marks: &mut [u64],
    arrays: &Arrays<'_>,
    group: usize,
    mask: u64,
    seen: u64,
) -> u64
    requires { (length table.old % 4 ≡ 0) × (length arrays.now.own.now ≡ length table.old) × (length table.old ≤ 256 * length marks.old) × (group < group_limit) }
    ensures { Stored arrays.now.own.now arrays.now.slots.now (get_or arrays.now.slots.now group 0) mask table.old table.new × MarksChanged marks.old marks.new table.old table.new × Bits result (λ j. bit seen j || eqb j group) }
{
    let k = ties::holder_at(arrays.slots, group);
    store_marked(table, marks, arrays, k, mask);
    bits::with(seen, group)
}

// The set of a group: settles the groups one tie up first, then rewrites its own set from theirs, and marks it if it changed. A group of the
// mask `done` is settled already, so each is computed once; one of the mask `path` waits for this one, as happens on a circle of ties alone.
// `height` falls with each call.
fn settle(
    table: &mut [u64],
    marks: &mut [u64],
    arrays: &Arrays<'_>,
    group: usize,
    path: u64,
    done: u64,
    height: usize,
) -> u64
    requires { Shaped arrays.now.ups.now arrays.now.own.now arrays.now.slots.now table.old × (length arrays.now.ups.now ≤ 64 * length marks.old) × (group < group_limit) }
    ensures { Settled arrays.now.ups.now arrays.now.own.now arrays.now.slots.now table.old table.new marks.old marks.new done result (Deep arrays.now.ups.now arrays.now.slots.now path height group) (λ g. g ≡ group) × Spared path done result }
{
    if bits::has(done, group)
        || bits::has(path, group)
        || height == 0
        || !ties::in_use(arrays.slots, group, arrays.ups.len())
    {
        return done;
    }
    let k = ties::holder_at(arrays.slots, group);
    let mask = ties::ties_up(arrays.ups, k);
    let below = bits::with(path, group);
    let mut seen = done;
    let mut left = ties::still_left(mask, 0, done);
    while left != 0 {
        let q = bits::lowest(left);
        seen = settle(table, marks, arrays, q, below, seen, height - 1);
        left = bits::without(left, q);
    }
    store_group(table, marks, arrays, group, mask, seen)
}

// Settles every group that is not in the mask `done`.
fn settle_groups(table: &mut [u64], marks: &mut [u64], arrays: &Arrays<'_>, done: u64) -> u64
    requires { Shaped arrays.now.ups.now arrays.now.own.now arrays.now.slots.now table.old × (length arrays.now.ups.now ≤ 64 * length marks.old) }
    ensures { Settled arrays.now.ups.now arrays.now.own.now arrays.now.slots.now table.old table.new marks.old marks.new done result (AllDeep arrays.now.ups.now arrays.now.slots.now) (λ g. g < group_limit) }
{
    let mut seen = done;
    let mut left = !done;
    while left != 0 {
        let g = bits::lowest(left);
        seen = settle(table, marks, arrays, g, 0, seen, arrays.ups.len());
        left = bits::without(left, g);
    }
    seen
}

// Stores the parties, once the groups' sets are right: of the holders that are `edited` or have a tie up to a group of the mask `below`, those that are no
// group. Answers the set joins of all these holders, the groups' too; so few holders keep the sum in range.
fn store_under(
    table: &mut [u64],
    marks: &mut [u64],
    arrays: &Arrays<'_>,
    groups: &[u64],
    below: u64,
    edited: usize,
) -> usize
    requires { Shaped arrays.now.ups.now arrays.now.own.now arrays.now.slots.now table.old × (length arrays.now.ups.now ≤ 64 * length marks.old) × (length arrays.now.ups.now ≤ 65536) }
    ensures { PartiesStored arrays.now.ups.now arrays.now.own.now arrays.now.slots.now groups.now below edited table.old table.new marks.old marks.new (length arrays.now.ups.now) × (result ≡ joins_under arrays.now.ups.now below edited (length arrays.now.ups.now)) }
{
    let mut joins: usize = 0;
    for (k, up) in arrays.ups.iter().enumerate() {
        let added = ties::joins_under(arrays.ups, below, edited, k);
        if added != 0 && !ties::is_group(groups, k) {
            store_marked(table, marks, arrays, k, *up);
        }
        joins += added;
    }
    joins
}

// Stores the holders that have a tie up, once the groups' sets are right. A group's is stored once more, as it is.
fn store_tied(table: &mut [u64], arrays: &Arrays<'_>)
    requires { Shaped arrays.now.ups.now arrays.now.own.now arrays.now.slots.now table.old }
    ensures { StoredTied arrays.now.ups.now arrays.now.own.now arrays.now.slots.now table.old table.new (length arrays.now.ups.now) }
{
    for (k, up) in arrays.ups.iter().enumerate() {
        if *up != 0 {
            store(table, arrays, k, *up);
        }
    }
}

// Fills the table: every holder's set, a group's after those above it. Who has no tie up has its own pairs, and most numbers have no holder at all:
// these are copied in one go. Slots without a number count as settled.
pub fn fill(table: &mut [u64], own: &[u64], ups: &[u64], slots: &[u64])
    requires { Shaped ups.now own.now slots.now table.old × (length ups.now ≤ 64 * mark_words) }
    ensures { Filled ups.now own.now slots.now table.new }
{
    table.copy_from_slice(own);
    let mut marks = [0u64; MARK_WORDS];
    let free = !ties::numbered(slots);
    let arrays = Arrays { own, ups, slots };
    settle_groups(table, &mut marks, &arrays, free);
    store_tied(table, &arrays);
}

// After an edit of a user or an object, below whom nobody is: its own set is all. The sets that changed are the ones of a word in which it is marked.
fn refresh_alone(table: &mut [u64], arrays: &Arrays<'_>, edited: usize) -> Tally
    requires { Shaped arrays.now.ups.now arrays.now.own.now arrays.now.slots.now table.old × (length arrays.now.ups.now ≤ 64 * mark_words) }
    ensures { Stored arrays.now.own.now arrays.now.slots.now edited (get_or arrays.now.ups.now edited 0) table.old table.new × (result.changed ≡ count_below (64 * mark_words) (unlike table.old table.new)) × (result.joins ≡ joins_by (get_or arrays.now.ups.now edited 0)) }
{
    let up = ties::ties_up(arrays.ups, edited);
    let is_changed = store(table, arrays, edited, up);
    let mark = bits::put(0, edited % 64, is_changed);
    Tally {
        changed: bits::ones(mark),
        joins: ties::joins(up),
    }
}

// Rewrites the set of the group `edited` and those of the holders below it, each once and no other, a group's after those above it, and marks
// those that changed. Answers the set joins.
fn rewrite_below(
    table: &mut [u64],
    marks: &mut [u64],
    arrays: &Arrays<'_>,
    groups: &[u64],
    edited: usize,
) -> usize
    requires { Shaped arrays.now.ups.now arrays.now.own.now arrays.now.slots.now table.old × (length arrays.now.ups.now ≤ 64 * length marks.old) × (length arrays.now.ups.now ≤ 65536) }
    ensures { Rewritten arrays.now.ups.now arrays.now.own.now arrays.now.slots.now groups.now edited table.old table.new marks.old marks.new × JoinsBelow arrays.now.ups.now arrays.now.slots.now edited result }
{
    let below = ties::groups_below(arrays.ups, arrays.slots, edited);
    settle_groups(table, marks, arrays, !below);
    store_under(table, marks, arrays, groups, below, edited)
}

// After an edit of holder `edited`: refreshes the table, and answers how many holders' sets changed, and the set joins, also where none changed. `groups`
// tells which holders are groups.
pub fn refresh(
    table: &mut [u64],
    own: &[u64],
    ups: &[u64],
    slots: &[u64],
    groups: &[u64],
    edited: usize,
) -> Tally
    requires { Shaped ups.now own.now slots.now table.old × (length ups.now ≤ 64 * mark_words) }
    ensures { Refreshed ups.now own.now slots.now groups.now edited table.old table.new result.changed result.joins }
{
    let arrays = Arrays { own, ups, slots };
    if !ties::is_group(groups, edited) {
        return refresh_alone(table, &arrays, edited);
    }
    let mut changed = [0u64; MARK_WORDS];
    let joins = rewrite_below(table, &mut changed, &arrays, groups, edited);
    Tally {
        changed: bits::count(&changed),
        joins,
    }
}
