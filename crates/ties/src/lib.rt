// Ties in arrays: the groups' slots, what is below a holder, whether a tie closes a circle, and one tie more or less.
#![tactic(auto)]

ghost use Rattle.std.specs.Prelude.{◌≡◌, ◌||◌, ◌&&◌, not, ℕ, ◌+◌, ◌*◌, ◌<◌, ◌≤◌, length, get_or};
ghost use Rattle.model.specs.Limits.{group_limit, pair_limit};
ghost use Rattle.bits.specs.Bits.{bit};
ghost use Rattle.ties.specs.TieArrays.{in_use, grouped, meets, under, HasNumbered, Marks, Widened, LeadsTo, ClosesCircle};
ghost use Rattle.ties.specs.TieEdits.{MaskChanged, OwnChanged, SlotGiven};
ghost use Rattle.ties.specs.TieJoins.{joins_by, joins_at};

// The holder number of slot q: 0, which is no group's, where there is no such slot.
pub fn holder_at(slots: &[u64], q: usize) -> usize
    ensures { result ≡ get_or slots.now q 0 }
{
    slots.get(q).map_or(0, |k| *k as usize)
}

// Whether slot q is in use, among n holders.
pub fn in_use(slots: &[u64], q: usize, n: usize) -> bool
    ensures { result ≡ in_use n slots.now q }
{
    let k = holder_at(slots, q);
    k != 0 && k < n
}

// Whether holder k is a group: its own word tells a slot then.
pub fn is_group(groups: &[u64], k: usize) -> bool
    ensures { result ≡ grouped groups.now k }
{
    groups.get(k).is_some_and(|slot| *slot != 0)
}

// Holder k's ties up: none where there is no such holder.
pub fn ties_up(ups: &[u64], k: usize) -> u64
    ensures { result ≡ get_or ups.now k 0 }
{
    ups.get(k).copied().unwrap_or(0)
}

// Whether two masks have a slot in common.
pub fn meet(a: u64, b: u64) -> bool
    ensures { result ≡ meets a b }
{
    a & b != 0
}

// Whether holder k is e, or has a tie up to a group of the mask m.
pub fn is_under(ups: &[u64], m: u64, e: usize, k: usize) -> bool
    ensures { result ≡ under ups.now m e k }
{
    k == e || meet(ties_up(ups, k), m)
}

// Whether the group of slot q is e, or has a tie up to a group of the mask m.
fn slot_is_under(ups: &[u64], slots: &[u64], m: u64, e: usize, q: usize) -> bool
    ensures { result ≡ (in_use (length ups.now) slots.now q && under ups.now m e (get_or slots.now q 0)) }
{
    in_use(slots, q, ups.len()) && is_under(ups, m, e, holder_at(slots, q))
}

// The set joins that a holder takes with these ties up: one, and one for each of them.
pub fn joins(up: u64) -> usize
    ensures { (result ≡ joins_by up) × (result ≤ group_limit + 1) }
{
    1 + bits::ones(up)
}

// Those of holder k, if it is e or has a tie up to a group of the mask m; else none.
pub fn joins_under(ups: &[u64], m: u64, e: usize, k: usize) -> usize
    ensures { (result ≡ joins_at ups.now m e k) × (result ≤ group_limit + 1) }
{
    if is_under(ups, m, e, k) {
        joins(ties_up(ups, k))
    } else {
        0
    }
}

// The slots that have a number: no other is in use, and most areas have few groups.
pub fn numbered(slots: &[u64]) -> u64
    requires { length slots.now ≤ group_limit }
    ensures { HasNumbered slots.now group_limit result }
{
    let mut mask: u64 = 0;
    for (q, k) in slots.iter().enumerate() {
        if *k != 0 {
            mask = bits::with(mask, q);
        }
    }
    mask
}

// The slots that a walk has left: those of either mask that are not done.
pub fn still_left(left: u64, up: u64, done: u64) -> u64
    ensures { (q : ℕ) → q < group_limit → bit result q ≡ ((bit left q || bit up q) && not (bit done q)) }
{
    (left | up) & !done
}

// The mask m with the slots of such groups: those that are not in it yet are looked at, each against what is in it by then, so that a chain of
// groups that were declared from the top down is taken at once. Only slots of the mask `used` can be in use.
fn widened(ups: &[u64], slots: &[u64], used: u64, m: u64, e: usize) -> u64
    requires { HasNumbered slots.now group_limit used }
    ensures { Widened ups.now slots.now e m result }
{
    let mut next = m;
    let mut left = still_left(used, 0, m);
    while left != 0 {
        let q = bits::lowest(left);
        if slot_is_under(ups, slots, next, e, q) {
            next = bits::with(next, q);
        }
        left = bits::without(left, q);
    }
    next
}

// The same from the highest slot down, which takes a chain of groups that were declared from the bottom up at once.
fn widened_down(ups: &[u64], slots: &[u64], m: u64, e: usize) -> u64
    requires { length slots.now ≤ group_limit }
    ensures { Widened ups.now slots.now e m result }
{
    let mut next = m;
    for q in (0..slots.len()).rev() {
        if slot_is_under(ups, slots, next, e, q) {
            next = bits::with(next, q);
        }
    }
    next
}

// The same from the lowest slot up, and from the highest down only if that found any.
fn widened_both_ways(ups: &[u64], slots: &[u64], used: u64, m: u64, e: usize) -> u64
    requires { (length slots.now ≤ group_limit) × HasNumbered slots.now group_limit used }
    ensures { Widened ups.now slots.now e m result }
{
    let up = widened(ups, slots, used, m, e);
    if up == m {
        up
    } else {
        widened_down(ups, slots, up, e)
    }
}

// The slots of holder e, if it is a group, and of the groups below it: the mask is widened until nothing is new. Not inlined: its loops are
// slower where they share the registers of a caller.
#[inline(never)]
pub fn groups_below(ups: &[u64], slots: &[u64], e: usize) -> u64
    requires { length slots.now ≤ group_limit }
    ensures { Marks ups.now slots.now e result }
{
    let used = numbered(slots);
    let mut m: u64 = 0;
    let mut next = widened(ups, slots, used, 0, e);
    while next != m {
        m = next;
        next = widened_both_ways(ups, slots, used, m, e);
    }
    m
}

// Whether a chain of ties leads from holder k up to holder e: each group above k is looked at once, until e is found or none is left.
fn leads_up(ups: &[u64], slots: &[u64], k: usize, e: usize) -> bool
    ensures { LeadsTo ups.now slots.now k e result }
{
    let mut done: u64 = 0;
    let mut left = ties_up(ups, k);
    while left != 0 {
        let q = bits::lowest(left);
        let h = holder_at(slots, q);
        if h == e {
            return true;
        }
        let up = ties_up(ups, h);
        done = bits::with(done, q);
        left = still_left(left, up, done);
    }
    false
}

// Whether a tie from holder `child` up to holder `group` closes a circle: `child` is `group`, or above it.
pub fn closes_circle(ups: &[u64], slots: &[u64], child: usize, group: usize) -> bool
    ensures { ClosesCircle ups.now slots.now child group result }
{
    child == group || leads_up(ups, slots, group, child)
}

// Holder h gets or loses a tie up to the group of slot q.
pub fn change_up(ups: &mut [u64], h: usize, q: usize, plus: bool)
    requires { (h < length ups.old) × (q < group_limit) }
    ensures { MaskChanged ups.old h q plus ups.new }
{
    ups[h] = bits::put(ups[h], q, plus);
}

// Holder h gets or loses the pair p.
pub fn change_value(own: &mut [u64], h: usize, p: usize, plus: bool)
    requires { (4 * h + 4 ≤ length own.old) × (p < pair_limit) }
    ensures { OwnChanged own.old h p plus own.new }
{
    let at = 4 * h + p / 64;
    own[at] = bits::put(own[at], p % 64, plus);
}

// The group of holder number k gets slot q.
pub fn give_slot(slots: &mut [u64], q: usize, k: usize)
    requires { q < length slots.old }
    ensures { SlotGiven slots.old q k slots.new }
{
    slots[q] = k as u64;
}
