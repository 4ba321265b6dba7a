// The beginning of a run, up to a chosen number, as a part of one of two lent lists.
#![tactic(auto)]

ghost use Rattle.std.specs.Prelude.{◌≡◌, true, ◌+◌, ◌<◌, ◌≤◌, length, IfSome, unwrap_or};
ghost use Rattle.beginning.specs.Computed.{first_index, beginning_length, prefix_of, BeginningCall};
ghost use Rattle.beginning.specs.Searched.{Searched};

// The first numbers of one of the two lists: which list, and how many. No Option: neither list is the missing one.
#[derive(Clone, Copy)]
pub enum Prefix {
    OfFirst { length: usize },
    OfSecond { length: usize },
}

// True only where none of the eight numbers from `at` on is x or y. Their low 16 bits are compared, without a branch, so
// no `try_from`; a false answer says nothing.
fn eight_free(list: &[u16], at: usize, x: u32, y: u32) -> bool
    requires { Searched list.now x y at × (at + 8 ≤ length list.now) }
    ensures { result ≡ true → Searched list.now x y (at + 8) }
{
    let low_x = (x % 65536) as u16;
    let low_y = (y % 65536) as u16;
    let mut free = true;
    for i in 0..8 {
        let z = list[at + i];
        free = basics::both(free, basics::both(z != low_x, z != low_y));
    }
    free
}

// An index, from `from` on by eights, before which neither x nor y appears.
fn skip(list: &[u16], from: usize, x: u32, y: u32) -> usize
    requires { Searched list.now x y from }
    ensures { Searched list.now x y result }
{
    // By eights, up to the first that are not free; a loop over `chunks_exact` would count this index too.
    let mut at = from;
    while 8 <= list.len() - at {
        if !eight_free(list, at, x, y) {
            return at;
        }
        at += 8;
    }
    at
}

// The index of the first appearance of x, which is not before `from`, or the list's length where it does not appear: as
// in the definition, since callers ask which of two comes first.
fn first_index(list: &[u16], from: usize, x: u32) -> usize
    requires { from ≤ first_index list.now x }
    ensures { result ≡ first_index list.now x }
{
    let rest = skip(list, from, x, x);
    for i in rest..list.len() {
        if u32::from(list[i]) == x {
            return i;
        }
    }
    list.len()
}

// How long the part of the list is that ends with the first appearance of `chosen`, where `other` appears after it and
// not before it.
fn beginning_length(list: &[u16], chosen: u32, other: u32) -> Option<usize>
    ensures length { unwrap_or result 0 ≡ beginning_length list.now chosen other }
    ensures some { IfSome result (λ n. 0 < n) }
{
    let rest = skip(list, 0, chosen, other);
    for i in rest..list.len() {
        let x = u32::from(list[i]);
        if x == other {
            return None;
        }
        if x == chosen {
            let o = first_index(list, i + 1, other);
            if o < list.len() {
                return Some(i + 1);
            }
            return None;
        }
    }
    None
}

// Which list the beginning is a part of, and how long it is; where neither has one, nothing of the first list.
pub fn which_prefix(first: &[u16], second: &[u16], chosen: u32, other: u32) -> Prefix
    ensures { result ≡ prefix_of first.now second.now chosen other }
{
    match beginning_length(first, chosen, other) {
        Some(length) => Prefix::OfFirst { length },
        None => match beginning_length(second, chosen, other) {
            Some(length) => Prefix::OfSecond { length },
            None => Prefix::OfFirst { length: 0 },
        },
    }
}

// The part of the first list that ends with the first appearance of `chosen`, where `other` appears after it and not
// before it; failing that, the same part of the second list; failing both, the empty part at the first list's start.
pub fn beginning<'a>(first: &'a [u16], second: &'a [u16], chosen: u32, other: u32) -> &'a [u16]
    ensures { BeginningCall first.now second.now chosen other
        first.entry.ref_ptr second.entry.ref_ptr result.now result.ref_ptr }
{
    match which_prefix(first, second, chosen, other) {
        // The empty part is a case of its own: where it starts is promised too.
        Prefix::OfFirst { length } => {
            if 0 < length {
                return &first[0..length];
            }
            &first[0..0]
        }
        Prefix::OfSecond { length } => &second[0..length],
    }
}
