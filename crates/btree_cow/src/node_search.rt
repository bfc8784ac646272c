ghost use Rattle.std.specs.Prelude.{◌≡◌, ◌+◌, ◌≤◌, ◌<◌, ℕ, Bool, false, List, length, take, drop, nat_lt, IsTrue, MatchOption};
ghost use Rattle.std.specs.List.{list_all};
ghost use Rattle.node_page.specs.Nodes.{Entry, IsNode};
ghost use Rattle.btree_cow.specs.Trees.{nearest};
ghost use Rattle.btree_cow.specs.Walks.{IsRank, IsSibling, IsChoice, is_late};

use node_page::{Page, entry};

/// What a walk looks for: the entry nearest to a chunk, above or below it, or of the chunk itself if `with`.
#[derive(Clone, Copy)]
pub(crate) struct Aim {
    pub chunk: u64,
    pub with: bool,
    pub up: bool,
}

/// The child in which a chunk can lie, and the one behind it, or before it.
#[derive(Clone, Copy)]
pub(crate) struct Choice {
    pub child: u64,
    pub sibling: Option<u64>,
}

// Whether a search upwards comes to a chunk, or one downwards never does.
fn is_behind(aim: Aim, chunk: u64) -> bool
    ensures { (value : ℕ) → result ≡ is_late aim.with aim.up aim.chunk (chunk, value) }
{
    if aim.up {
        (aim.with && aim.chunk == chunk) || aim.chunk < chunk
    } else {
        !((aim.with && aim.chunk == chunk) || chunk < aim.chunk)
    }
}

// How many entries stand before the first one that is behind.
fn rank(page: &Page, count: u16, aim: Aim) -> u16
    requires { count ≤ 253 }
    ensures within { result ≤ count }
    ensures rank { (leaf : Bool) (entries : List Entry) → IsNode page.now leaf entries → count ≡ length entries → IsRank (is_late aim.with aim.up aim.chunk) entries result }
{
    let mut low: u16 = 0;
    let mut high = count;
    while low < high {
        let middle = (low + high) / 2;
        let (chunk, _) = entry(page, middle);
        if is_behind(aim, chunk) {
            high = middle;
        } else {
            low = middle + 1;
        }
    }
    low
}

/// The entry of a leaf that a search comes to first.
pub(crate) fn nearest_in(page: &Page, count: u16, aim: Aim) -> Option<(u64, u64)>
    requires { count ≤ 253 }
    ensures { (leaf : Bool) (entries : List Entry) → IsNode page.now leaf entries → count ≡ length entries → result ≡ nearest aim.with aim.up entries aim.chunk }
{
    let early = rank(page, count, aim);
    if aim.up {
        if early < count {
            Some(entry(page, early))
        } else {
            None
        }
    } else if early > 0 {
        Some(entry(page, early - 1))
    } else {
        None
    }
}

/// Where to go on from an inner node. `None` where the search is downwards and every child lies above the chunk.
pub(crate) fn choose(page: &Page, count: u16, chunk: u64, up: bool) -> Option<Choice>
    requires some { 1 ≤ count }
    requires most { count ≤ 253 }
    ensures { (leaf : Bool) (entries : List Entry) → IsNode page.now leaf entries → count ≡ length entries → MatchOption result ((up ≡ false) × IsTrue (list_all (λ (e : Entry). nat_lt chunk e.0) entries)) (λ c. IsChoice up chunk entries c.child c.sibling) }
{
    let upto = rank(
        page,
        count,
        Aim {
            chunk,
            with: true,
            up: false,
        },
    );
    if upto == 0 && !up {
        return None;
    }
    let chosen = upto.saturating_sub(1);
    let sibling = sibling_of(page, count, chosen, up);
    let (_, child) = entry(page, chosen);
    Some(Choice { child, sibling })
}

// The child behind a node's child, or before it.
fn sibling_of(page: &Page, count: u16, chosen: u16, up: bool) -> Option<u64>
    requires within { chosen < count }
    requires most { count ≤ 253 }
    ensures { (leaf : Bool) (entries : List Entry) → IsNode page.now leaf entries → count ≡ length entries → IsSibling up (take chosen entries) (drop (chosen + 1) entries) result }
{
    if up {
        if chosen + 1 < count {
            let (_, next) = entry(page, chosen + 1);
            Some(next)
        } else {
            None
        }
    } else if chosen > 0 {
        let (_, last) = entry(page, chosen - 1);
        Some(last)
    } else {
        None
    }
}
