ghost use Rattle.std.specs.Prelude.{◌≡◌, ◌+◌, ◌*◌, ◌≤◌, ◌<◌, ℕ, Bool, List, length, slice_get, Some, IsTrue, MatchOption};
ghost use Rattle.node_page.specs.Nodes.{Entry, IsNode, node_head, rises};
ghost use Rattle.node_page.specs.Reading.{HasHead, entries_in};
ghost use Rattle.node_page.specs.declared.node.NodeHead.{NodeHead};

use crate::Page;

// The most entries that a node has.
const MOST_ENTRIES: u16 = 253;

/// What a node is: a leaf or an inner node, with 1 to 253 entries.
#[derive(Clone, Copy, Debug, PartialEq, Eq)]
pub struct NodeHead {
    pub leaf: bool,
    pub count: u16,
}

/// The node of these entries, 1 to 253, whose chunks strictly rise: a leaf, or an inner node.
pub fn leaf_from(entries: &[(u64, u64)], leaf: bool) -> Page
    requires some { 1 ≤ length entries.now }
    requires most { length entries.now ≤ 253 }
    requires rise { IsTrue (rises entries.now) }
    ensures { IsNode result leaf entries.now }
{
    let mut page = Page::of(&head_bytes(leaf, entries.len() as u16));
    for (chunk, value) in entries {
        page.add_long(*chunk);
        page.add_long(*value);
    }
    page
}

/// What node a page is; None exactly where it is none.
pub fn node_of(page: &Page) -> Option<NodeHead>
    ensures cases { MatchOption result ((leaf : Bool) (entries : List Entry) → IsNode page.now leaf entries → ⊥) (λ head. (entries : List Entry) × (head.count ≡ length entries) × IsNode page.now head.leaf entries) }
    ensures exact { (leaf : Bool) (entries : List Entry) → IsNode page.now leaf entries → result ≡ Some (record { leaf = leaf; count = length entries }) }
{
    let head = head_of(page)?;
    let numbers = 2 + 2 * usize::from(head.count);
    if are_rising(page, head.count) && page.is_zero_from(numbers) {
        Some(head)
    } else {
        None
    }
}

/// The chunk and the value of an entry of a node, counted from 0.
pub fn entry(page: &Page, n: u16) -> (u64, u64)
    requires { n < 253 }
    ensures { (leaf : Bool) (entries : List Entry) → IsNode page.now leaf entries → n < length entries → slice_get entries n ≡ Some result }
{
    let at = 16 + 16 * usize::from(n);
    (page.long_at(at), page.long_at(at + 8))
}

fn head_bytes(leaf: bool, count: u16) -> [u8; 16]
    ensures { result ≡ node_head leaf count }
{
    let mut head = [0; 16];
    head[0] = if leaf { 1 } else { 2 };
    head[2..4].copy_from_slice(&count.to_be_bytes());
    head
}

// The head of the node that a page is by its front and its length, if it is one by these.
fn head_of(page: &Page) -> Option<NodeHead>
    ensures { MatchOption result ((leaf : Bool) (count : ℕ) → HasHead page.now leaf count → ⊥) (λ head. HasHead page.now head.leaf head.count) }
{
    let leaf = page.bytes[0] == 1;
    let count = u16::from_be_bytes([page.bytes[2], page.bytes[3]]);
    let fits = 1 <= count && count <= MOST_ENTRIES && page.len == 16 + 16 * count;
    if fits && &page.bytes[..16] == head_bytes(leaf, count).as_slice() {
        Some(NodeHead { leaf, count })
    } else {
        None
    }
}

// Whether the chunks of so many entries strictly rise.
fn are_rising(page: &Page, count: u16) -> bool
    requires some { 1 ≤ count }
    requires most { count ≤ 253 }
    ensures { result ≡ rises (entries_in count page.now.bytes) }
{
    let mut last = page.long_at(16);
    for n in 1..count {
        let chunk = page.long_at(16 + 16 * usize::from(n));
        if chunk <= last {
            return false;
        }
        last = chunk;
    }
    true
}
