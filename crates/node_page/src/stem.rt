ghost use Rattle.std.specs.Prelude.{◌≡◌, ◌≤◌, ◌<◌, ℕ, List, length, slice_get, Some, MatchOption};
ghost use Rattle.node_page.specs.Stems.{IsStem};

use crate::Page;

// The most chunks that a stem skips.
const MOST_SKIPPED: u64 = 504;

/// The stem of a root with the chunks that are skipped, at most 504.
pub fn stem_from(root: u64, skipped: &[u64]) -> Page
    requires { length skipped.now ≤ 504 }
    ensures { IsStem result root skipped.now }
{
    let mut page = Page::of(&[]);
    page.add_long(root);
    page.add_long(skipped.len() as u64);
    for chunk in skipped {
        page.add_long(*chunk);
    }
    page
}

/// The root of a stem and how many chunks it skips; None exactly where a page is no stem.
pub fn stem_of(page: &Page) -> Option<(u64, u16)>
    ensures cases { MatchOption result ((root : ℕ) (chunks : List ℕ) → IsStem page.now root chunks → ⊥) (λ stem. (chunks : List ℕ) × (stem.1 ≡ length chunks) × IsStem page.now stem.0 chunks) }
    ensures exact { (root : ℕ) (chunks : List ℕ) → IsStem page.now root chunks → result ≡ Some (root, length chunks) }
{
    let root = page.long_at(0);
    let count = page.long_at(8);
    if count > MOST_SKIPPED || u64::from(page.len) != 16 + 8 * count {
        return None;
    }
    let numbers = 2 + count as usize;
    if page.is_zero_from(numbers) {
        Some((root, count as u16))
    } else {
        None
    }
}

/// A chunk that a stem skips, counted from 0.
pub fn skipped(page: &Page, n: u16) -> u64
    requires { n < 504 }
    ensures { (root : ℕ) (chunks : List ℕ) → IsStem page.now root chunks → n < length chunks → slice_get chunks n ≡ Some result }
{
    page.long_at(16 + 8 * usize::from(n))
}
