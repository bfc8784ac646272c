ghost use Rattle.std.specs.Prelude.{◌≡◌, ◌≤◌, ℕ, List, length};
ghost use Rattle.node_page.specs.Found.{page_of};
ghost use Rattle.node_page.specs.Pages.{IsPage};
ghost use Rattle.node_page.specs.declared.page.Page.{Page};

/// A payload of at most 4,064 bytes has one page.
pub fn payload_has_one_page()
    ensures one { (payload : List ℕ) (page : Page) → IsPage payload page → page ≡ page_of payload }
    ensures page { (payload : List ℕ) → length payload ≤ 4064 → IsPage payload (page_of payload) }
{}
