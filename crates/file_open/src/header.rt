ghost use Rattle.std.specs.Prelude.{◌≡◌, ◌∷◌, []};
ghost use Rattle.file_image.specs.NewStore.{new_header, default_row};

use forest_model::{Header, Stores};

// The header of commit 0, which has no documents.
pub(crate) fn new_header() -> Header
    ensures { result ≡ new_header }
{
    Header {
        commit: 0,
        next_commit: 1,
        previous: None,
        key: None,
        seq: None,
        wal_from: 1,
        live: 0,
        next_store: 1,
        stores: default_alone(),
    }
}

// The one store of a new file.
pub(crate) fn default_alone() -> Stores
    ensures { result ≡ default_row 0 0 ∷ [] }
{
    let mut stores = Stores::new();
    stores.push(0, b"default", 0, 0);
    stores
}
