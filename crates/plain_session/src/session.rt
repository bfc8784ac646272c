ghost use Rattle.std.specs.Prelude.{◌≡◌, vec_len};

use crate::lane::{Copier, Lane};
use forest_oracle::Oracle;
use std::alloc::Global;

mod lines;

/// Lanes over the plain store, where no file is full.
#[derive(Drop)]
pub struct PlainSession {
    alloc: Global,
    oracle: Oracle,
    lanes: Vec<Lane>,
    copier: Option<Copier>,
    ghost sixteen: { vec_len lanes ≡ 16 },
}
