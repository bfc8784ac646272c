ghost use Rattle.std.specs.Prelude.{◌^◌, ◌≤◌, length};

use block_host::Host;
use file_core::{FileState, Layout};
use file_open::open_new;
use forest_model::{Found, Info, Item, Limits, Refusal, StoreRef};
use std::alloc::Global;

// The calls of a file over any host, with nothing said of them: a test compares what they answer when it runs.

// Opens a new store on a host, which is let go where that is refused.
pub(super) fn opened<H: Host + Drop>(
    alloc: Global,
    host: H,
    limits: Limits,
) -> Result<FileState<H>, Refusal>
    requires { limits.max_blocks ≤ 2 ^ 32 }
{
    match open_new(alloc, host, limits) {
        Ok(file) => Ok(file),
        Err((why, _host)) => Err(why),
    }
}

pub(super) fn set<H: Host>(
    file: &mut FileState<H>,
    at: &StoreRef,
    key: &[u8],
    body: &[u8],
) -> Result<u64, Refusal> {
    file.set(at, key, b"", body)
}

pub(super) fn commit<H: Host>(file: &mut FileState<H>, at: &StoreRef) -> Result<u64, Refusal> {
    file_commit::commit(file, at)
}

pub(super) fn get<H: Host>(
    file: &mut FileState<H>,
    at: &StoreRef,
    key: &[u8],
) -> Result<Found, Refusal> {
    file.get(at, key)
}

pub(super) fn by_seq<H: Host>(
    file: &mut FileState<H>,
    at: &StoreRef,
    seq: u64,
) -> Result<Found, Refusal> {
    file.by_seq(at, seq)
}

pub(super) fn info<H: Host>(file: &mut FileState<H>, at: &StoreRef) -> Result<Info, Refusal> {
    file.info(at)
}

// The layout and the number of updates.
pub(super) fn place<H: Host>(file: &FileState<H>) -> (Layout, u64) {
    (file.layout(), file.updates())
}

pub(super) fn closed<H: Host>(file: FileState<H>) -> H {
    file.close()
}

pub(super) fn delete<H: Host>(
    file: &mut FileState<H>,
    at: &StoreRef,
    key: &[u8],
) -> Result<u64, Refusal> {
    file.delete(at, key)
}

pub(super) fn batch<H: Host>(
    file: &mut FileState<H>,
    at: &StoreRef,
    items: &[Item],
) -> Result<u64, Refusal>
    requires some { 1 ≤ length items.now }
    requires few { length items.now ≤ 1024 }
{
    file.batch(at, items)
}

pub(super) fn store_open<H: Host>(
    file: &mut FileState<H>,
    name: &[u8],
    read_only: bool,
) -> Result<StoreRef, Refusal> {
    file.store_open(name, read_only)
}

pub(super) fn store_remove<H: Host>(
    file: &mut FileState<H>,
    at: &StoreRef,
    name: &[u8],
) -> Result<u64, Refusal> {
    file.store_remove(at, name)
}
