ghost use Rattle.std.specs.Prelude.{◌≡◌, IfOk, IsTrue, length};
ghost use Rattle.forest_model.specs.Records.{is_record};

use super::*;
use block_host::{Block, Host, View, seal};
use btree_cow::{Docs, find, insert};
use doc_stream::Tail;
use forest_model::{Bytes, Rec, Refusal};
use host_memory::MemoryHost;
use node_page::leaf_from;
use std::alloc::Global;
use std::test::Fail;

// A record that deletes a key.
fn deletion(alloc: Global) -> Result<Rec, Refusal>
    ensures { IfOk result (λ rec. IsTrue (is_record rec)) }
{
    Ok(Rec {
        kind: 2,
        store: 7,
        seq: 3,
        key: Bytes::copy_of(alloc, b"key")?,
        meta: Bytes::new(alloc),
        body: Bytes::new(alloc),
    })
}

// File 1 with a record as its block 0, and the open block behind it.
fn put_record<H: Host>(alloc: Global, host: &mut H) -> Result<Tail, Fail> {
    let mut tail = Tail::new(alloc, 0)?;
    let mut full = Vec::new(alloc);
    tail.put(&deletion(alloc)?, 1, &mut full)?;
    if let Some(block) = tail.pad(1) {
        host.append(1, &[block])?;
    }
    Ok(tail)
}

// A leaf of two entries as block 1 of file 1.
fn leaf() -> Block {
    let page = leaf_from(&[(5, 50), (6, 60)], true);
    seal(2, 1, 1, &page.bytes[..page.len as usize])
}

// A view of file 1 with the record and the leaf.
fn made<H: Host>(alloc: Global, host: &mut H) -> Result<(H::View, Tail), Fail> {
    let tail = put_record(alloc, host)?;
    host.append(1, &[leaf()])?;
    Ok((host.view(1)?, tail))
}

// What the leaf has for two chunks, what block 0 has as a node, and whether the record is there.
fn found<V: View>(alloc: Global, view: &mut V, tail: &Tail) -> [bool; 4] {
    let mut docs = FileDocs::new(alloc, view, tail, 1);
    let damaged = Refusal::Damaged { file: 1, block: 0 };
    [
        find(&mut docs, Some(1), 6) == Ok(Some(60)),
        find(&mut docs, Some(1), 7) == Ok(None),
        find(&mut docs, Some(0), 7) == Err(damaged),
        docs.document(0).is_ok_and(|rec| rec.seq == 3),
    ]
}

#[test]
fn nodes_and_records_are_read_by_a_view(rt: HostRuntime) -> Result<(), Fail> {
    let mut host = MemoryHost::empty(rt.alloc())?;
    let (mut view, tail) = made(rt.alloc(), &mut host)?;
    assert_eq!(rt; found(rt.alloc(), &mut view, &tail), [true; 4]);
    assert_eq!(rt;
        crate::docs::find_by_view(rt.alloc(), &mut view, &tail, 1, Some(1), 5),
        Ok(Some(50))
    );
    Ok(())
}

// Puts chunks into a tree in the empty file 1, in which there is room for three blocks. The host refuses the third append
// once: what is there stays, and the next one is done. Answers whether each call answers what it should.
fn grown<H: Host>(alloc: Global, host: &mut H, view: &mut H::View, tail: &Tail) -> [bool; 8]
    requires { IsTrue H.tells → length ((H.disk host.old).files 1) ≡ 0 }
{
    let room = Room {
        blocks: 0,
        most: 3,
        max: 3,
        torn: false,
    };
    let full = Refusal::FileFull {
        used: 3,
        needed: 1,
        max: 3,
    };
    let mut pages = FileAppender::new(alloc, host, view, tail, 1, room);
    [
        insert(&mut pages, None, 5, 50) == Ok(0),
        insert(&mut pages, Some(0), 6, 60) == Ok(1),
        find(&mut pages, Some(1), 6) == Ok(Some(60)),
        insert(&mut pages, Some(1), 7, 70) == Err(Refusal::DiskFault),
        find(&mut pages, Some(1), 5) == Ok(Some(50)),
        insert(&mut pages, Some(1), 7, 70) == Ok(2),
        find(&mut pages, Some(2), 7) == Ok(Some(70)),
        insert(&mut pages, Some(2), 8, 80) == Err(full),
    ]
}

#[test]
fn nodes_are_added_through_a_host(rt: HostRuntime) -> Result<(), Fail> {
    let mut host = MemoryHost::empty(rt.alloc())?;
    host.fail_calls(&[7], &[], &[])?;
    let mut view = host.view(1)?;
    let tail = Tail::new(rt.alloc(), 0)?;
    assert_eq!(rt; grown(rt.alloc(), &mut host, &mut view, &tail), [true; 8]);
    Ok(())
}

#[test]
fn a_node_is_added_to_what_is_lent(rt: HostRuntime) -> Result<(), Fail> {
    let mut host = MemoryHost::empty(rt.alloc())?;
    let mut view = host.view(1)?;
    let tail = Tail::new(rt.alloc(), 0)?;
    let room = Room {
        blocks: 0,
        most: 1,
        max: 1,
        torn: false,
    };
    assert_eq!(rt;
        crate::appender::insert_by_host(
            rt.alloc(),
            &mut host,
            &mut view,
            &tail,
            1,
            room,
            None,
            5,
            50
        ),
        Ok(0)
    );
    Ok(())
}
