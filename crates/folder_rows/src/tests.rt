use block_host::{Block, Failed, Fresh, Host, View, seal};
use host_files::{DirHost, Trouble};
use std::fs;
use std::test::Fail;

// A folder of its own for each test, in the folder that the tests run in.
fn empty(rt: &HostRuntime, dir: &str) {
    let _gone = fs::remove_dir_all(rt, dir);
}

// The length of a file, 0 where there is none.
fn length_of(rt: &HostRuntime, path: &str) -> u64 {
    fs::metadata(rt, path).map_or(0, |found| found.len())
}

// A file with so many bytes of 7.
fn write_sevens(rt: &HostRuntime, path: &str, count: usize) -> bool {
    fs::write(rt, path, &[7; 5000][..count.min(5000)]).is_ok()
}

fn numbered(at: u64) -> Block {
    seal(1, 1, at, b"records")
}

// The block at a place of file 1, as the host reads it.
fn block_of<H: Host>(host: &mut H, file: u64, at: u64) -> Result<Block, Failed> {
    let mut block = Block::zeros();
    host.read(file, at, &mut block)?;
    Ok(block)
}

fn is_seen<V: View>(view: &mut V, at: u64, block: &Block) -> bool {
    let mut seen = Block::zeros();
    view.read(at, &mut seen).is_ok() && seen == *block
}

// Appends and puts, and what is read of them.
fn writes_and_reads<H: Host>(host: &mut H) -> Result<bool, Failed> {
    host.append(1, &[numbered(0), numbered(1), numbered(2)])?;
    host.append(1, &[numbered(3)])?;
    host.sync(1)?;
    host.put(1, &seal(5, 0, 1, b"slot"))?;
    host.sync(0)?;
    Ok(
        host.size(1)? == 4
            && host.size(0)? == 2
            && block_of(host, 1, 2)? == numbered(2)
            && block_of(host, 1, 3)? == numbered(3)
            && block_of(host, 1, 4)? == Block::zeros()
            && block_of(host, 0, 0)? == Block::zeros()
            && block_of(host, 0, 1)? == seal(5, 0, 1, b"slot")
            && host.next_file(0)? == Some(1)
            && host.next_file(1)? == None,
    )
}

// A fresh file, and the view of an old one that stays as it was.
fn adopts<H: Host>(host: &mut H) -> Result<bool, Failed> {
    let mut view = host.view(1)?;
    let mut fresh = host.fresh(1)?;
    fresh.append(&[numbered(7), numbered(8)])?;
    let Ok(settled) = fresh.sync() else {
        return Err(Failed);
    };
    host.adopt(settled)?;
    let old = view.size() == 4 && is_seen(&mut view, 3, &numbered(3));
    host.renew(1, &mut view)?;
    let renewed = view.size() == 2 && is_seen(&mut view, 1, &numbered(8));
    let beyond = is_seen(&mut view, 2, &Block::zeros());
    Ok(old && renewed && beyond && host.size(1)? == 2)
}

// Blocks of more than one group, and a file without a whole block.
fn writes_groups<H: Host>(host: &mut H) -> Result<bool, Failed> {
    host.append(5, &[numbered(5); 20])?;
    let last = block_of(host, 5, 19)? == numbered(5);
    Ok(last && host.size(5)? == 20 && host.cut(5, 30).is_ok() && host.size(5)? == 20)
}

// What a file of a block and a torn tail is, and after an append.
fn mends_a_tail<H: Host>(host: &mut H) -> Result<bool, Failed> {
    let before = (host.size(2)?, host.next_file(0)?, host.next_file(2)?) == (1, Some(2), None);
    let torn = block_of(host, 2, 1)? == Block::zeros();
    host.append(2, &[numbered(1)])?;
    let mended = host.size(2)? == 2 && block_of(host, 2, 1)? == numbered(1);
    Ok(before && torn && mended)
}

#[test]
fn keeps_files_in_a_folder(rt: HostRuntime) -> Result<(), Fail> {
    empty(&rt, "kept");
    let mut host = DirHost::new(rt, "kept")?;
    assert_eq!(rt; writes_and_reads(&mut host), Ok(true));
    assert_eq!(rt; length_of(&rt, "kept/meta"), 8192);
    assert_eq!(rt; length_of(&rt, "kept/r1"), 16384);
    assert_eq!(rt; adopts(&mut host), Ok(true));
    assert_eq!(rt; length_of(&rt, "kept/r1"), 8192);
    assert_eq!(rt; length_of(&rt, "kept/r1.new"), 0);
    assert_eq!(rt; writes_groups(&mut host), Ok(true));
    assert_eq!(rt; (Host::faults(&host), host.trouble()), (0, None));
    assert!(rt; host.remove(1) && length_of(&rt, "kept/r1") == 0);
    empty(&rt, "kept");
    Ok(())
}

#[test]
fn cuts_a_torn_tail_off(rt: HostRuntime) -> Result<(), Fail> {
    empty(&rt, "torn");
    let mut host = DirHost::new(rt, "torn")?;
    assert!(rt; write_sevens(&rt, "torn/r2", 5000) && write_sevens(&rt, "torn/r3", 4095));
    assert!(rt; write_sevens(&rt, "torn/r04", 5000) && write_sevens(&rt, "torn/r5.new", 5000));
    assert_eq!(rt; mends_a_tail(&mut host), Ok(true));
    assert_eq!(rt; length_of(&rt, "torn/r2"), 8192);
    assert_eq!(rt; host.cut(2, 1), Ok(()));
    assert_eq!(rt; length_of(&rt, "torn/r2"), 4096);
    empty(&rt, "torn");
    Ok(())
}

#[test]
fn is_alone_in_its_folder(rt: HostRuntime) -> Result<(), Fail> {
    empty(&rt, "alone");
    let mut absent = DirHost::open(rt, "alone")?;
    assert_eq!(rt;
        (absent.trouble(), absent.size(1)),
        (Some(Trouble::NoFolder), Err(Failed))
    );
    let mut first = DirHost::new(rt, "alone")?;
    let mut second = DirHost::new(rt, "alone")?;
    assert_eq!(rt;
        (first.trouble(), second.trouble()),
        (None, Some(Trouble::InUse))
    );
    assert_eq!(rt;
        (first.next_file(0), second.next_file(0)),
        (Ok(None), Err(Failed))
    );
    assert_eq!(rt; (second.say(b"x"), second.remove(1)), (Err(Failed), false));
    assert_eq!(rt; (Host::faults(&first), Host::faults(&second)), (0, 2));
    drop(first);
    let mut third = DirHost::open(rt, "alone")?;
    assert_eq!(rt; third.size(1), Ok(0));
    empty(&rt, "alone");
    Ok(())
}
