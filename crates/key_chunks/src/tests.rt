use super::*;
use std::alloc::Global;
use std::test::*;

/// Whether a key of a store has these chunks behind the store's id, and these give the key back.
fn is_cut(alloc: Global, store: u64, key: &[u8], groups: &[u64]) -> Result<bool, Fail> {
    if key.is_empty() || key.len() > 3500 {
        return Ok(false);
    }
    let list = chunks(alloc, store, key)?;
    let Some((first, others)) = list.as_slice().split_first() else {
        return Ok(false);
    };
    let same = *first == store && others == groups;
    let found = key_of(alloc, list.as_slice())?;
    let Some((id, bytes)) = found else {
        return Ok(false);
    };
    Ok(same && id == store && bytes.as_slice() == key)
}

#[test]
fn short_keys(rt: HostRuntime) -> Result<(), Fail> {
    let alloc = rt.alloc();
    assert!(rt; is_cut(alloc, 0, b"a", &[0x6100_0000_0000_0001])?);
    assert!(rt; is_cut(alloc, 0, b"a\0", &[0x6100_0000_0000_0002])?);
    assert!(rt; is_cut(alloc, 0, b"abcdefg", &[0x6162_6364_6566_6707])?);
    Ok(())
}

#[test]
fn longer_keys(rt: HostRuntime) -> Result<(), Fail> {
    let alloc = rt.alloc();
    let eight = [0x6162_6364_6566_6708, 0x6800_0000_0000_0001];
    assert!(rt; is_cut(alloc, 0, b"abcdefgh", &eight)?);
    let fourteen = [0x6162_6364_6566_6708, 0xFFFF_FFFF_FFFF_FF07];
    assert!(rt;
        is_cut(
            alloc,
            u64::MAX,
            b"abcdefg\xFF\xFF\xFF\xFF\xFF\xFF\xFF",
            &fourteen
        )?
    );
    Ok(())
}

#[test]
fn the_longest_key(rt: HostRuntime) -> Result<(), Fail> {
    let alloc = rt.alloc();
    let key = vec![in alloc; 0; 3500]?;
    let mut groups = vec![in alloc; 8; 499]?;
    groups.push(7)?;
    assert!(rt; is_cut(alloc, 7, key.as_slice(), groups.as_slice())?);
    Ok(())
}

fn is_none(alloc: Global, list: &[u64]) -> Result<bool, Fail> {
    let found = key_of(alloc, list)?;
    Ok(found.is_none())
}

#[test]
fn too_few_or_too_many(rt: HostRuntime) -> Result<(), Fail> {
    let alloc = rt.alloc();
    assert!(rt; is_none(alloc, &[])?);
    assert!(rt; is_none(alloc, &[0])?);
    let mut long = vec![in alloc; 8; 501]?;
    long.push(1)?;
    assert!(rt; is_none(alloc, long.as_slice())?);
    Ok(())
}

#[test]
fn wrong_counts(rt: HostRuntime) -> Result<(), Fail> {
    let alloc = rt.alloc();
    assert!(rt; is_none(alloc, &[0, 0x6100_0000_0000_0000])?);
    assert!(rt; is_none(alloc, &[0, 0x6162_6364_6566_6708])?);
    assert!(rt; is_none(alloc, &[0, 0x6162_6364_6566_6709])?);
    Ok(())
}

#[test]
fn wrong_fillings(rt: HostRuntime) -> Result<(), Fail> {
    let alloc = rt.alloc();
    assert!(rt; is_none(alloc, &[0, 0x6162_0000_0000_0001])?);
    assert!(rt; is_none(alloc, &[0, 0x6162_6364_6566_6707, 0x6800_0000_0000_0001])?);
    assert!(rt; is_none(alloc, &[0, 0x6162_6364_6566_6708, 0x6800_0000_0000_0101])?);
    Ok(())
}
