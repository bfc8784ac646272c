ghost use Rattle.std.specs.Prelude.{◌≡◌, ◌++◌, ◌∷◌, [], OnOk, OnErr, IfOk, codes};
ghost use Rattle.std.specs.List.{flat_map};
ghost use Rattle.std.specs.Fmt.{decimal};
ghost use Rattle.script_text.specs.Words.{spaced, word_of};
ghost use Rattle.script_text.specs.Grammar.{direction, item_words, meta_words, spelling, verb_words};

use crate::writer::Writer;
use forest_model::{Bytes, Item, Line, Refusal, Verb};
use std::alloc::Global;

/// The one text of a line, without its newline. The only refusal is `NoMemory`.
pub fn text_of(alloc: Global, line: &Line) -> Result<Bytes, Refusal>
    ensures text { IfOk result (λ text. text ≡ spelling line.now) }
    ensures memory { OnErr result (result ≡ Err Refusal.NoMemory) }
{
    let mut out = Writer::new(alloc, line.lane)?;
    put_verb(&mut out, &line.verb)?;
    Ok(out.into_bytes())
}

#[tactic(auto, using(crate::proofs::Splitting::spaced_cons), unfolding(crate::specs::Grammar::verb_words))]
fn put_verb(out: &mut Writer, verb: &Verb) -> Result<(), Refusal>
    ensures ok { OnOk result (out.new ≡ out.old ++ spaced (verb_words verb.now)) }
    ensures memory { OnErr result (result ≡ Err Refusal.NoMemory) }
{
    match verb {
        Verb::UseStore { name, read_only } => put_use(out, name.as_slice(), *read_only),
        Verb::Remove { name } => out.keyed("remove", name.as_slice()),
        Verb::Set { key, meta, body } => {
            put_set(out, key.as_slice(), meta.as_slice(), body.as_slice())
        }
        Verb::Del { key } => out.keyed("del", key.as_slice()),
        Verb::Batch { items } => put_items(out, items.as_slice()),
        Verb::Get { key } => out.keyed("get", key.as_slice()),
        Verb::BySeq { seq } => out.named("byseq", *seq),
        Verb::Commit => out.word("commit"),
        Verb::Markers => out.word("markers"),
        Verb::Rollback { number } => out.named("rollback", *number),
        Verb::Info => out.word("info"),
        Verb::SnapLatest => out.pair("snap", "latest"),
        Verb::SnapAt { seq } => put_snap_number(out, "at", *seq),
        Verb::SnapGet { key } => put_snap_get(out, key.as_slice()),
        Verb::SnapBySeq { seq } => put_snap_number(out, "byseq", *seq),
        Verb::SnapClose => out.pair("snap", "close"),
        Verb::Scan { up, from, count } => put_scan(out, *up, from.as_slice(), *count),
        Verb::Seqs { up, from, count } => put_seqs(out, *up, *from, *count),
        Verb::CompactBegin => out.pair("compact", "begin"),
        Verb::CompactCopy { count } => put_compact_copy(out, *count),
        Verb::CompactDelta => out.pair("compact", "delta"),
        Verb::CompactSwitch => out.pair("compact", "switch"),
        Verb::CompactCancel => out.pair("compact", "cancel"),
        Verb::Compact => out.word("compact"),
    }
}

#[tactic(auto, using(crate::proofs::Splitting::spaced_cons), unfolding(crate::specs::Grammar::verb_words))]
fn put_use(out: &mut Writer, name: &[u8], read_only: bool) -> Result<(), Refusal>
    ensures ok { OnOk result (out.new ≡ out.old ++ spaced (verb_words (Verb.UseStore name.now read_only))) }
    ensures memory { OnErr result (result ≡ Err Refusal.NoMemory) }
{
    out.keyed("use", name)?;
    if read_only {
        return out.word("ro");
    }
    Ok(())
}

#[tactic(auto, using(crate::proofs::Splitting::spaced_cons))]
fn put_set(out: &mut Writer, key: &[u8], meta: &[u8], body: &[u8]) -> Result<(), Refusal>
    ensures ok { OnOk result (out.new ≡ out.old ++ spaced (codes "set" ∷ word_of key.now ∷ word_of body.now ∷ meta_words meta.now)) }
    ensures memory { OnErr result (result ≡ Err Refusal.NoMemory) }
{
    out.keyed("set", key)?;
    out.text(body)?;
    out.meta(meta)
}

fn put_items(out: &mut Writer, items: &[Item]) -> Result<(), Refusal>
    ensures ok { OnOk result (out.new ≡ out.old ++ spaced (codes "batch" ∷ flat_map item_words items.now)) }
    ensures memory { OnErr result (result ≡ Err Refusal.NoMemory) }
{
    out.word("batch")?;
    for item in items {
        put_item(out, item)?;
    }
    Ok(())
}

#[tactic(auto, unfolding(crate::specs::Grammar::item_words))]
fn put_item(out: &mut Writer, item: &Item) -> Result<(), Refusal>
    ensures ok { OnOk result (out.new ≡ out.old ++ spaced (item_words item.now)) }
    ensures memory { OnErr result (result ≡ Err Refusal.NoMemory) }
{
    match item {
        Item::Put { key, meta, body } => {
            put_put(out, key.as_slice(), meta.as_slice(), body.as_slice())
        }
        Item::Del { key } => out.keyed("del", key.as_slice()),
    }
}

#[tactic(auto, using(crate::proofs::Splitting::spaced_cons))]
fn put_put(out: &mut Writer, key: &[u8], meta: &[u8], body: &[u8]) -> Result<(), Refusal>
    ensures ok { OnOk result (out.new ≡ out.old ++ spaced (codes "put" ∷ word_of key.now ∷ word_of body.now ∷ word_of meta.now ∷ [])) }
    ensures memory { OnErr result (result ≡ Err Refusal.NoMemory) }
{
    out.keyed("put", key)?;
    out.text(body)?;
    out.text(meta)
}

#[tactic(auto, using(crate::proofs::Splitting::spaced_cons))]
fn put_snap_number(out: &mut Writer, name: &str, number: u64) -> Result<(), Refusal>
    ensures ok { OnOk result (out.new ≡ out.old ++ spaced (codes "snap" ∷ name.now ∷ decimal number ∷ [])) }
    ensures memory { OnErr result (result ≡ Err Refusal.NoMemory) }
{
    out.pair("snap", name)?;
    out.number(number)
}

#[tactic(auto, using(crate::proofs::Splitting::spaced_cons))]
fn put_snap_get(out: &mut Writer, key: &[u8]) -> Result<(), Refusal>
    ensures ok { OnOk result (out.new ≡ out.old ++ spaced (codes "snap" ∷ codes "get" ∷ word_of key.now ∷ [])) }
    ensures memory { OnErr result (result ≡ Err Refusal.NoMemory) }
{
    out.pair("snap", "get")?;
    out.text(key)
}

fn direction(up: bool) -> &'static str
    ensures { result.now ≡ direction up }
{
    if up { "up" } else { "down" }
}

#[tactic(auto, using(crate::proofs::Splitting::spaced_cons))]
fn put_scan(out: &mut Writer, up: bool, from: &[u8], count: u64) -> Result<(), Refusal>
    ensures ok { OnOk result (out.new ≡ out.old ++ spaced (codes "scan" ∷ direction up ∷ word_of from.now ∷ decimal count ∷ [])) }
    ensures memory { OnErr result (result ≡ Err Refusal.NoMemory) }
{
    out.pair("scan", direction(up))?;
    out.text(from)?;
    out.number(count)
}

#[tactic(auto, using(crate::proofs::Splitting::spaced_cons))]
fn put_seqs(out: &mut Writer, up: bool, from: u64, count: u64) -> Result<(), Refusal>
    ensures ok { OnOk result (out.new ≡ out.old ++ spaced (codes "seqs" ∷ direction up ∷ decimal from ∷ decimal count ∷ [])) }
    ensures memory { OnErr result (result ≡ Err Refusal.NoMemory) }
{
    out.pair("seqs", direction(up))?;
    out.number(from)?;
    out.number(count)
}

#[tactic(auto, using(crate::proofs::Splitting::spaced_cons))]
fn put_compact_copy(out: &mut Writer, count: u64) -> Result<(), Refusal>
    ensures ok { OnOk result (out.new ≡ out.old ++ spaced (codes "compact" ∷ codes "copy" ∷ decimal count ∷ [])) }
    ensures memory { OnErr result (result ≡ Err Refusal.NoMemory) }
{
    out.pair("compact", "copy")?;
    out.number(count)
}
