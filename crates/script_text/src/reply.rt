ghost use Rattle.std.specs.Prelude.{◌≡◌, ◌++◌, ◌∷◌, [], length, map, OnOk, OnErr, IfOk, codes};
ghost use Rattle.std.specs.List.{flat_map};
ghost use Rattle.std.specs.Fmt.{decimal};
ghost use Rattle.script_text.specs.Words.{spaced, word_of};
ghost use Rattle.script_text.specs.Grammar.{meta_words};
ghost use Rattle.script_text.specs.Replies.{CanBeSaid, HasText, copying_words, refusal_words, reply_spelling, row_words, said_words};

use crate::writer::Writer;
use forest_model::{Bytes, Found, Info, Refusal, Row, Said};
use std::alloc::Global;

/// The one text of a reply of a lane at a place, without its newline. The only refusal is `NoMemory`.
#[tactic(auto, using(crate::proofs::Splitting::spaced_cons))]
pub fn reply_text(alloc: Global, lane: u8, place: u64, reply: &Said) -> Result<Bytes, Refusal>
    requires { CanBeSaid reply.now }
    ensures text { IfOk result (λ text. text ≡ reply_spelling lane place reply.now) }
    ensures memory { OnErr result (result ≡ Err Refusal.NoMemory) }
{
    let mut out = Writer::new(alloc, lane)?;
    out.number(place)?;
    put_said(&mut out, reply)?;
    Ok(out.into_bytes())
}

#[tactic(auto, using(crate::proofs::Splitting::spaced_cons), unfolding(crate::specs::Replies::said_words))]
fn put_said(out: &mut Writer, reply: &Said) -> Result<(), Refusal>
    requires { CanBeSaid reply.now }
    ensures ok { OnOk result (out.new ≡ out.old ++ spaced (said_words reply.now)) }
    ensures memory { OnErr result (result ≡ Err Refusal.NoMemory) }
{
    match reply {
        Said::Using { id } => out.named("using", *id),
        Said::Removed { id } => out.named("removed", *id),
        Said::Done { seq } => out.named("ok", *seq),
        Said::Gone { seq } => out.named("gone", *seq),
        Said::Got { found } => put_got(out, found),
        Said::At { found } => put_at(out, found),
        Said::Committed { number } => out.named("commit", *number),
        Said::MarkersAre { numbers } => put_markers(out, numbers.as_slice()),
        Said::Rolled { number } => out.named("rolled", *number),
        Said::InfoIs { info } => put_info(out, info),
        Said::SnapOpened => out.pair("snap", "opened"),
        Said::SnapClosed => out.pair("snap", "closed"),
        Said::Listed { rows } => put_rows(out, rows.as_slice()),
        Said::Begun { ticket, base } => out.counted("begun", *ticket, *base),
        Said::Copied { count, left } => out.counted("copied", *count, *left),
        Said::Caught { number } => out.named("caught", *number),
        Said::Switched { number } => out.named("switched", *number),
        Said::Cancelled => out.word("cancelled"),
        Said::Refused { why } => put_refused(out, why),
    }
}

#[tactic(auto, using(crate::proofs::Splitting::spaced_cons))]
fn put_got(out: &mut Writer, found: &Found) -> Result<(), Refusal>
    ensures ok { OnOk result (out.new ≡ out.old ++ spaced (codes "found" ∷ decimal found.now.seq ∷ word_of found.now.body ∷ meta_words found.now.meta)) }
    ensures memory { OnErr result (result ≡ Err Refusal.NoMemory) }
{
    out.named("found", found.seq)?;
    out.text(found.body.as_slice())?;
    out.meta(found.meta.as_slice())
}

#[tactic(auto, using(crate::proofs::Splitting::spaced_cons))]
fn put_at(out: &mut Writer, found: &Found) -> Result<(), Refusal>
    ensures ok { OnOk result (out.new ≡ out.old ++ spaced (codes "at" ∷ decimal found.now.seq ∷ word_of found.now.key ∷ word_of found.now.body ∷ meta_words found.now.meta)) }
    ensures memory { OnErr result (result ≡ Err Refusal.NoMemory) }
{
    out.named("at", found.seq)?;
    out.text(found.key.as_slice())?;
    out.text(found.body.as_slice())?;
    out.meta(found.meta.as_slice())
}

#[tactic(auto, using(crate::proofs::Splitting::spaced_cons))]
fn put_info(out: &mut Writer, info: &Info) -> Result<(), Refusal>
    ensures ok { OnOk result (out.new ≡ out.old ++ spaced (codes "info" ∷ decimal info.now.commit ∷ decimal info.now.seq ∷ decimal info.now.documents ∷ copying_words info.now.ticket)) }
    ensures memory { OnErr result (result ≡ Err Refusal.NoMemory) }
{
    out.named("info", info.commit)?;
    out.number(info.seq)?;
    out.number(info.documents)?;
    put_copying(out, info.ticket)
}

#[tactic(auto, unfolding(crate::specs::Replies::copying_words))]
fn put_copying(out: &mut Writer, ticket: u64) -> Result<(), Refusal>
    ensures ok { OnOk result (out.new ≡ out.old ++ spaced (copying_words ticket)) }
    ensures memory { OnErr result (result ≡ Err Refusal.NoMemory) }
{
    if ticket == 0 {
        return out.word("idle");
    }
    out.named("copying", ticket)
}

fn put_markers(out: &mut Writer, numbers: &[u64]) -> Result<(), Refusal>
    ensures ok { OnOk result (out.new ≡ out.old ++ spaced (codes "markers" ∷ map decimal numbers.now)) }
    ensures memory { OnErr result (result ≡ Err Refusal.NoMemory) }
{
    out.word("markers")?;
    for number in numbers {
        out.number(*number)?;
    }
    Ok(())
}

fn put_rows(out: &mut Writer, rows: &[Row]) -> Result<(), Refusal>
    ensures ok { OnOk result (out.new ≡ out.old ++ spaced (codes "list" ∷ decimal (length rows.now) ∷ flat_map row_words rows.now)) }
    ensures memory { OnErr result (result ≡ Err Refusal.NoMemory) }
{
    out.named("list", rows.len() as u64)?;
    for row in rows {
        put_row(out, row)?;
    }
    Ok(())
}

#[tactic(auto, using(crate::proofs::Splitting::spaced_cons))]
fn put_row(out: &mut Writer, row: &Row) -> Result<(), Refusal>
    ensures ok { OnOk result (out.new ≡ out.old ++ spaced (row_words row.now)) }
    ensures memory { OnErr result (result ≡ Err Refusal.NoMemory) }
{
    out.text(row.key.as_slice())?;
    out.number(row.seq)
}

#[tactic(auto, using(crate::proofs::Splitting::spaced_cons))]
fn put_refused(out: &mut Writer, why: &Refusal) -> Result<(), Refusal>
    requires { HasText why.now }
    ensures ok { OnOk result (out.new ≡ out.old ++ spaced (codes "refused" ∷ refusal_words why.now)) }
    ensures memory { OnErr result (result ≡ Err Refusal.NoMemory) }
{
    out.word("refused")?;
    put_refusal(out, why)
}

#[tactic(auto, using(crate::proofs::Splitting::spaced_cons), unfolding(crate::specs::Replies::refusal_words))]
fn put_refusal(out: &mut Writer, why: &Refusal) -> Result<(), Refusal>
    requires { HasText why.now }
    ensures ok { OnOk result (out.new ≡ out.old ++ spaced (refusal_words why.now)) }
    ensures memory { OnErr result (result ≡ Err Refusal.NoMemory) }
{
    match *why {
        Refusal::NotFound => out.word("not-found"),
        Refusal::NoCommit => out.word("no-commit"),
        Refusal::ReadOnly => out.word("read-only"),
        Refusal::KeyLength => out.word("key-length"),
        Refusal::BodyLength => out.word("body-length"),
        Refusal::Compacting { ticket } => out.named("compacting", ticket),
        Refusal::NoTicket {
            asked,
            now: running,
        } => out.counted("no-ticket", asked, running),
        Refusal::FileFull { used, needed, max } => put_full(out, used, needed, max),
        Refusal::NoStore => out.word("no-store"),
        Refusal::StoreCount => out.word("store-count"),
        Refusal::NameForm => out.word("name-form"),
        Refusal::NotCopied { left } => out.named("not-copied", left),
        Refusal::Worn => out.word("worn"),
        Refusal::NoSnapshot => out.word("no-snapshot"),
        Refusal::DiskFault
        | Refusal::NoMemory
        | Refusal::Stopped { .. }
        | Refusal::Damaged { .. }
        | Refusal::Exists => unreachable!(),
    }
}

#[tactic(auto, using(crate::proofs::Splitting::spaced_cons))]
fn put_full(out: &mut Writer, used: u64, needed: u64, max: u64) -> Result<(), Refusal>
    ensures ok { OnOk result (out.new ≡ out.old ++ spaced (codes "full" ∷ decimal used ∷ decimal needed ∷ decimal max ∷ [])) }
    ensures memory { OnErr result (result ≡ Err Refusal.NoMemory) }
{
    out.counted("full", used, needed)?;
    out.number(max)
}
