ghost use Rattle.std.specs.Prelude.{false, ◌≡◌, ◌≢◌, ◌≤◌, IsTrue, IfOk, IfErr, OnOk, Err, length};
ghost use Rattle.forest_model.specs.Blocks.{File};
ghost use Rattle.forest_model.specs.declared.line.Verb.TheVariants as Verb;
ghost use Rattle.forest_model.specs.declared.line.Said.TheVariants as Said;
ghost use Rattle.forest_model.specs.declared.refusal.Refusal.TheVariants as Refusal;
ghost use Rattle.forest_model.specs.declared.state.State.{State};
ghost use Rattle.play_run.specs.declared.player.Ended.TheVariants as Ended;
ghost use Rattle.script_text.specs.Grammar.{IsRightVerb};
ghost use Rattle.script_text.specs.Replies.{CanBeSaid};
ghost use Rattle.play_run.specs.Built.{is_built_verb};
ghost use Rattle.play_run.specs.Playing.{Answers, StandsFor, opened, disk_of};
ghost use Rattle.play_run.specs.Progress.{FaultsAfter, IsStop, Spares, faults_of};
ghost use Rattle.play_run.specs.Refused.{said_or_ended};

use crate::player::Ended;
use block_host::Host;
use file_commit::commit;
use file_core::FileState;
use forest_model::{Bytes, Items, Refusal, Said, StoreRef, Verb};

/// Whether lines with this verb are run.
pub(crate) fn is_built(verb: &Verb) -> bool
    ensures { result ≡ is_built_verb verb.now }
{
    matches!(
        verb,
        Verb::UseStore { .. }
            | Verb::Remove { .. }
            | Verb::Set { .. }
            | Verb::Del { .. }
            | Verb::Batch { .. }
            | Verb::Get { .. }
            | Verb::BySeq { .. }
            | Verb::Commit
            | Verb::Info
    )
}

/// Runs the verb of a lane that is at a store, and gives what is said for it. The lane is at its store after it.
pub(crate) fn run<H: Host>(
    file: &mut FileState<H>,
    at: &mut StoreRef,
    verb: &Verb,
) -> Result<Said, Ended>
    requires built { IsTrue (is_built_verb verb.now) }
    requires right { IsRightVerb false verb.now }
    requires somewhere { (s : State) × (f : File) × StandsFor H.tells (opened file.old.parts) s f }
    ensures answers { IfOk result (Answers H.tells verb.now at.old at.new
        (opened file.old.parts)
        (opened file.new.parts)) }
    ensures spelled { IfOk result CanBeSaid }
    ensures stop { IfErr result (IsStop H.tells) }
    ensures line { result ≢ Err Ended.BadLine }
    ensures spares { IsTrue H.tells → Spares file.old.parts.revision (disk_of file.old.parts) (disk_of file.new.parts) }
    ensures settled { IfErr result (λ why. why ≢ Ended.HostFault → IsTrue H.tells → (disk_of file.new.parts).files ≡ (disk_of file.old.parts).files) }
    ensures untroubled { OnOk result ((H.faults file.new.parts.host ≡ H.faults file.old.parts.host) × (H.View.faults file.new.parts.view ≡ H.View.faults file.old.parts.view)) }
    ensures faults { IfErr result (λ why. FaultsAfter why (faults_of file.old.parts)
        (faults_of file.new.parts)) }
{
    match verb {
        Verb::UseStore { name, read_only } => use_store(file, at, name, *read_only),
        Verb::Remove { name } => remove(file, at, name),
        Verb::Set { key, meta, body } => set(file, at, key, meta, body),
        Verb::Del { key } => del(file, at, key),
        Verb::Batch { items } => batch(file, at, items),
        Verb::Get { key } => get(file, at, key),
        Verb::BySeq { seq } => by_seq(file, at, *seq),
        Verb::Info => info(file, at),
        Verb::Commit => commit_now(file, at),
        // `built` has no other.
        _ => unreachable!(),
    }
}

// The store of a name becomes the lane's.
fn use_store<H: Host>(
    file: &mut FileState<H>,
    at: &mut StoreRef,
    name: &Bytes,
    read_only: bool,
) -> Result<Said, Ended>
    requires somewhere { (s : State) × (f : File) × StandsFor H.tells (opened file.old.parts) s f }
    ensures answers { IfOk result (Answers H.tells (Verb.UseStore name.now read_only) at.old at.new
        (opened file.old.parts)
        (opened file.new.parts)) }
    ensures spelled { IfOk result CanBeSaid }
    ensures stop { IfErr result (IsStop H.tells) }
    ensures line { result ≢ Err Ended.BadLine }
    ensures spares { IsTrue H.tells → Spares file.old.parts.revision (disk_of file.old.parts) (disk_of file.new.parts) }
    ensures settled { IfErr result (λ why. why ≢ Ended.HostFault → IsTrue H.tells → (disk_of file.new.parts).files ≡ (disk_of file.old.parts).files) }
    ensures untroubled { OnOk result ((H.faults file.new.parts.host ≡ H.faults file.old.parts.host) × (H.View.faults file.new.parts.view ≡ H.View.faults file.old.parts.view)) }
    ensures faults { IfErr result (λ why. FaultsAfter why (faults_of file.old.parts)
        (faults_of file.new.parts)) }
{
    match file.store_open(name.as_slice(), read_only) {
        Ok(opened) => {
            *at = opened;
            Ok(Said::Using { id: opened.store })
        },
        Err(why) => refused(why),
    }
}

fn remove<H: Host>(file: &mut FileState<H>, at: &StoreRef, name: &Bytes) -> Result<Said, Ended>
    requires somewhere { (s : State) × (f : File) × StandsFor H.tells (opened file.old.parts) s f }
    ensures answers { IfOk result (Answers H.tells (Verb.Remove name.now) at.now at.now
        (opened file.old.parts)
        (opened file.new.parts)) }
    ensures spelled { IfOk result CanBeSaid }
    ensures stop { IfErr result (IsStop H.tells) }
    ensures line { result ≢ Err Ended.BadLine }
    ensures spares { IsTrue H.tells → Spares file.old.parts.revision (disk_of file.old.parts) (disk_of file.new.parts) }
    ensures settled { IfErr result (λ why. why ≢ Ended.HostFault → IsTrue H.tells → (disk_of file.new.parts).files ≡ (disk_of file.old.parts).files) }
    ensures untroubled { OnOk result ((H.faults file.new.parts.host ≡ H.faults file.old.parts.host) × (H.View.faults file.new.parts.view ≡ H.View.faults file.old.parts.view)) }
    ensures faults { IfErr result (λ why. FaultsAfter why (faults_of file.old.parts)
        (faults_of file.new.parts)) }
{
    match file.store_remove(at, name.as_slice()) {
        Ok(id) => Ok(Said::Removed { id }),
        Err(why) => refused(why),
    }
}

fn set<H: Host>(
    file: &mut FileState<H>,
    at: &StoreRef,
    key: &Bytes,
    meta: &Bytes,
    body: &Bytes,
) -> Result<Said, Ended>
    requires somewhere { (s : State) × (f : File) × StandsFor H.tells (opened file.old.parts) s f }
    ensures answers { IfOk result (Answers H.tells (Verb.Set key.now meta.now body.now) at.now at.now
        (opened file.old.parts)
        (opened file.new.parts)) }
    ensures spelled { IfOk result CanBeSaid }
    ensures stop { IfErr result (IsStop H.tells) }
    ensures line { result ≢ Err Ended.BadLine }
    ensures spares { IsTrue H.tells → Spares file.old.parts.revision (disk_of file.old.parts) (disk_of file.new.parts) }
    ensures settled { IfErr result (λ why. why ≢ Ended.HostFault → IsTrue H.tells → (disk_of file.new.parts).files ≡ (disk_of file.old.parts).files) }
    ensures untroubled { OnOk result ((H.faults file.new.parts.host ≡ H.faults file.old.parts.host) × (H.View.faults file.new.parts.view ≡ H.View.faults file.old.parts.view)) }
    ensures faults { IfErr result (λ why. FaultsAfter why (faults_of file.old.parts)
        (faults_of file.new.parts)) }
{
    match file.set(at, key.as_slice(), meta.as_slice(), body.as_slice()) {
        Ok(seq) => Ok(Said::Done { seq }),
        Err(why) => refused(why),
    }
}

fn del<H: Host>(file: &mut FileState<H>, at: &StoreRef, key: &Bytes) -> Result<Said, Ended>
    requires somewhere { (s : State) × (f : File) × StandsFor H.tells (opened file.old.parts) s f }
    ensures answers { IfOk result (Answers H.tells (Verb.Del key.now) at.now at.now
        (opened file.old.parts)
        (opened file.new.parts)) }
    ensures spelled { IfOk result CanBeSaid }
    ensures stop { IfErr result (IsStop H.tells) }
    ensures line { result ≢ Err Ended.BadLine }
    ensures spares { IsTrue H.tells → Spares file.old.parts.revision (disk_of file.old.parts) (disk_of file.new.parts) }
    ensures settled { IfErr result (λ why. why ≢ Ended.HostFault → IsTrue H.tells → (disk_of file.new.parts).files ≡ (disk_of file.old.parts).files) }
    ensures untroubled { OnOk result ((H.faults file.new.parts.host ≡ H.faults file.old.parts.host) × (H.View.faults file.new.parts.view ≡ H.View.faults file.old.parts.view)) }
    ensures faults { IfErr result (λ why. FaultsAfter why (faults_of file.old.parts)
        (faults_of file.new.parts)) }
{
    match file.delete(at, key.as_slice()) {
        Ok(seq) => Ok(Said::Gone { seq }),
        Err(why) => refused(why),
    }
}

fn batch<H: Host>(file: &mut FileState<H>, at: &StoreRef, items: &Items) -> Result<Said, Ended>
    requires somewhere { (s : State) × (f : File) × StandsFor H.tells (opened file.old.parts) s f }
    requires some { 1 ≤ length items.now }
    requires few { length items.now ≤ 1024 }
    ensures answers { IfOk result (Answers H.tells (Verb.Batch items.now) at.now at.now
        (opened file.old.parts)
        (opened file.new.parts)) }
    ensures spelled { IfOk result CanBeSaid }
    ensures stop { IfErr result (IsStop H.tells) }
    ensures line { result ≢ Err Ended.BadLine }
    ensures spares { IsTrue H.tells → Spares file.old.parts.revision (disk_of file.old.parts) (disk_of file.new.parts) }
    ensures settled { IfErr result (λ why. why ≢ Ended.HostFault → IsTrue H.tells → (disk_of file.new.parts).files ≡ (disk_of file.old.parts).files) }
    ensures untroubled { OnOk result ((H.faults file.new.parts.host ≡ H.faults file.old.parts.host) × (H.View.faults file.new.parts.view ≡ H.View.faults file.old.parts.view)) }
    ensures faults { IfErr result (λ why. FaultsAfter why (faults_of file.old.parts)
        (faults_of file.new.parts)) }
{
    match file.batch(at, items.as_slice()) {
        Ok(seq) => Ok(Said::Done { seq }),
        Err(why) => refused(why),
    }
}

fn get<H: Host>(file: &mut FileState<H>, at: &StoreRef, key: &Bytes) -> Result<Said, Ended>
    requires somewhere { (s : State) × (f : File) × StandsFor H.tells (opened file.old.parts) s f }
    ensures answers { IfOk result (Answers H.tells (Verb.Get key.now) at.now at.now
        (opened file.old.parts)
        (opened file.new.parts)) }
    ensures spelled { IfOk result CanBeSaid }
    ensures stop { IfErr result (IsStop H.tells) }
    ensures line { result ≢ Err Ended.BadLine }
    ensures spares { IsTrue H.tells → Spares file.old.parts.revision (disk_of file.old.parts) (disk_of file.new.parts) }
    ensures settled { IfErr result (λ why. why ≢ Ended.HostFault → IsTrue H.tells → (disk_of file.new.parts).files ≡ (disk_of file.old.parts).files) }
    ensures untroubled { OnOk result ((H.faults file.new.parts.host ≡ H.faults file.old.parts.host) × (H.View.faults file.new.parts.view ≡ H.View.faults file.old.parts.view)) }
    ensures faults { IfErr result (λ why. FaultsAfter why (faults_of file.old.parts)
        (faults_of file.new.parts)) }
{
    match file.get(at, key.as_slice()) {
        Ok(found) => Ok(Said::Got { found }),
        Err(why) => refused(why),
    }
}

fn by_seq<H: Host>(file: &mut FileState<H>, at: &StoreRef, seq: u64) -> Result<Said, Ended>
    requires somewhere { (s : State) × (f : File) × StandsFor H.tells (opened file.old.parts) s f }
    ensures answers { IfOk result (Answers H.tells (Verb.BySeq seq) at.now at.now
        (opened file.old.parts)
        (opened file.new.parts)) }
    ensures spelled { IfOk result CanBeSaid }
    ensures stop { IfErr result (IsStop H.tells) }
    ensures line { result ≢ Err Ended.BadLine }
    ensures spares { IsTrue H.tells → Spares file.old.parts.revision (disk_of file.old.parts) (disk_of file.new.parts) }
    ensures settled { IfErr result (λ why. why ≢ Ended.HostFault → IsTrue H.tells → (disk_of file.new.parts).files ≡ (disk_of file.old.parts).files) }
    ensures untroubled { OnOk result ((H.faults file.new.parts.host ≡ H.faults file.old.parts.host) × (H.View.faults file.new.parts.view ≡ H.View.faults file.old.parts.view)) }
    ensures faults { IfErr result (λ why. FaultsAfter why (faults_of file.old.parts)
        (faults_of file.new.parts)) }
{
    match file.by_seq(at, seq) {
        Ok(found) => Ok(Said::At { found }),
        Err(why) => refused(why),
    }
}

fn info<H: Host>(file: &mut FileState<H>, at: &StoreRef) -> Result<Said, Ended>
    requires somewhere { (s : State) × (f : File) × StandsFor H.tells (opened file.old.parts) s f }
    ensures answers { IfOk result (Answers H.tells (Verb.Info) at.now at.now
        (opened file.old.parts)
        (opened file.new.parts)) }
    ensures spelled { IfOk result CanBeSaid }
    ensures stop { IfErr result (IsStop H.tells) }
    ensures line { result ≢ Err Ended.BadLine }
    ensures spares { IsTrue H.tells → Spares file.old.parts.revision (disk_of file.old.parts) (disk_of file.new.parts) }
    ensures settled { IfErr result (λ why. why ≢ Ended.HostFault → IsTrue H.tells → (disk_of file.new.parts).files ≡ (disk_of file.old.parts).files) }
    ensures untroubled { OnOk result ((H.faults file.new.parts.host ≡ H.faults file.old.parts.host) × (H.View.faults file.new.parts.view ≡ H.View.faults file.old.parts.view)) }
    ensures faults { IfErr result (λ why. FaultsAfter why (faults_of file.old.parts)
        (faults_of file.new.parts)) }
{
    match file.info(at) {
        Ok(info) => Ok(Said::InfoIs { info }),
        Err(why) => refused(why),
    }
}

fn commit_now<H: Host>(file: &mut FileState<H>, at: &StoreRef) -> Result<Said, Ended>
    requires somewhere { (s : State) × (f : File) × StandsFor H.tells (opened file.old.parts) s f }
    ensures answers { IfOk result (Answers H.tells (Verb.Commit) at.now at.now
        (opened file.old.parts)
        (opened file.new.parts)) }
    ensures spelled { IfOk result CanBeSaid }
    ensures stop { IfErr result (IsStop H.tells) }
    ensures line { result ≢ Err Ended.BadLine }
    ensures spares { IsTrue H.tells → Spares file.old.parts.revision (disk_of file.old.parts) (disk_of file.new.parts) }
    ensures settled { IfErr result (λ why. why ≢ Ended.HostFault → IsTrue H.tells → (disk_of file.new.parts).files ≡ (disk_of file.old.parts).files) }
    ensures untroubled { OnOk result ((H.faults file.new.parts.host ≡ H.faults file.old.parts.host) × (H.View.faults file.new.parts.view ≡ H.View.faults file.old.parts.view)) }
    ensures faults { IfErr result (λ why. FaultsAfter why (faults_of file.old.parts)
        (faults_of file.new.parts)) }
{
    match commit(file, at) {
        Ok(number) => Ok(Said::Committed { number }),
        Err(why) => refused(why),
    }
}

// A refusal as it is said. Want of memory, a fault and a damaged block end the run.
fn refused(why: Refusal) -> Result<Said, Ended>
    ensures exact { result ≡ said_or_ended why }
{
    match why {
        Refusal::NoMemory => Err(Ended::NoMemory),
        Refusal::Damaged { file, block } => Err(Ended::Damaged { file, block }),
        Refusal::DiskFault | Refusal::Stopped { .. } | Refusal::Exists => Err(Ended::HostFault),
        why => Ok(Said::Refused { why }),
    }
}
