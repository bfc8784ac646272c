ghost use Rattle.std.specs.Prelude.{◌≡◌, ◌≢◌, ◌≤◌, ◌⊎◌, [], true, map, IsTrue, IfOk};
ghost use Rattle.std.specs.String.{string_bytes};
ghost use Rattle.block_host.specs.Disk.{Image, risen};
ghost use Rattle.file_image.specs.NewStore.{IsNewStore};
ghost use Rattle.file_image.specs.Stands.{Stands};
ghost use Rattle.forest_model.specs.State.{new_durable};
ghost use Rattle.host_memory.specs.Memory.{memory_disk, memory_faults, memory_short};
ghost use Rattle.play_run.specs.Seen.{OthersStay};
ghost use Rattle.play_run.specs.Script.{AreWords, HoldsBad, EndsBad, IsGood, MeetsBad, RunsAll};
ghost use Rattle.play_run.specs.Play.{Fails, Leaves, Rests, RunsAndSays, RunsSome, Says, SaysPart, Takes, no_store, source_fault, words_refused};

use block_host::Source;
use file_image::new_store;
use host_memory::MemoryHost;
use play_run::{Played, play};
use std::alloc::{AllocError, Global};

/// A host in memory with a new store. Every image of it stands for commit 0 alone.
pub(crate) fn new_host(alloc: Global) -> Result<MemoryHost, AllocError>
    ensures new { IfOk result (λ host. IsNewStore (memory_disk host).files) }
    ensures stands { IfOk result (λ host. (image : Image) → (memory_disk host).may_leave image → Stands image new_durable) }
    ensures silent { IfOk result (λ host. (memory_disk host).said ≡ []) }
    ensures untroubled { IfOk result (λ host. (memory_faults host ≡ 0) × (memory_short host ≡ 0)) }
{
    let host = MemoryHost::formatted(alloc)?;
    new_store();
    Ok(host)
}

/// Runs the script of a source over what this host in memory holds.
pub(crate) fn play_in_memory<S: Source>(
    alloc: Global,
    words: &[String],
    source: &mut S,
    host: MemoryHost,
) -> Played<MemoryHost>
    // Status 1: the words are refused.
    ensures words { result.status ≡ 1 → ¬ (AreWords (map string_bytes words.now)) }
    ensures refused { ¬ (AreWords (map string_bytes words.now)) → (result.status ≡ 1) ⊎ (result.status ≡ 4) }
    ensures said_refused { result.status ≡ 1 → Says words_refused (memory_disk host) (memory_disk result.host) }

    // Status 7: the host holds no new store.
    ensures no_store { result.status ≡ 7 → ¬ (IsNewStore (memory_disk host).files) }
    ensures not_new { AreWords (map string_bytes words.now) → ¬ (IsNewStore (memory_disk host).files) → (result.status ≡ 7) ⊎ (result.status ≡ 4) }
    ensures said_no_store { result.status ≡ 7 → Says no_store (memory_disk host) (memory_disk result.host) }

    // Status 0: all lines were run.
    ensures all { result.status ≡ 0 → IsTrue S.tells → (S.rest source.new ≡ [])
        × Leaves true (memory_disk host) (memory_disk result.host) (λ first last. RunsAll first last (S.rest source.old)) }

    // Status 2: the source failed, and all whole lines before were run.
    ensures source { result.status ≡ 2 → risen (S.faults source.old) ≤ S.faults source.new }
    ensures said_source { result.status ≡ 2 → IsTrue S.tells
        → Takes (S.rest source.old) (S.rest source.new) (λ taken. Leaves true (memory_disk host) (memory_disk result.host) (RunsAndSays source_fault taken)) }

    // Status 3: all lines before the first bad one were run. It comes where there is one, the other causes aside.
    ensures bad { result.status ≡ 3 → IsTrue S.tells
        → Takes (S.rest source.old) (S.rest source.new) (λ taken. Leaves true (memory_disk host) (memory_disk result.host) (λ first last. MeetsBad first last taken (S.rest source.new))) }
    ensures bad_line { IsTrue S.tells → Takes (S.rest source.old) (S.rest source.new) HoldsBad → (result.status ≡ 3) ⊎ ((result.status ≡ 4) ⊎ (result.status ≡ 5)) }
    ensures bad_end { IsTrue S.tells → Takes (S.rest source.old) (S.rest source.new) (λ taken. EndsBad taken (S.rest source.new))
        → (result.status ≡ 2) ⊎ ((result.status ≡ 3) ⊎ ((result.status ≡ 4) ⊎ (result.status ≡ 5))) }

    // Status 4 comes exactly where the host failed.
    ensures host { result.status ≡ 4 → risen (memory_faults host) ≤ memory_faults result.host }
    ensures untroubled { result.status ≢ 4 → memory_faults result.host ≡ memory_faults host }
    ensures said_host_words { result.status ≡ 4 → ¬ (AreWords (map string_bytes words.now)) → SaysPart words_refused (memory_disk host) (memory_disk result.host) }
    ensures said_host_store { result.status ≡ 4 → AreWords (map string_bytes words.now) → ¬ (IsNewStore (memory_disk host).files) → SaysPart no_store (memory_disk host) (memory_disk result.host) }
    ensures said_host { result.status ≡ 4 → AreWords (map string_bytes words.now) → IsTrue S.tells → IsNewStore (memory_disk host).files
        → Takes (S.rest source.old) (S.rest source.new) (λ taken. Fails true (memory_disk host) (memory_disk result.host) taken (S.rest source.new)) }

    // Status 5: there was no memory, and a prefix of the lines was run; the reply of the last one may lack.
    ensures memory { result.status ≡ 5 → IsTrue S.tells
        → Takes (S.rest source.old) (S.rest source.new) (λ taken. Leaves true (memory_disk host) (memory_disk result.host) (RunsSome taken)) }

    // With every status all files but the current one are as they were.
    ensures aside { OthersStay (memory_disk host) (memory_disk result.host) }

    // Where nothing fails and the script is right, all of it is run.
    ensures complete { AreWords (map string_bytes words.now) → IsTrue S.tells → IsNewStore (memory_disk host).files → IsGood (S.rest source.old)
        → Rests (S.faults source.old) (S.faults source.new) → Rests (memory_faults host) (memory_faults result.host) → (result.status ≡ 0) ⊎ (result.status ≡ 5) }
    ensures statuses { (result.status ≢ 6) × (result.status ≤ 7) }
{
    play(alloc, words, source, host)
}
