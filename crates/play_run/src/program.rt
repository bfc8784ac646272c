ghost use Rattle.std.specs.Prelude.{◌≡◌, ◌≢◌, ◌+◌, ◌^◌, ◌<◌, ◌≤◌, ◌⊎◌, [], IsTrue, map, ◌↔◌};
ghost use Rattle.std.specs.Prelude.{nat_eq};
ghost use Rattle.std.specs.Cmp.Lexicographic.{pointwise};
ghost use Rattle.std.specs.String.{string_bytes};
ghost use Rattle.block_host.specs.Disk.{risen};
ghost use Rattle.forest_model.specs.declared.refusal.Refusal.TheVariants.{NoMemory, DiskFault};
ghost use Rattle.play_run.specs.Seen.{OthersStay, seen};
ghost use Rattle.file_image.specs.NewStore.{IsNewStore};
ghost use Rattle.play_run.specs.Progress.{EndsWith, SaysEnd};
ghost use Rattle.play_run.specs.Script.{AreWords, RunsAll, MeetsBad, HoldsBad, EndsBad, IsGood, bad_line};
ghost use Rattle.play_run.specs.Play.{Fails, Leaves, MeetsDamaged, Says, SaysPart, Takes, Rests, RunsAndSays, RunsSome, words_refused, source_fault, no_store, damaged};

use crate::opening::is_new_store;
use crate::player::{Ended, Player};
use arrayvec::ArrayString;
use block_host::{Failed, Host, Source};
use file_open::open_new;
use forest_model::{Limits, Refusal};
use itoa::Buffer;
use std::alloc::Global;

/// The limits without other words: files of up to 2^32 blocks, and a flush from 4,096 entries on.
const USUAL: Limits = Limits {
    max_blocks: 1 << 32,
    threshold: 4096,
};

/// How a program ended, and its host.
#[derive(Debug, Drop)]
pub struct Played<H> {
    /// The exit status, 0 to 7.
    pub status: u8,
    pub host: H,
}

/// Whether a word is this text.
fn is_word(word: &String, text: &str) -> bool
    ensures { result ≡ pointwise nat_eq (string_bytes word.now) text.now }
{
    word.as_str() == text
}

/// Whether these are the words that are taken: `play --memory`.
fn are_words(words: &[String]) -> bool
    ensures { IsTrue result ↔ AreWords (map string_bytes words.now) }
{
    if words.len() != 2 {
        return false;
    }
    let first = is_word(&words[0], "play");
    let second = is_word(&words[1], "--memory");
    first && second
}

/// The text for a bad line of this number. It takes no memory.
fn bad_line_text(number: u64) -> ArrayString<64>
    ensures { result.bytes ≡ bad_line number }
{
    let mut digits = Buffer::new();
    let mut text = ArrayString::new();
    text.push_str("line ");
    text.push_str(digits.format(number));
    text.push_str(": bad line");
    text.push_str("\n");
    text
}

/// The text for a block that isn't as it should be. It takes no memory.
fn damaged_text(file: u64, block: u64) -> ArrayString<64>
    ensures { result.bytes ≡ damaged file block }
{
    let mut digits = Buffer::new();
    let mut text = ArrayString::new();
    text.push_str("damaged ");
    text.push_str(digits.format(file));
    text.push_str(" ");
    text.push_str(digits.format(block));
    text.push_str("\n");
    text
}

/// Says a last text, and ends with a status; with 4 where the host fails.
fn end_with<H: Host>(host: H, text: &[u8], status: u8) -> Played<H>
    requires { status ≢ 4 }
    ensures said { result.status ≢ 4 → IsTrue H.tells → Says text.now (H.disk host) (H.disk result.host) }
    ensures part { result.status ≡ 4 → IsTrue H.tells → SaysPart text.now (H.disk host) (H.disk result.host) }
    ensures status { (result.status ≡ status) ⊎ (result.status ≡ 4) }
    ensures untroubled { result.status ≢ 4 → H.faults result.host ≡ H.faults host }
    ensures fault { result.status ≡ 4 → risen (H.faults host) ≤ H.faults result.host }
    ensures counts { H.faults host ≤ H.faults result.host }
    ensures files { IsTrue H.tells → (H.disk result.host).files ≡ (H.disk host).files }
{
    let mut host = host;
    match host.say(text) {
        Ok(()) => Played { status, host },
        Err(Failed) => Played { status: 4, host },
    }
}

/// Ends as a run of so many lines did.
fn finish<H: Host>(host: H, ended: Ended, count: u64) -> Played<H>
    requires { count + 1 < 2 ^ 64 }
    ensures ends { EndsWith ended result.status }
    ensures said { IsTrue H.tells → SaysEnd ended result.status count (seen (H.disk host)) (seen (H.disk result.host)) }
    ensures host { result.status ≡ 4 → (ended ≡ Ended.HostFault) ⊎ (risen (H.faults host) ≤ H.faults result.host) }
    ensures counts { H.faults host ≤ H.faults result.host }
    ensures untroubled { result.status ≢ 4 → (ended ≢ Ended.HostFault) × (H.faults result.host ≡ H.faults host) }
    ensures files { IsTrue H.tells → (H.disk result.host).files ≡ (H.disk host).files }
{
    match ended {
        Ended::AtEnd => Played { status: 0, host },
        Ended::SourceFault => end_with(host, b"source fault\n", 2),
        Ended::BadLine => {
            let text = bad_line_text(count + 1);
            end_with(host, text.as_str().as_bytes(), 3)
        }
        Ended::Damaged { file, block } => {
            let text = damaged_text(file, block);
            end_with(host, text.as_str().as_bytes(), 6)
        }
        Ended::NoMemory => Played { status: 5, host },
        Ended::HostFault => Played { status: 4, host },
    }
}

/// The status of a store that couldn't be opened.
fn status_of(why: &Refusal) -> u8
    ensures memory { why.now ≡ NoMemory → result ≡ 5 }
    ensures fault { why.now ≡ DiskFault → result ≡ 4 }
{
    match why {
        Refusal::NoMemory => 5,
        _ => 4,
    }
}

/// Runs the script of a source over the new store that the host holds.
fn run_script<S: Source, H: Host>(alloc: Global, source: &mut S, host: H) -> Played<H>
    requires { IsTrue H.tells → IsNewStore (H.disk host).files }
    ensures all { result.status ≡ 0 → IsTrue S.tells → (S.rest source.new ≡ [])
        × Leaves H.tells (H.disk host) (H.disk result.host) (λ first last. RunsAll first last (S.rest source.old)) }
    ensures source { result.status ≡ 2 → risen (S.faults source.old) ≤ S.faults source.new }
    ensures said_source { result.status ≡ 2 → IsTrue S.tells
        → Takes (S.rest source.old) (S.rest source.new) (λ taken. Leaves H.tells (H.disk host) (H.disk result.host) (RunsAndSays source_fault taken)) }
    ensures bad { result.status ≡ 3 → IsTrue S.tells
        → Takes (S.rest source.old) (S.rest source.new) (λ taken. Leaves H.tells (H.disk host) (H.disk result.host) (λ first last. MeetsBad first last taken (S.rest source.new))) }
    ensures bad_line { IsTrue S.tells → Takes (S.rest source.old) (S.rest source.new) HoldsBad → (result.status ≡ 3) ⊎ ((result.status ≡ 4) ⊎ ((result.status ≡ 5) ⊎ (result.status ≡ 6))) }
    ensures bad_end { IsTrue S.tells → Takes (S.rest source.old) (S.rest source.new) (λ taken. EndsBad taken (S.rest source.new)) → (result.status ≡ 2) ⊎ ((result.status ≡ 3) ⊎ ((result.status ≡ 4) ⊎ ((result.status ≡ 5) ⊎ (result.status ≡ 6)))) }
    ensures host { result.status ≡ 4 → risen (H.faults host) ≤ H.faults result.host }
    ensures untroubled { result.status ≢ 4 → H.faults result.host ≡ H.faults host }
    ensures said_host { result.status ≡ 4 → IsTrue S.tells
        → Takes (S.rest source.old) (S.rest source.new) (λ taken. Fails H.tells (H.disk host) (H.disk result.host) taken (S.rest source.new)) }
    ensures memory { result.status ≡ 5 → IsTrue S.tells
        → Takes (S.rest source.old) (S.rest source.new) (λ taken. Leaves H.tells (H.disk host) (H.disk result.host) (RunsSome taken)) }
    ensures complete { IsTrue S.tells → IsTrue H.tells → IsGood (S.rest source.old) → Rests (S.faults source.old) (S.faults source.new)
        → Rests (H.faults host) (H.faults result.host) → (result.status ≡ 0) ⊎ (result.status ≡ 5) }
    ensures damaged { result.status ≡ 6 → ¬ (IsTrue H.tells) }
    ensures said_damaged { result.status ≡ 6 → IsTrue S.tells
        → Takes (S.rest source.old) (S.rest source.new) (λ taken. Leaves H.tells (H.disk host) (H.disk result.host) (MeetsDamaged taken)) }
    ensures aside { IsTrue H.tells → OthersStay (H.disk host) (H.disk result.host) }
    ensures statuses { (result.status ≢ 1) × (result.status ≤ 6) }
{
    let file = match open_new(alloc, host, USUAL) {
        Ok(file) => file,
        Err((why, host)) => {
            return Played {
                status: status_of(&why),
                host,
            };
        }
    };
    let mut player = Player::new(alloc, file);
    let ended = player.run(source);
    let (file, count) = player.close();
    finish(file.close(), ended, count)
}

/// Runs the script of a source over the new store that the host holds, line by line, writes its file, and says one reply
/// line per line. A line is run as soon as it is whole. The words are `play --memory` exactly.
pub fn play<S: Source, H: Host>(
    alloc: Global,
    words: &[String],
    source: &mut S,
    host: H,
) -> Played<H>
    // Status 1: the words are refused, and nothing is read.
    ensures words { result.status ≡ 1 → ¬ (AreWords (map string_bytes words.now)) }
    ensures refused { ¬ (AreWords (map string_bytes words.now)) → (result.status ≡ 1) ⊎ (result.status ≡ 4) }
    ensures said_refused { result.status ≡ 1 → IsTrue H.tells → Says words_refused (H.disk host) (H.disk result.host) }

    // Status 7: the host holds no new store, and nothing is read.
    ensures no_store { result.status ≡ 7 → IsTrue H.tells → ¬ (IsNewStore (H.disk host).files) }
    ensures not_new { AreWords (map string_bytes words.now) → IsTrue H.tells → ¬ (IsNewStore (H.disk host).files) → (result.status ≡ 7) ⊎ (result.status ≡ 4) }
    ensures said_no_store { result.status ≡ 7 → IsTrue H.tells → Says no_store (H.disk host) (H.disk result.host) }

    // Status 0: all lines were run.
    ensures all { result.status ≡ 0 → IsTrue S.tells → (S.rest source.new ≡ [])
        × Leaves H.tells (H.disk host) (H.disk result.host) (λ first last. RunsAll first last (S.rest source.old)) }

    // Status 2: the source failed, and all whole lines before were run.
    ensures source { result.status ≡ 2 → risen (S.faults source.old) ≤ S.faults source.new }
    ensures said_source { result.status ≡ 2 → IsTrue S.tells
        → Takes (S.rest source.old) (S.rest source.new) (λ taken. Leaves H.tells (H.disk host) (H.disk result.host) (RunsAndSays source_fault taken)) }

    // Status 3: all lines before the first bad one were run. It comes where there is one, the other causes aside.
    ensures bad { result.status ≡ 3 → IsTrue S.tells
        → Takes (S.rest source.old) (S.rest source.new) (λ taken. Leaves H.tells (H.disk host) (H.disk result.host) (λ first last. MeetsBad first last taken (S.rest source.new))) }
    ensures bad_line { IsTrue S.tells → Takes (S.rest source.old) (S.rest source.new) HoldsBad → (result.status ≡ 3) ⊎ ((result.status ≡ 4) ⊎ ((result.status ≡ 5) ⊎ (result.status ≡ 6))) }
    ensures bad_end { IsTrue S.tells → Takes (S.rest source.old) (S.rest source.new) (λ taken. EndsBad taken (S.rest source.new)) → (result.status ≡ 2) ⊎ ((result.status ≡ 3) ⊎ ((result.status ≡ 4) ⊎ ((result.status ≡ 5) ⊎ (result.status ≡ 6)))) }

    // Status 4 comes exactly where the host's count rose. A text that was being said may be cut, and a line that was being run may
    // have left its first blocks.
    ensures host { result.status ≡ 4 → risen (H.faults host) ≤ H.faults result.host }
    ensures untroubled { result.status ≢ 4 → H.faults result.host ≡ H.faults host }
    ensures said_host_words { result.status ≡ 4 → ¬ (AreWords (map string_bytes words.now)) → IsTrue H.tells → SaysPart words_refused (H.disk host) (H.disk result.host) }
    ensures said_host_store { result.status ≡ 4 → AreWords (map string_bytes words.now) → IsTrue H.tells → ¬ (IsNewStore (H.disk host).files) → SaysPart no_store (H.disk host) (H.disk result.host) }
    ensures said_host { result.status ≡ 4 → AreWords (map string_bytes words.now) → IsTrue S.tells → IsTrue H.tells → IsNewStore (H.disk host).files
        → Takes (S.rest source.old) (S.rest source.new) (λ taken. Fails H.tells (H.disk host) (H.disk result.host) taken (S.rest source.new)) }

    // Status 5: there was no memory, and a prefix of the lines was run; the reply of the last one may lack.
    ensures memory { result.status ≡ 5 → IsTrue S.tells
        → Takes (S.rest source.old) (S.rest source.new) (λ taken. Leaves H.tells (H.disk host) (H.disk result.host) (RunsSome taken)) }

    // Status 6: a block that was read is no record block as it should be, which is said behind the replies. A host that tells
    // its content has none, for the file of its new store stands.
    ensures damaged { result.status ≡ 6 → ¬ (IsTrue H.tells) }
    ensures said_damaged { result.status ≡ 6 → IsTrue S.tells
        → Takes (S.rest source.old) (S.rest source.new) (λ taken. Leaves H.tells (H.disk host) (H.disk result.host) (MeetsDamaged taken)) }

    // With every status all files but the current one are as they were.
    ensures aside { IsTrue H.tells → OthersStay (H.disk host) (H.disk result.host) }

    // Where nothing fails and the script is right, all of it is run.
    ensures complete { AreWords (map string_bytes words.now) → IsTrue S.tells → IsTrue H.tells → IsNewStore (H.disk host).files → IsGood (S.rest source.old)
        → Rests (S.faults source.old) (S.faults source.new) → Rests (H.faults host) (H.faults result.host) → (result.status ≡ 0) ⊎ (result.status ≡ 5) }
    ensures statuses { result.status ≤ 7 }
{
    if !are_words(words) {
        return end_with(host, b"words refused\n", 1);
    }
    let mut host = host;
    match is_new_store(&mut host) {
        Ok(true) => run_script(alloc, source, host),
        Ok(false) => end_with(host, b"no store\n", 7),
        Err(Failed) => Played { status: 4, host },
    }
}
