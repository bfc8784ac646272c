ghost use Rattle.std.specs.Prelude.{◌≡◌, ◌≢◌, ◌+◌, ◌-◌, ◌^◌, ◌<◌, ◌≤◌, ℕ, List, [], ◌∷◌, ◌++◌, IsTrue, length, IfOk, IfErr, OnOk, OnErr};
ghost use Rattle.block_host.specs.Disk.{risen};
ghost use Rattle.script_text.specs.Replies.{CanBeSaid};
ghost use Rattle.play_run.specs.Script.{IsText, IsBad, reply_line};
ghost use Rattle.forest_model.specs.Blocks.{File};
ghost use Rattle.forest_model.specs.State.{new_state, usual_limits};
ghost use Rattle.play_run.specs.Seen.{Seen, OthersStay};
ghost use Rattle.play_run.specs.Playing.{IsSomewhere, StandsFor, disk_of, opened, position, seen_of};
ghost use Rattle.play_run.specs.Progress.{HasRun, HasTaken, Stops, StopsText, IsStop, IsSound, FaultsAfter, RunsText, Feeds, EndsBy, Spares, faults_of};

use crate::session::Session;
use block_host::{Failed, Host, Source};
use file_core::FileState;
use forest_model::Told;
use script_text::{line_of, one_spelling, reply_text};
use std::alloc::Global;

/// The greatest number of bytes of a script, 64 MiB.
pub const SCRIPT_LIMIT: usize = 67_108_864;

/// How many bytes are read at once, at most.
const ROOM: usize = 8192;

/// Why the run of a script has ended.
#[derive(Clone, Copy, Debug, PartialEq, Eq)]
pub(crate) enum Ended {
    /// The input was read to its end.
    AtEnd,
    /// The source failed.
    SourceFault,
    /// The line behind those that were run is bad.
    BadLine,
    /// There was no memory.
    NoMemory,
    /// The host failed.
    HostFault,
    /// A block that was read is no record block as it should be.
    Damaged { file: u64, block: u64 },
}

/// A script that is run while it is read: the lanes over the open file, and the line that isn't whole yet.
pub(crate) struct Player<H: Host> {
    alloc: Global,
    pub(crate) session: Session<H>,
    open_line: Vec<u8>,
    /// How many lines were run.
    pub(crate) count: u64,
}

/// Runs the line of a text, and gives what is told for it.
fn told_for<H: Host>(alloc: Global, session: &mut Session<H>, text: &[u8]) -> Result<Told, Ended>
    requires somewhere { IsSomewhere H.tells (position session.old.file.parts session.old.lanes) }
    ensures runs { IfOk result (RunsText H.tells text.now
        (position session.old.file.parts session.old.lanes)
        (position session.new.file.parts session.new.lanes)
        (seen_of session.old.file.parts) (seen_of session.new.file.parts)) }
    ensures spelled { IfOk result (λ t. CanBeSaid t.said) }
    ensures bad { result ≡ Err Ended.BadLine → IsBad text.now × (IsTrue H.tells → seen_of session.new.file.parts ≡ seen_of session.old.file.parts) }
    ensures stop { IfErr result (IsStop H.tells) }
    ensures silent { IsTrue H.tells → (disk_of session.new.file.parts).said ≡ (disk_of session.old.file.parts).said }
    ensures spares { IsTrue H.tells → Spares 1 (disk_of session.old.file.parts) (disk_of session.new.file.parts) }
    ensures settled { IfErr result (λ why. why ≢ Ended.HostFault → IsTrue H.tells → seen_of session.new.file.parts ≡ seen_of session.old.file.parts) }
    ensures untroubled { OnOk result ((H.faults session.new.file.parts.host ≡ H.faults session.old.file.parts.host) × (H.View.faults session.new.file.parts.view ≡ H.View.faults session.old.file.parts.view)) }
    ensures faults { IfErr result (λ why. FaultsAfter why (faults_of session.old.file.parts)
        (faults_of session.new.file.parts)) }
{
    let line = match line_of(alloc, text, false) {
        Ok(Some(line)) => line,
        Ok(None) => return Err(Ended::BadLine),
        Err(_) => return Err(Ended::NoMemory),
    };
    one_spelling();
    match session.tell(&line) {
        Ok(Some(told)) => Ok(told),
        Ok(None) => Err(Ended::BadLine),
        Err(why) => Err(why),
    }
}

/// The text of a reply line, with its newline.
fn spelled(alloc: Global, told: &Told) -> Result<Vec<u8>, Ended>
    requires { CanBeSaid told.now.said }
    ensures spelled { IfOk result (λ text. text.items ≡ reply_line told.now) }
    ensures memory { OnErr result (result ≡ Err Ended.NoMemory) }
{
    let text = reply_text(alloc, told.lane, told.place, &told.said).map_err(|_| Ended::NoMemory)?;
    let mut text = text.into_vec();
    if text.push(b'\n').is_err() {
        return Err(Ended::NoMemory);
    }
    Ok(text)
}

impl<H: Host> Player<H> {
    /// A player of an open file, before the first line.
    pub(crate) fn new(alloc: Global, file: FileState<H>) -> Player<H>
        ensures file { result.session.file ≡ file }
        ensures none { result.count ≡ 0 }
        ensures somewhere { (f : File) → StandsFor H.tells (opened file.parts) (new_state usual_limits) f
            → IsSomewhere H.tells (position file.parts result.session.lanes) }
        ensures taken { (base : Seen) (f : File) → StandsFor H.tells (opened file.parts) (new_state usual_limits) f
            → (IsTrue H.tells → f ≡ base.file)
            → HasTaken H.tells base base [] (position file.parts result.session.lanes) result.open_line.items result.count }
    {
        Player {
            alloc,
            session: Session::new(file),
            open_line: Vec::new(alloc),
            count: 0,
        }
    }

    /// The open file, and how many lines were run.
    pub(crate) fn close(self) -> (FileState<H>, u64)
        ensures file { result.0 ≡ self.session.file }
        ensures count { result.1 ≡ self.count }
    {
        let Player {
            alloc: _alloc,
            session,
            open_line: _open_line,
            count,
        } = self;
        let Session {
            file,
            lanes: _lanes,
        } = session;
        (file, count)
    }

    /// Runs the open line, which is whole, and says its reply.
    fn answer(&mut self) -> Result<(), Ended>
        requires somewhere { IsSomewhere H.tells (position self.old.session.file.parts self.old.session.lanes) }
        requires small { self.old.count < 2 ^ 27 }
        ensures run { OnOk result ((base : Seen) (texts : List (List ℕ)) → IsText self.old.open_line.items
            → HasRun H.tells base (seen_of self.old.session.file.parts) texts (position self.old.session.file.parts self.old.session.lanes) self.old.count
            → HasRun H.tells base (seen_of self.new.session.file.parts) (texts ++ self.old.open_line.items ∷ []) (position self.new.session.file.parts self.new.session.lanes) self.new.count) }
        ensures open_line { OnOk result (self.new.open_line.items ≡ []) }
        ensures count { OnOk result (self.new.count ≡ self.old.count + 1) }
        ensures somewhere { OnOk result (IsSomewhere H.tells (position self.new.session.file.parts self.new.session.lanes)) }
        ensures same_count { OnErr result (self.new.count ≡ self.old.count) }
        ensures stops { IfErr result (λ why. StopsText why H.tells self.old.open_line.items (position self.old.session.file.parts self.old.session.lanes) self.old.count (seen_of self.old.session.file.parts) (seen_of self.new.session.file.parts)) }
        ensures stop { IfErr result (IsStop H.tells) }
        ensures untroubled { OnOk result ((H.faults self.new.session.file.parts.host ≡ H.faults self.old.session.file.parts.host) × (H.View.faults self.new.session.file.parts.view ≡ H.View.faults self.old.session.file.parts.view)) }
        ensures aside { IsTrue H.tells → OthersStay (disk_of self.old.session.file.parts) (disk_of self.new.session.file.parts) }
        ensures faults { IfErr result (λ why. FaultsAfter why (faults_of self.old.session.file.parts) (faults_of self.new.session.file.parts)) }
    {
        let told = match told_for(self.alloc, &mut self.session, self.open_line.as_slice()) {
            Ok(told) => told,
            Err(why) => return Err(why),
        };
        let text = match spelled(self.alloc, &told) {
            Ok(text) => text,
            Err(_) => return Err(Ended::NoMemory),
        };
        match self.session.file.parts.host.say(text.as_slice()) {
            Ok(()) => {
                self.open_line.clear();
                self.count += 1;
                Ok(())
            }
            Err(Failed) => Err(Ended::HostFault),
        }
    }

    /// Takes the next byte of the script.
    fn take_byte(&mut self, byte: u8) -> Result<(), Ended>
        requires somewhere { IsSomewhere H.tells (position self.old.session.file.parts self.old.session.lanes) }
        requires small { self.old.count < 2 ^ 27 }
        ensures taken { OnOk result ((base : Seen) (taken : List ℕ)
            → HasTaken H.tells base (seen_of self.old.session.file.parts) taken (position self.old.session.file.parts self.old.session.lanes) self.old.open_line.items self.old.count
            → HasTaken H.tells base (seen_of self.new.session.file.parts) (taken ++ byte ∷ []) (position self.new.session.file.parts self.new.session.lanes) self.new.open_line.items self.new.count) }
        ensures count { self.new.count ≤ self.old.count + 1 }
        ensures somewhere { OnOk result (IsSomewhere H.tells (position self.new.session.file.parts self.new.session.lanes)) }
        ensures stops { IfErr result (λ why. (base : Seen) (taken : List ℕ)
            → HasTaken H.tells base (seen_of self.old.session.file.parts) taken (position self.old.session.file.parts self.old.session.lanes) self.old.open_line.items self.old.count
            → Stops why H.tells base (seen_of self.new.session.file.parts) (taken ++ byte ∷ []) self.new.count) }
        ensures stop { IfErr result (IsStop H.tells) }
        ensures untroubled { OnOk result ((H.faults self.new.session.file.parts.host ≡ H.faults self.old.session.file.parts.host) × (H.View.faults self.new.session.file.parts.view ≡ H.View.faults self.old.session.file.parts.view)) }
        ensures aside { IsTrue H.tells → OthersStay (disk_of self.old.session.file.parts) (disk_of self.new.session.file.parts) }
        ensures faults { IfErr result (λ why. FaultsAfter why (faults_of self.old.session.file.parts) (faults_of self.new.session.file.parts)) }
    {
        if byte == b'\n' {
            return match self.answer() {
                Ok(()) => Ok(()),
                Err(why) => Err(why),
            };
        }
        if self.open_line.push(byte).is_err() {
            return Err(Ended::NoMemory);
        }
        Ok(())
    }

    /// Takes the next bytes of the script.
    fn take_bytes(&mut self, bytes: &[u8]) -> Result<(), Ended>
        requires somewhere { IsSomewhere H.tells (position self.old.session.file.parts self.old.session.lanes) }
        requires small { self.old.count + length bytes.now < 2 ^ 27 }
        ensures taken { OnOk result ((base : Seen) (taken : List ℕ)
            → HasTaken H.tells base (seen_of self.old.session.file.parts) taken (position self.old.session.file.parts self.old.session.lanes) self.old.open_line.items self.old.count
            → HasTaken H.tells base (seen_of self.new.session.file.parts) (taken ++ bytes.now) (position self.new.session.file.parts self.new.session.lanes) self.new.open_line.items self.new.count) }
        ensures count { self.new.count ≤ self.old.count + length bytes.now }
        ensures somewhere { OnOk result (IsSomewhere H.tells (position self.new.session.file.parts self.new.session.lanes)) }
        ensures stops { IfErr result (λ why. (base : Seen) (taken : List ℕ)
            → HasTaken H.tells base (seen_of self.old.session.file.parts) taken (position self.old.session.file.parts self.old.session.lanes) self.old.open_line.items self.old.count
            → Stops why H.tells base (seen_of self.new.session.file.parts) (taken ++ bytes.now) self.new.count) }
        ensures stop { IfErr result (IsStop H.tells) }
        ensures untroubled { OnOk result ((H.faults self.new.session.file.parts.host ≡ H.faults self.old.session.file.parts.host) × (H.View.faults self.new.session.file.parts.view ≡ H.View.faults self.old.session.file.parts.view)) }
        ensures aside { IsTrue H.tells → OthersStay (disk_of self.old.session.file.parts) (disk_of self.new.session.file.parts) }
        ensures faults { IfErr result (λ why. FaultsAfter why (faults_of self.old.session.file.parts) (faults_of self.new.session.file.parts)) }
    {
        for byte in bytes {
            if let Err(why) = self.take_byte(*byte) {
                return Err(why);
            }
        }
        Ok(())
    }

    /// Runs the last line of an input, which may lack its newline.
    fn end(&mut self) -> Ended
        requires somewhere { IsSomewhere H.tells (position self.old.session.file.parts self.old.session.lanes) }
        requires small { self.old.count < 2 ^ 27 }
        ensures ends { (base : Seen) (taken : List ℕ) → length taken ≤ SCRIPT_LIMIT
            → HasTaken H.tells base (seen_of self.old.session.file.parts) taken (position self.old.session.file.parts self.old.session.lanes) self.old.open_line.items self.old.count
            → EndsBy result H.tells base (seen_of self.new.session.file.parts) taken [] self.new.count }
        ensures read { result ≢ Ended.SourceFault }
        ensures sound { IsSound H.tells result }
        ensures count { self.new.count ≤ self.old.count + 1 }
        ensures aside { IsTrue H.tells → OthersStay (disk_of self.old.session.file.parts) (disk_of self.new.session.file.parts) }
        ensures faults { FaultsAfter result (faults_of self.old.session.file.parts) (faults_of self.new.session.file.parts) }
    {
        if self.open_line.as_slice().is_empty() {
            return Ended::AtEnd;
        }
        match self.answer() {
            Ok(()) => Ended::AtEnd,
            Err(why) => why,
        }
    }

    /// Reads once, and takes what comes: so many bytes. The room is at most what may still be taken;
    /// the byte behind the limit is taken from the source and isn't run.
    fn feed<S: Source>(
        &mut self,
        source: &mut S,
        room: &mut [u8],
        left: usize,
    ) -> Result<usize, Ended>
        requires somewhere { IsSomewhere H.tells (position self.old.session.file.parts self.old.session.lanes) }
        requires small { self.old.count + left ≤ SCRIPT_LIMIT + 1 }
        requires some { 0 < length room.old }
        requires within { length room.old ≤ left }
        ensures fed { IfOk result (λ n. (1 ≤ n) × (n < left) × (self.new.count ≤ self.old.count + n)) }
        ensures few { self.new.count ≤ SCRIPT_LIMIT + 1 }
        ensures somewhere { OnOk result (IsSomewhere H.tells (position self.new.session.file.parts self.new.session.lanes)) }
        ensures taken { IfOk result (λ n. IsTrue S.tells → (base : Seen) (taken script : List ℕ) → script ≡ taken ++ S.rest source.old
            → HasTaken H.tells base (seen_of self.old.session.file.parts) taken (position self.old.session.file.parts self.old.session.lanes) self.old.open_line.items self.old.count
            → Feeds H.tells base (seen_of self.new.session.file.parts) taken script (S.rest source.new) (position self.new.session.file.parts self.new.session.lanes) self.new.open_line.items self.new.count n) }
        ensures ends { IfErr result (λ why. IsTrue S.tells → (base : Seen) (taken script : List ℕ) → script ≡ taken ++ S.rest source.old
            → length taken + left ≡ SCRIPT_LIMIT + 1
            → HasTaken H.tells base (seen_of self.old.session.file.parts) taken (position self.old.session.file.parts self.old.session.lanes) self.old.open_line.items self.old.count
            → EndsBy why H.tells base (seen_of self.new.session.file.parts) script (S.rest source.new) self.new.count) }
        ensures sound { IfErr result (IsSound H.tells) }
        ensures source { result ≡ Err Ended.SourceFault → risen (S.faults source.old) ≤ S.faults source.new }
        ensures counts { S.faults source.old ≤ S.faults source.new }
        ensures untroubled { OnOk result ((H.faults self.new.session.file.parts.host ≡ H.faults self.old.session.file.parts.host) × (H.View.faults self.new.session.file.parts.view ≡ H.View.faults self.old.session.file.parts.view)) }
        ensures aside { IsTrue H.tells → OthersStay (disk_of self.old.session.file.parts) (disk_of self.new.session.file.parts) }
        ensures faults { IfErr result (λ why. FaultsAfter why (faults_of self.old.session.file.parts) (faults_of self.new.session.file.parts)) }
    {
        let n = match source.read(room) {
            Ok(n) => n,
            Err(Failed) => return Err(Ended::SourceFault),
        };
        if n == 0 {
            return Err(self.end());
        }
        match self.take_bytes(&room[..n.min(left - 1)]) {
            Ok(()) if n < left => Ok(n),
            Ok(()) => Err(Ended::BadLine),
            Err(why) => Err(why),
        }
    }

    /// Runs the script of a source, to its end or to what ends it before.
    pub(crate) fn run<S: Source>(&mut self, source: &mut S) -> Ended
        requires somewhere { IsSomewhere H.tells (position self.old.session.file.parts self.old.session.lanes) }
        requires none { self.old.count ≡ 0 }
        ensures ends { IsTrue S.tells → (base : Seen)
            → HasTaken H.tells base (seen_of self.old.session.file.parts) [] (position self.old.session.file.parts self.old.session.lanes) self.old.open_line.items self.old.count
            → EndsBy result H.tells base (seen_of self.new.session.file.parts) (S.rest source.old) (S.rest source.new) self.new.count }
        ensures sound { IsSound H.tells result }
        ensures source { result ≡ Ended.SourceFault → risen (S.faults source.old) ≤ S.faults source.new }
        ensures aside { IsTrue H.tells → OthersStay (disk_of self.old.session.file.parts) (disk_of self.new.session.file.parts) }
        ensures faults { FaultsAfter result (faults_of self.old.session.file.parts) (faults_of self.new.session.file.parts) }
        ensures few { self.new.count ≤ SCRIPT_LIMIT + 1 }
    {
        let mut room = [0; ROOM];
        let mut left = SCRIPT_LIMIT + 1;
        'script: loop {
            match self.feed(source, &mut room[..left.min(ROOM)], left) {
                Ok(n) => left -= n,
                Err(why) => return why,
            }
        }
    }
}
