ghost use Rattle.std.specs.Prelude.{◌≡◌, ◌≢◌, ◌↔◌, false, IsTrue, IsSome, IfOk, IfErr, IfSome, IfNone, OnOk, Err};
ghost use Rattle.forest_model.specs.Blocks.{File};
ghost use Rattle.forest_model.specs.State.{new_state, usual_limits};
ghost use Rattle.script_text.specs.Grammar.{IsRight};
ghost use Rattle.script_text.specs.Replies.{CanBeSaid};
ghost use Rattle.play_run.specs.Built.{is_built};
ghost use Rattle.play_run.specs.Playing.{IsAt, IsSomewhere, StandsFor, LeadsEach, disk_of, opened, position, seen_of};
ghost use Rattle.play_run.specs.Progress.{FaultsAfter, IsStop, Spares, faults_of};
ghost use Rattle.play_run.specs.Script.{start};

use crate::player::Ended;
use crate::verbs::{is_built, run};
use block_host::Host;
use file_core::FileState;
use forest_model::{Line, StoreRef, Told};

/// How many lanes there are.
const LANES: usize = 16;

/// An open file, and the store of each lane.
pub(crate) struct Session<H: Host> {
    pub(crate) file: FileState<H>,
    pub(crate) lanes: [StoreRef; LANES],
}

impl<H: Host> Session<H> {
    /// All lanes at the store `default`.
    pub(crate) fn new(file: FileState<H>) -> Session<H>
        ensures file { result.file ≡ file }
        ensures start { (f : File) → StandsFor H.tells (opened file.parts) (new_state usual_limits) f
            → IsAt H.tells (position file.parts result.lanes) start f }
    {
        let at = StoreRef {
            store: 0,
            read_only: false,
        };
        Session {
            file,
            lanes: [at; LANES],
        }
    }

    /// Runs a line, and gives what is told for it. None where it isn't one that is run.
    pub(crate) fn tell(&mut self, line: &Line) -> Result<Option<Told>, Ended>
        requires right { IsRight false line.now }
        requires somewhere { IsSomewhere H.tells (position self.old.file.parts self.old.lanes) }
        ensures built { IfOk result (λ told. IsSome told ↔ IsTrue (is_built line.now)) }
        ensures goes { IfOk result (λ told. IfSome told (LeadsEach H.tells
            (position self.old.file.parts self.old.lanes)
            (position self.new.file.parts self.new.lanes) line.now)) }
        ensures spelled { IfOk result (λ told. IfSome told (λ t. CanBeSaid t.said)) }
        ensures none { IfOk result (λ told. IfNone told (IsTrue H.tells → seen_of self.new.file.parts ≡ seen_of self.old.file.parts)) }
        ensures stop { IfErr result (IsStop H.tells) }
        ensures line { result ≢ Err Ended.BadLine }
        ensures silent { IsTrue H.tells → (disk_of self.new.file.parts).said ≡ (disk_of self.old.file.parts).said }
        ensures spares { IsTrue H.tells → Spares 1 (disk_of self.old.file.parts) (disk_of self.new.file.parts) }
        ensures settled { IfErr result (λ why. why ≢ Ended.HostFault → IsTrue H.tells → seen_of self.new.file.parts ≡ seen_of self.old.file.parts) }
        ensures untroubled { OnOk result ((H.faults self.new.file.parts.host ≡ H.faults self.old.file.parts.host) × (H.View.faults self.new.file.parts.view ≡ H.View.faults self.old.file.parts.view)) }
        ensures faults { IfErr result (λ why. FaultsAfter why (faults_of self.old.file.parts)
            (faults_of self.new.file.parts)) }
    {
        if !is_built(&line.verb) {
            return Ok(None);
        }
        let lane = line.lane as usize;
        let mut at = self.lanes[lane];
        let said = run(&mut self.file, &mut at, &line.verb)?;
        self.lanes[lane] = at;
        Ok(Some(Told {
            lane: line.lane,
            place: self.file.updates(),
            said,
        }))
    }
}
