//! How far a long run has come, told on a terminal.
//!
//! The run has the contract of `Board::run`. What is told has none: `tests/watched` shows it.

ghost use Rattle.std.specs.Prelude.{◌≡◌, ◌≤◌, ◌<◌, IfErr, MatchResult};
ghost use Rattle.word86.specs.declared.fault.Fault.TheVariants.{At};
ghost use Rattle.word86.specs.declared.number.Number.TheVariants.{E704};
ghost use Rattle.ppi_kbd.specs.Chips.{ChipState};
ghost use Rattle.board.specs.World.{World};
ghost use Rattle.board.specs.Machine.{Board as State};
ghost use Rattle.board.specs.Board.{Shows};
ghost use Rattle.board.specs.Run.{Ran, Broke, due_of};

use board::{Board, End, Schedule};
use std::alloc::Global;
use std::io::IsTerminal;
use std::time::Instant;
use word86::{Fault, Sink, WriterSink, put_all};

/// So many turns are made between two looks at the clock: some thousandths of a second.
const PART: u32 = 200_000;

/// What takes a line of the terminal away: its first column, and nothing behind it.
const CLEARED: &[u8] = b"\r\x1B[K";

/// When the run began, and what it had come to when that was told last.
#[derive(Clone, Copy)]
pub(crate) struct Progress {
    told_at: Instant,
    turns: u32,
    is_shown: bool,
}

impl Progress {
    /// At the beginning of a run: none where standard error is no terminal, or where the trace goes to one.
    pub fn new(rt: &HostRuntime) -> Option<Progress> {
        if !rt.stderr().is_terminal() || rt.stdout().is_terminal() {
            return None;
        }
        let told_at = Instant::now(rt).ok()?;
        Some(Progress {
            told_at,
            turns: 0,
            is_shown: false,
        })
    }

    /// Tells once a second which turn comes next, and how many were made in a second. Where memory for the words is wanting, it tells later.
    fn tell(self, rt: &HostRuntime, alloc: Global, turns: u32) -> Progress {
        let Ok(elapsed) = self.told_at.elapsed(rt) else {
            return self;
        };
        let thousandths = elapsed.as_millis();
        if thousandths < 1000 {
            return self;
        }
        let made = u128::from(turns.saturating_sub(self.turns));
        let rate = made.saturating_mul(1000) / thousandths;
        match format!(in alloc; "turn {turns}, {rate} turns a second") {
            Ok(words) => self.shown(rt, turns, words.as_str().as_bytes()),
            Err(_) => self,
        }
    }

    /// Shows these words, which tell of so many turns.
    fn shown(self, rt: &HostRuntime, turns: u32, words: &[u8]) -> Progress {
        show(rt, words);
        let told_at = match Instant::now(rt) {
            Ok(now) => now,
            Err(_) => self.told_at,
        };
        Progress {
            told_at,
            turns,
            is_shown: true,
        }
    }

    /// Takes away what was told.
    fn end(self, rt: &HostRuntime) {
        if self.is_shown {
            show(rt, b"");
        }
    }
}

/// Writes in the terminal's line what takes the place of what stands there.
fn show(rt: &HostRuntime, words: &[u8]) {
    // Where it cannot be shown, the run still goes on.
    let errors = &mut WriterSink::new(rt.stderr());
    let _ = put_all(errors, CLEARED);
    let _ = put_all(errors, words);
}

/// The turn to which the part goes that begins at this one.
fn end_of_part(from: u32, stop: u32) -> u32
    requires { from < stop }
    ensures later { from < result }
    ensures within { result ≤ stop }
{
    from + PART.min(stop - from)
}

/// Runs a board under a schedule as `Board::run` does, part by part, and tells on the way how far it has come.
pub(crate) fn run_in_parts<S: Sink>(
    rt: &HostRuntime,
    alloc: Global,
    board: &mut Board,
    schedule: &Schedule,
    progress: Progress,
    sink: &mut S,
) -> Result<End, Fault>
    ensures run { (b : State (World ChipState)) → Shows board.old b → MatchResult result
        (Ran (due_of schedule.now) schedule.now.stop b board.new (S.taken sink.old) (S.taken sink.new) (S.failures sink.old) (S.failures sink.new))
        (λ e. Broke (due_of schedule.now) schedule.now.stop b board.new (S.taken sink.old) (S.taken sink.new) (S.failures sink.old) (S.failures sink.new)) }
    ensures fault { IfErr result (λ e. e ≡ At 0 1 E704) }
{
    let mut progress = progress;
    let mut turn = 0;
    while turn < schedule.stop() {
        let next = end_of_part(turn, schedule.stop());
        match board.run_part(schedule, turn, next, sink) {
            Ok(None) => turn = next,
            Ok(Some(end)) => {
                progress.end(rt);
                return Ok(end);
            }
            Err(fault) => {
                progress.end(rt);
                return Err(fault);
            }
        }
        progress = progress.tell(rt, alloc, turn);
    }
    progress.end(rt);
    board.finish(schedule, sink)
}
