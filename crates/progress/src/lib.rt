//! How far a sender of packets goes: to the end of so many frames, or until no packet waits behind a first multiframe that is sent
//! with nothing waiting, so that the far end learns the calendar.
//! Main promise: sending ends with a frame's end block, at the first frame that the goal allows.
#![tactic(auto)]

ghost use Rattle.std.specs.Prelude.{◌≡◌, Some};
ghost use Rattle.progress.specs.Goals.{new_progress, progress_after, is_last, is_learning, is_none};
ghost use Rattle.progress.specs.Laws.{CountLaws};
ghost use Rattle.progress.specs.Reports.{report_text};

use block::Block;
use std::fmt;

/// Frames of a multiframe, by which the far end learns the calendar.
const MULTIFRAME: u64 = 480;

/// How far to send.
#[derive(Clone, Copy, Debug, PartialEq, Eq)]
pub enum Goal {
    /// To the end block of so many frames, with all packets waiting from the first block on.
    Frames(u32),
    /// A multiframe with nothing waiting; then all packets wait, to the end block of the first frame at whose end none does.
    AllSent,
}

/// How far sending has come.
#[derive(Clone, Copy, Debug, PartialEq, Eq)]
pub struct Progress {
    /// How far it is to go.
    pub goal: Goal,
    /// Frames whose end block has gone.
    pub frames: u64,
    /// Has the last block gone?
    pub over: bool,
}

// Is no frame to be sent?
fn is_none(goal: Goal) -> bool
    ensures { result ≡ is_none goal }
{
    matches!(goal, Goal::Frames(0))
}

impl Progress {
    /// Nothing is sent yet.
    pub fn new(goal: Goal) -> Progress
        ensures { result ≡ new_progress goal }
    {
        Progress {
            goal,
            frames: 0,
            over: is_none(goal),
        }
    }

    /// Does nothing wait at the next block, whatever packets there are?
    pub fn is_learning(&self) -> bool
        ensures { result ≡ is_learning self.now }
    {
        match self.goal {
            Goal::Frames(_) => false,
            Goal::AllSent => self.frames < MULTIFRAME,
        }
    }

    // Does the goal allow that sending ends with this frame's end, by whether a packet still waits?
    fn is_last(&self, frames: u64, none_waits: bool) -> bool
        ensures { result ≡ is_last self.now.goal frames none_waits }
    {
        match self.goal {
            Goal::Frames(count) => frames >= u64::from(count),
            Goal::AllSent => frames > MULTIFRAME && none_waits,
        }
    }

    /// Counts a block that was sent; `none_waits` says whether no packet waits behind it.
    pub fn count(&mut self, block: &Block, none_waits: bool)
        ensures { self.new ≡ progress_after self.old block.now none_waits }
    {
        if block.is_end() {
            self.frames = self.frames.saturating_add(1);
            self.over = self.is_last(self.frames, none_waits);
        }
    }
}

/// What the count says of blocks sent one after another: how many frames have ended, and where sending is over.
#[tactic(auto, using(crate::proofs::Counts::count_laws))]
pub fn count_laws_hold()
    ensures { CountLaws }
{}

/// What is told of sending.
#[derive(Clone, Copy, Debug, PartialEq, Eq)]
pub enum Report {
    /// How many frames have been sent to their end.
    FramesSent(u64),
    /// How many blocks of packets still wait when sending is over.
    BlocksUnsent(usize),
}

impl fmt::Display for Report {
    ghost output = { λ report. Some (report_text report) };

    fn fmt<W: fmt::Write>(&self, f: &mut fmt::Formatter<W>) -> fmt::Result {
        match *self {
            Report::FramesSent(frames) => write!(f, "frames sent {frames}"),
            Report::BlocksUnsent(blocks) => write!(f, "blocks left unsent {blocks}"),
        }
    }
}

#[cfg(test)]
mod tests {
    use super::*;
    use block::Sync;

    // Frames are counted at their ends, and sending is over at the first one that the goal allows.
    #[test]
    fn ends(rt: HostRuntime) {
        let end = Block {
            sync: Sync::Control,
            bytes: [0xFF; 8],
        };
        let table = [
            (Goal::Frames(1), 1, false, true),
            (Goal::Frames(2), 1, true, false),
            (Goal::Frames(2), 2, false, true),
            (Goal::AllSent, 480, true, false),
            (Goal::AllSent, 481, false, false),
            (Goal::AllSent, 481, true, true),
        ];
        for (goal, frames, none_waits, over) in table {
            let mut progress = Progress::new(goal);
            for _ in 0..frames {
                assert!(rt; !progress.over);
                progress.count(&Block::start(), none_waits);
                progress.count(&end, none_waits);
                progress.count(&Block::idle(), none_waits);
            }
            assert_eq!(rt; progress.frames, frames);
            assert_eq!(rt; progress.over, over);
        }
        assert!(rt; Progress::new(Goal::Frames(0)).over);
        assert!(rt; Progress::new(Goal::AllSent).is_learning());
        assert!(rt; !Progress::new(Goal::Frames(1)).is_learning());
    }
}
