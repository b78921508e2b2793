//! The calls of a transmission, apart from the struct, which the definitions name.

ghost use Rattle.std.specs.Prelude.{◌≡◌, replicate};
ghost use Rattle.calendar.specs.Entries.{entries_of};
ghost use Rattle.client_queues.specs.Waiting.{blocks_waiting, waiting_in};
ghost use Rattle.progress.specs.Goals.{new_progress};
ghost use Rattle.sending.specs.Sender.{new_sender, send_of, with_state};
ghost use Rattle.transmission.specs.Course.{course_after, course_of, lists_behind, lists_offered, next_answer, next_course};

use crate::Transmission;
use block::Block;
use calendar::Calendar;
use client_queues::{ClientQueues, NothingWaits};
use progress::{Goal, Progress};
use sender::Sender;

impl Transmission {
    /// Nothing is sent yet; the sender is made from the calendar and zero trail bytes, and these packets' blocks wait.
    pub fn new(calendar: Calendar, queues: ClientQueues, goal: Goal) -> Transmission
        ensures { course_of result ≡ record { sender = new_sender (entries_of calendar) (replicate 32 0); waiting = waiting_in queues; progress = new_progress goal } }
    {
        Transmission {
            sender: Sender::new(calendar, [0; 32]),
            queues,
            progress: Progress::new(goal),
        }
    }

    /// How far sending has come.
    pub fn progress(&self) -> Progress
        ensures { result ≡ (course_of self.now).progress }
    {
        self.progress
    }

    /// How many blocks of packets still wait.
    pub fn unsent(&self) -> usize
        ensures { result ≡ blocks_waiting (course_of self.now).waiting }
    {
        self.queues.len()
    }

    // The sender's next block, from what waits for it now.
    fn send(&mut self) -> Block
        ensures block { result ≡ (send_of self.old.sender (lists_offered (course_of self.old))).block }
        ensures sender { self.new.sender ≡ with_state self.old.sender (send_of self.old.sender (lists_offered (course_of self.old))).state }
        ensures lists { waiting_in self.new.queues ≡ lists_behind (course_of self.old) (send_of self.old.sender (lists_offered (course_of self.old))) }
        ensures progress { self.new.progress ≡ self.old.progress }
    {
        if self.progress.is_learning() {
            self.sender.send(&mut NothingWaits)
        } else {
            self.sender.send(&mut self.queues)
        }
    }

    /// The next block of the line, or none behind the last.
    pub fn next_block(&mut self) -> Option<Block>
        ensures block { result ≡ next_answer (course_of self.old) }
        ensures course { course_of self.new ≡ next_course (course_of self.old) }
    {
        if self.progress.over {
            return None;
        }
        let block = self.send();
        self.progress.count(&block, self.queues.is_empty());
        Some(block)
    }
}
