//! A question of two-way delay that a collector has handed out.
//! It can be neither dropped unsettled nor used twice: a value of this type has to be answered or declined, for it is dropped only once it is settled.
ghost use Rattle.std.specs.Prelude.{◌≡◌, IfErr, IsFalse, IsTrue, Some, length};
ghost use Rattle.message.specs.declared.Kind.TheVariants.{TwoDmr};
ghost use Rattle.waiting.specs.Left.{left_after_leave, left_answer};
ghost use Rattle.collector.specs.Reply.{RepliesLawful, reply_answer, reply_values};

use message::Kind;
use refusal::Refusal;
use std::marker::Model;
use waiting::LeftMessages;

// Neither `Clone` nor `Copy`, so that a derive of either on what holds it does not compile: no contract would refuse the derive.
#[derive(Drop)]
pub(crate) struct Single;

/// A question, and whether it has been answered or declined. Only a collector makes one, and none can be copied.
pub struct Question {
    single: Single,
    // when it was sent
    time: [u8; 8],
    // a flag, so that `drop` can require it: with no `Drop` only the compiler refuses a question that is dropped, and no contract says so
    settled: bool,
}

impl Model for Question {
    ghost use Rattle.collector.specs.Reply.{AskedQuestion};

    ghost Value = { AskedQuestion };

    ghost view = { λ q. record { time = q.time; settled = q.settled } };
}

impl Drop for Question {
    fn drop(self)
        requires { IsTrue self.settled }
    {
        let Question {
            single: _,
            time: _,
            settled: _,
        } = self;
    }
}

impl Question {
    // A question sent at this time, which is still to be answered or declined.
    pub(crate) fn ask(time: [u8; 8]) -> Question
        ensures time { result.time ≡ time }
        ensures open { IsFalse result.settled }
    {
        Question {
            single: Single,
            time,
            settled: false,
        }
    }

    // From here on the question may be dropped.
    fn settle(&mut self)
        ensures time { self.new.time ≡ self.old.time }
        ensures settled { IsTrue self.new.settled }
    {
        self.settled = true;
    }

    /// Lets the question go without an answer.
    pub fn decline(mut self) {
        self.settle();
    }

    /// When it was sent, as the question says.
    pub fn time(&self) -> [u8; 8]
        ensures value { result ≡ self.now.time }
        ensures long { length result ≡ 8 }
    {
        self.time
    }

    #[tactic(auto, using(crate::proofs::Replies::replies_lawful))]
    /// Leaves the response among a sender's messages, with the time at which the question was received and that at which the response is sent.
    /// The question is spent if the response is taken. It is refused where a delay message waits (9): then the question comes back, and what
    /// waits is as before.
    pub fn answer(
        self,
        received: [u8; 8],
        sent: [u8; 8],
        messages: &mut LeftMessages,
    ) -> Result<(), (Refusal, Question)>
        ensures answer { reply_answer result ≡ left_answer messages.old (Some TwoDmr) (reply_values self.time received sent) }
        ensures left { messages.new ≡ left_after_leave messages.old (Some TwoDmr) (reply_values self.time received sent) }
        ensures back { IfErr result (λ e. e.1 ≡ self) }
        ensures long { length self.time ≡ 8 }
        ensures lawful { RepliesLawful }
    {
        let values = reply_values(&self.time, &received, &sent);
        match messages.leave(Kind::TwoDmr, &values) {
            Ok(()) => {
                self.decline();
                Ok(())
            }
            Err(refusal) => Err((refusal, self)),
        }
    }
}

// The value bytes of the response: three times, and zeros where the remainder goes.
fn reply_values(asked: &[u8; 8], received: &[u8; 8], sent: &[u8; 8]) -> [u8; 26]
    ensures { result ≡ reply_values asked.now received.now sent.now }
{
    let mut values = [0; 26];
    values[0..8].copy_from_slice(asked);
    values[8..16].copy_from_slice(received);
    values[16..24].copy_from_slice(sent);
    values
}
