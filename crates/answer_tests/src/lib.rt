//! Questions of two-way delay that are collected, declined, answered by a sender, refused and answered later, as tables; the expected values
//! are worked by hand. The bytes of a question's time are all its own number, so that the tables name it by that.
//! Main promise: none; the tests hold.
#![tactic(auto)]

#[cfg(test)]
mod tests {
    use block::Block;
    use calendar::Calendar;
    use collector::{Collector, Question};
    use message::{Kind, read, write};
    use refusal::Refusal;
    use sender::Sender;
    use std::process::Abort;
    use tape::Tape;

    const RECEIVED: [u8; 8] = [1, 2, 3, 4, 5, 6, 7, 8];

    const SENT: [u8; 8] = [9, 10, 11, 12, 13, 14, 15, 16];

    // Blocks of two rounds of 64 low priority opportunities: 256 cycles of 33 frames, of 992 blocks each, with 32 blocks between them.
    const SENDS: u32 = 256 * (33 * 992 + 32);

    // What is done with the question that waits, and what must come of it.
    #[derive(Clone, Copy)]
    enum Step {
        // A whole question comes.
        Ask(u8),
        // None waits.
        NoQuestion,
        // This one waits, and is declined.
        Decline(u8),
        // This one waits, and is answered.
        Answer(u8),
        // This one waits; the answer is refused, and the question declined.
        Refuse(u8),
        // The response to this one is the next that the far end has whole.
        Respond(u8),
        // The first waits; the answer is refused, the response to the second goes, and then the first is answered.
        AnswerLater(u8, u8),
    }

    // A sender, the collector that stands beside it, and that of the far end.
    #[derive(Drop)]
    struct Ends {
        sender: Sender,
        near: Collector,
        far: Collector,
    }

    impl Ends {
        fn new() -> Ends {
            Ends {
                sender: Sender::new(Calendar::empty(), [0; 32]),
                near: Collector::new(),
                far: Collector::new(),
            }
        }

        fn ask(&mut self, rt: &impl Abort, number: u8) {
            let mut values = [number; 10];
            values[8] = 0;
            values[9] = 0;
            let mut blocks = [Block::idle(); 5];
            assert_eq!(rt; write(Kind::TwoDmm, &values, &mut blocks), Ok(5));
            for block in &blocks {
                if let Some(said) = read(block) {
                    self.near.take(said);
                }
            }
        }

        // The question that waits, which must be this one.
        fn collect(&mut self, rt: &impl Abort, number: u8) -> Question {
            let question = self.near.collect().expect(rt, "a question that waits");
            assert_eq!(rt; question.time(), [number; 8]);
            question
        }

        fn answer(&mut self, rt: &impl Abort, question: Question) {
            match self.sender.answer(question, RECEIVED, SENT) {
                Ok(()) => {}
                Err((refusal, question)) => {
                    question.decline();
                    panic!(rt; "refused {}", refusal.number());
                }
            }
        }

        // An answer that must be refused with 9, and the question, which is as before.
        fn refuse(&mut self, rt: &impl Abort, question: Question) -> Question {
            let time = question.time();
            match self.sender.answer(question, RECEIVED, SENT) {
                Ok(()) => panic!(rt; "answered"),
                Err((refusal, question)) => {
                    assert_eq!(rt; refusal, Refusal::MessageWaits);
                    assert_eq!(rt; question.time(), time);
                    question
                }
            }
        }

        // Sends, with nothing to send for clients, until the far end has a whole response.
        fn send_response(&mut self) -> bool {
            let mut nothing = Tape::new(&mut []);
            for _ in 0..SENDS {
                let block = self.sender.send(&mut nothing);
                if let Some(said) = read(&block)
                    && self.far.take(said).found == Ok(Some(Kind::TwoDmr))
                {
                    return true;
                }
            }
            false
        }

        // The next response must be to this question.
        fn respond(&mut self, rt: &impl Abort, number: u8) {
            assert!(rt; self.send_response());
            let response = self.far.last(Kind::TwoDmr).expect(rt, "a response");
            let values = response.values();
            assert_eq!(rt; values.len(), 26);
            assert_eq!(rt; &values[..8], [number; 8].as_slice());
            assert_eq!(rt; &values[8..16], RECEIVED.as_slice());
            assert_eq!(rt; &values[16..24], SENT.as_slice());
        }

        fn run(&mut self, rt: &impl Abort, step: Step) {
            match step {
                Step::Ask(number) => self.ask(rt, number),
                Step::NoQuestion => match self.near.collect() {
                    None => {}
                    Some(question) => {
                        question.decline();
                        panic!(rt; "a question waits");
                    }
                },
                Step::Decline(number) => self.collect(rt, number).decline(),
                Step::Answer(number) => {
                    let question = self.collect(rt, number);
                    self.answer(rt, question);
                }
                Step::Refuse(number) => {
                    let question = self.collect(rt, number);
                    self.refuse(rt, question).decline();
                }
                Step::Respond(number) => self.respond(rt, number),
                Step::AnswerLater(number, before) => {
                    let question = self.collect(rt, number);
                    let question = self.refuse(rt, question);
                    self.respond(rt, before);
                    self.answer(rt, question);
                }
            }
        }
    }

    #[test]
    fn questions(rt: HostRuntime) {
        let table = [
            Step::NoQuestion,
            Step::Ask(1),
            Step::Decline(1),
            Step::NoQuestion,
            // the newer one takes the place of the one that waits
            Step::Ask(2),
            Step::Ask(3),
            Step::Answer(3),
            Step::NoQuestion,
            // the response waits to be sent; a refused question may be declined
            Step::Ask(4),
            Step::Refuse(4),
            Step::NoQuestion,
            // or answered once that is gone
            Step::Ask(5),
            Step::AnswerLater(5, 3),
            Step::Respond(5),
            Step::NoQuestion,
        ];
        let mut ends = Ends::new();
        for step in table {
            ends.run(&rt, step);
        }
    }

    // What waits at a sender, and whether an answer is refused beside it.
    #[test]
    fn messages_that_wait(rt: HostRuntime) {
        for (kind, length, is_refused) in [
            (Kind::OneDm, 10, true),
            (Kind::TwoDmm, 10, true),
            (Kind::TwoDmr, 26, true),
            (Kind::Aps, 4, false),
        ] {
            let mut ends = Ends::new();
            assert_eq!(rt; ends.sender.leave(kind, &[0; 26][..length]), Ok(()));
            ends.ask(&rt, 7);
            ends.run(
                &rt,
                if is_refused {
                    Step::Refuse(7)
                } else {
                    Step::Answer(7)
                },
            );
        }
    }
}
