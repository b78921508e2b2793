//! Worked examples for the queue, the tape and the bank, as tests; the expected values are worked by hand.
//! Each shows one edge: a full store, no places, a removal in the middle, a ring that goes round, areas that do not fit.
//! Main promise: none; the tests hold.
#![tactic(auto)]

#[cfg(test)]
mod tests {
    use bank::Bank;
    use block::{Block, Pair, Sync};
    use numbers::ClientNumber;
    use port::{Inlet, Offer, Outlet, Store};
    use queue::{Keyed, Queue};
    use refusal::Refusal;
    use std::process::Abort;
    use std::test::Fail;
    use tape::{TaggedBlock, Tape};

    #[derive(Clone, Copy)]
    struct Entry {
        key: u16,
        value: u8,
    }

    impl Keyed for Entry {
        ghost key_of = { λ e. e.key };

        fn key(&self) -> u16 {
            self.key
        }
    }

    // A data block of one byte's value.
    fn data(value: u8) -> Block {
        Block {
            sync: Sync::Data,
            bytes: [value; 8],
        }
    }

    // A pair of such blocks.
    fn pair(first: u8, second: u8) -> Pair {
        Pair {
            first: data(first),
            second: data(second),
        }
    }

    // One call to a store, with the answer that it must give.
    #[derive(Clone, Copy)]
    enum Step {
        // client and blocks
        Put(u16, u8, u8, Result<(), Refusal>),
        // client and the block that is removed
        Next(u16, Option<u8>),
        // client and the block that stays first
        First(u16, Option<u8>),
        // client and free places
        Free(u16, usize),
    }

    const FULL: Result<(), Refusal> = Err(Refusal::NoFreePlace);

    fn try_step<S: Store>(rt: &impl Abort, store: &mut S, step: Step) -> Result<(), Fail> {
        match step {
            Step::Put(client, a, b, answer) => {
                let client = ClientNumber::try_from(client)?;
                assert_eq!(rt; store.put(client, pair(a, b)), answer);
            }
            Step::Next(client, a) => {
                let client = ClientNumber::try_from(client)?;
                assert_eq!(rt; store.next(client), a.map(data));
            }
            Step::First(client, a) => {
                let client = ClientNumber::try_from(client)?;
                assert_eq!(rt; store.first(client), a.map(data));
            }
            Step::Free(client, n) => {
                assert_eq!(rt; store.free(ClientNumber::try_from(client)?), n);
            }
        }
        Ok(())
    }

    fn try_steps<S: Store>(rt: &impl Abort, store: &mut S, steps: &[Step]) -> Result<(), Fail> {
        for step in steps {
            try_step(rt, store, *step)?;
        }
        Ok(())
    }

    const ON_TAPE_OF_5: [Step; 18] = [
        Step::Free(480, 5),
        Step::Put(1, 11, 12, Ok(())),
        Step::Put(2, 21, 22, Ok(())),
        Step::Free(3, 1),
        Step::Put(3, 31, 32, FULL),
        Step::Next(3, None),
        Step::First(2, Some(21)),
        Step::Next(2, Some(21)),
        Step::Free(1, 2),
        Step::Put(1, 13, 14, Ok(())),
        Step::Free(1, 0),
        Step::Next(1, Some(11)),
        Step::Next(1, Some(12)),
        Step::Next(2, Some(22)),
        Step::Next(2, None),
        Step::Next(1, Some(13)),
        Step::Next(1, Some(14)),
        Step::Free(2, 5),
    ];

    // Two areas of three places, and one block more.
    const ON_BANK_OF_7_BY_3: [Step; 17] = [
        Step::Put(1, 11, 12, Ok(())),
        Step::Put(2, 21, 22, Ok(())),
        Step::Put(3, 31, 32, FULL),
        Step::Next(3, None),
        Step::Put(1, 13, 14, FULL),
        Step::First(1, Some(11)),
        Step::Next(1, Some(11)),
        Step::Free(1, 2),
        Step::Free(2, 1),
        Step::Put(1, 13, 14, Ok(())),
        Step::Next(1, Some(12)),
        Step::Next(1, Some(13)),
        Step::Next(1, Some(14)),
        Step::Next(1, None),
        Step::Next(2, Some(21)),
        Step::Next(2, Some(22)),
        Step::Free(2, 3),
    ];

    const ON_BANK_BY_2: [Step; 6] = [
        Step::Put(1, 1, 2, Ok(())),
        Step::Put(1, 3, 4, FULL),
        Step::Next(1, Some(1)),
        Step::Next(1, Some(2)),
        Step::Put(1, 3, 4, Ok(())),
        Step::Next(1, Some(3)),
    ];

    const WITH_ONE_PLACE: [Step; 3] = [
        Step::Put(1, 1, 2, FULL),
        Step::Next(1, None),
        Step::Free(1, 1),
    ];

    const WITHOUT_PLACES: [Step; 3] = [
        Step::Put(1, 1, 2, FULL),
        Step::Next(1, None),
        Step::Free(1, 0),
    ];

    #[test]
    fn tapes(rt: HostRuntime) -> Result<(), Fail> {
        let mut entries = [TaggedBlock::UNUSED; 5];
        try_steps(&rt, &mut Tape::new(&mut entries), &ON_TAPE_OF_5)?;
        let mut entry = [TaggedBlock::UNUSED; 1];
        try_steps(&rt, &mut Tape::new(&mut entry), &WITH_ONE_PLACE)?;
        let mut none: [TaggedBlock; 0] = [];
        try_steps(&rt, &mut Tape::new(&mut none), &WITHOUT_PLACES)
    }

    // Of three pairs the second is refused; the third is for another client.
    fn try_offers<S: Store>(rt: &impl Abort, store: &mut S, refused: usize) -> Result<(), Fail> {
        let one = ClientNumber::try_from(1)?;
        let two = ClientNumber::try_from(2)?;
        let offers = [(one, 11, 12), (one, 13, 14), (two, 21, 22)].map(|(client, a, b)| Offer {
            client,
            pair: pair(a, b),
        });
        assert_eq!(rt; port::put_offers(store, &offers), refused);
        assert_eq!(rt; store.next(one), Some(data(11)));
        assert_eq!(rt; store.next(one), Some(data(12)));
        assert_eq!(rt; store.next(one), None);
        Ok(())
    }

    #[test]
    fn offers(rt: HostRuntime) -> Result<(), Fail> {
        let mut entries = [TaggedBlock::UNUSED; 3];
        try_offers(&rt, &mut Tape::new(&mut entries), 2)?;
        let mut memory = [data(0); 6];
        try_offers(&rt, &mut Bank::new(&mut memory, 3), 1)
    }

    fn bank_steps(
        rt: &impl Abort,
        places: usize,
        width: usize,
        steps: &[Step],
    ) -> Result<(), Fail> {
        let mut memory = [data(0); 7];
        assert!(rt; places <= 7);
        try_steps(rt, &mut Bank::new(&mut memory[0..places], width), steps)
    }

    #[test]
    fn banks(rt: HostRuntime) -> Result<(), Fail> {
        bank_steps(&rt, 7, 3, &ON_BANK_OF_7_BY_3)?;
        bank_steps(&rt, 3, 2, &ON_BANK_BY_2)?;
        bank_steps(&rt, 7, 1, &WITH_ONE_PLACE)?;
        bank_steps(&rt, 7, 0, &WITHOUT_PLACES)?;
        bank_steps(&rt, 1, 2, &WITHOUT_PLACES)
    }

    // Places lent, width, areas: the last client with an area has its places free, the next client has none.
    const AREAS: [(usize, usize, u16); 10] = [
        (0, 2, 0),
        (7, 0, 0),
        (7, 1, 7),
        (7, 2, 3),
        (7, 7, 1),
        (7, 8, 0),
        (959, 2, 479),
        (960, 2, 480),
        (1000, 2, 480),
        (1000, 1 << 63, 0),
    ];

    fn try_areas(rt: &impl Abort, places: usize, width: usize, areas: u16) -> Result<(), Fail> {
        let mut memory = [data(0); 1000];
        assert!(rt; places <= 1000);
        let bank = Bank::new(&mut memory[0..places], width);
        assert_eq!(rt; bank.areas(), areas as usize);
        if areas > 0 {
            assert_eq!(rt; bank.free(ClientNumber::try_from(areas)?), width);
        }
        if areas < 480 {
            assert_eq!(rt; bank.free(ClientNumber::try_from(areas + 1)?), 0);
        }
        Ok(())
    }

    #[test]
    fn areas(rt: HostRuntime) -> Result<(), Fail> {
        for (places, width, areas) in &AREAS {
            try_areas(&rt, *places, *width, *areas)?;
        }
        Ok(())
    }

    // A call to a queue of three places, with the answer that it must give.
    #[derive(Clone, Copy)]
    enum Call {
        Add(u16, u8, Result<(), Refusal>),
        // key, value of the entry that is read and removed
        Remove(u16, Option<u8>),
        RemoveFirst(Option<u8>),
        // index and value of an entry, and the number of free places
        Get(usize, Option<u8>, usize),
    }

    fn value(entry: Option<Entry>) -> Option<u8> {
        entry.map(|e| e.value)
    }

    fn try_call(rt: &impl Abort, queue: &mut Queue<'_, Entry>, call: Call) -> Result<(), Fail> {
        match call {
            Call::Add(key, value, answer) => {
                assert_eq!(rt; queue.add(Entry { key, value }), answer);
            }
            Call::Remove(key, v) => {
                assert_eq!(rt; value(queue.first_with(key)), v);
                assert_eq!(rt; value(queue.remove_first_with(key)), v);
            }
            Call::RemoveFirst(v) => {
                assert_eq!(rt; value(queue.remove_first()), v);
            }
            Call::Get(index, v, free) => {
                assert_eq!(rt; value(queue.get(index)), v);
                assert_eq!(rt; (queue.len(), queue.free()), (3 - free.min(3), free));
            }
        }
        Ok(())
    }

    const CALLS: [Call; 13] = [
        Call::Remove(8, None),
        Call::Add(7, 1, Ok(())),
        Call::Add(8, 2, Ok(())),
        Call::Get(1, Some(2), 1),
        Call::Add(7, 3, Ok(())),
        Call::Add(9, 4, FULL),
        Call::Get(2, Some(3), 0),
        Call::Remove(8, Some(2)),
        Call::Remove(8, None),
        Call::Add(8, 5, Ok(())),
        Call::Remove(7, Some(1)),
        Call::RemoveFirst(Some(3)),
        Call::Get(0, Some(5), 2),
    ];

    #[test]
    fn queues(rt: HostRuntime) -> Result<(), Fail> {
        let mut places = [Entry { key: 0, value: 0 }; 3];
        let mut queue = Queue::new(&mut places);
        for call in &CALLS {
            try_call(&rt, &mut queue, *call)?;
        }
        assert_eq!(rt; queue.len(), 1);
        Ok(())
    }
}
