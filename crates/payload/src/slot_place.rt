//! Where in the payload a slot begins.
ghost use Rattle.std.specs.Prelude.{◌≡◌, ◌+◌, ◌*◌, ◌<◌, ◌≤◌};
ghost use Rattle.numbers.specs.Range.{slots};

// The first of the 17 bytes in which a pair lies.
#[derive(Clone, Copy)]
pub(crate) struct Start {
    pub(crate) byte: usize,
    ghost within: { byte + 17 ≤ 7920 },
}

// Where a slot begins: at the low or at the high half of a byte of the payload.
#[derive(Clone, Copy)]
pub(crate) enum Place {
    Low(Start),
    High(Start),
}

impl Place {
    ghost use Rattle.payload.specs.Places.{place_bit};

    // The place of the slot with this index, which is the slot's number less one.
    pub(crate) fn of_slot(index: usize) -> Place
        requires { index < slots }
        ensures { place_bit result ≡ 132 * index }
    {
        let byte = index / 2 * 33;
        if index % 2 == 0 {
            Place::Low(Start { byte })
        } else {
            Place::High(Start { byte: byte + 16 })
        }
    }
}
