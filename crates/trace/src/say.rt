// What a trace's word says: its kind in the top two bits, a number below them.
ghost use Rattle.std.specs.Prelude.{◌≡◌};
ghost use Rattle.trace.specs.Trace.{say_of};
ghost use Rattle.trace.specs.way.Steps.{said};

use classes::CLASS_COUNT;

// The numbers below a kind.
const NUMBERS: u32 = 1 << 30;

#[derive(Clone, Copy)]
pub enum Say {
    // From the class of that number.
    Take(u32),
    // Of the block at that place in order of handing out, from 0.
    Back(u32),
    Report,
}

impl Say {
    // None says that the word is wrong: kind 3, a class above 75, or a report with other bits set.
    pub fn of(word: u32) -> Option<Say>
        ensures { said result ≡ say_of word }
    {
        let number = word % NUMBERS;
        match word / NUMBERS {
            0 if number < CLASS_COUNT => Some(Say::Take(number)),
            1 => Some(Say::Back(number)),
            2 if number == 0 => Some(Say::Report),
            _ => None,
        }
    }
}
