// A line of a trace: a letter, then decimal numbers, one space between fields.

#![tactic(auto)]

ghost use Rattle.std.specs.Prelude.{◌≤◌, length};

// No call has more numbers.
const MOST: usize = 5;

// Its numbers stand first in the array: an ArrayVec would not be Copy, as the line is.
#[derive(Clone, Copy)]
pub struct Line {
    pub letter: u8,
    count: usize,
    numbers: [u64; MOST],
    ghost fits: { count ≤ 5 },
}

// Where a reader stands: before the letter, right after it, in a number, or past a fault.
#[derive(Clone, Copy)]
pub enum Reader {
    Start,
    Letter(Line),
    Number(Line, Digits),
    Fault,
}

// How many digits of a number are read, and their value.
#[derive(Clone, Copy, Default)]
pub struct Digits {
    count: u32,
    value: u64,
}

impl Line {
    pub fn numbers(&self) -> &[u64]
        ensures { length result.now ≤ 5 }
    {
        &self.numbers[..self.count]
    }

    // With one number more, where a call may have one.
    fn with(self, number: u64) -> Option<Self> {
        if self.count == MOST {
            return None;
        }
        let mut numbers = self.numbers;
        numbers[self.count] = number;
        Some(Line {
            letter: self.letter,
            count: self.count + 1,
            numbers,
        })
    }
}

impl Digits {
    // One digit more, of at most twenty, while the number stays below 2^64.
    fn with(self, digit: u8) -> Option<Self> {
        if 20 <= self.count {
            return None;
        }
        let tens = self.value.checked_mul(10)?;
        let value = tens.checked_add(digit as u64)?;
        Some(Digits {
            count: self.count + 1,
            value,
        })
    }

    // The number that ends here; it has a digit.
    fn number(self) -> Option<u64> {
        (self.count != 0).then_some(self.value)
    }
}

impl Reader {
    // With one byte of the line more.
    pub fn step(self, byte: u8) -> Self {
        self.next(byte).unwrap_or(Reader::Fault)
    }

    fn next(self, byte: u8) -> Option<Self> {
        match (self, byte) {
            (Reader::Start, b' ') => None,
            (Reader::Start, letter) => Some(Reader::Letter(Line {
                letter,
                count: 0,
                numbers: [0; MOST],
            })),
            (Reader::Letter(line), b' ') => Some(Reader::Number(line, Digits::default())),
            (Reader::Number(line, digits), b' ') => {
                Some(Reader::Number(line.with(digits.number()?)?, Digits::default()))
            }
            (Reader::Number(line, digits), b'0'..=b'9') => {
                Some(Reader::Number(line, digits.with(byte - b'0')?))
            }
            _ => None,
        }
    }

    // At least one byte was read.
    pub fn is_begun(&self) -> bool {
        !matches!(self, Reader::Start)
    }

    // The line's end.
    pub fn finish(self) -> Option<Line> {
        match self {
            Reader::Letter(line) => Some(line),
            Reader::Number(line, digits) => line.with(digits.number()?),
            Reader::Start | Reader::Fault => None,
        }
    }
}
