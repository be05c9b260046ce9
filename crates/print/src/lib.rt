// Lines of words and numbers, put into a lent area.
#![tactic(auto)]

ghost use Rattle.std.specs.Prelude.{◌∷◌};
ghost use Rattle.meaning.specs.Reading.{tab_byte};
ghost use Rattle.print.specs.Written.{decimal, decimal_z};
ghost use Rattle.print.specs.Sheets.{Room, Puts};
ghost use Rattle.print.specs.Lines.{line};

// The decimal digits of a 64-bit number are at most so many.
const MOST_DIGITS: usize = 20;

// A lent area, and the place in it that the next byte goes to.
#[derive(Drop)]
pub struct Sheet<'a> {
    pub out: &'a mut [u8],
    pub at: usize,
}

impl Sheet<'_> {
    // The bytes of a word.
    fn word(&mut self, word: &[u8])
        requires { Room self.old word.now }
        ensures { Puts self.old self.new word.now }
    {
        let next = self.at + word.len();
        self.out[self.at..next].copy_from_slice(word);
        self.at = next;
    }

    // The decimal digits of a number.
    fn digits(&mut self, n: u64)
        requires { Room self.old (decimal n) }
        ensures { Puts self.old self.new (decimal n) }
    {
        let mut digits = [0u8; MOST_DIGITS];
        let k = io::decimal(n, &mut digits);
        self.word(&digits[..k]);
    }

    // A whole number.
    fn number(&mut self, z: i64)
        requires { Room self.old (decimal_z z) }
        ensures { Puts self.old self.new (decimal_z z) }
    {
        if z < 0 {
            self.word(b"-");
        }
        self.digits(z.unsigned_abs());
    }

    // A tab and a whole number.
    fn field(&mut self, z: i64)
        requires { Room self.old (tab_byte ∷ decimal_z z) }
        ensures { Puts self.old self.new (tab_byte ∷ decimal_z z) }
    {
        self.word(b"\t");
        self.number(z);
    }

    // A line: a word, each number behind a tab, and a line feed.
    pub fn line(&mut self, word: &[u8], numbers: &[i64])
        requires { Room self.old (line word.now numbers.now) }
        ensures { Puts self.old self.new (line word.now numbers.now) }
    {
        self.word(word);
        for &z in numbers {
            self.field(z);
        }
        self.word(b"\n");
    }
}
