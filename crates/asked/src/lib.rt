// What the program's first word asks for.
#![tactic(auto)]

ghost use Rattle.std.specs.Prelude.{◌≡◌};
ghost use Rattle.asked.specs.Asked.{side_of};

use scope::Side;

// The bytes of the longest word that asks for something.
pub const LONGEST: usize = 8;

// The side that a word asks for: the earliest times by its name, the latest by any other word or none.
#[tactic(auto, using(text::proofs::Sames::same_is))]
pub fn side_of(word: &[u8]) -> Side
    ensures { result ≡ side_of word.now }
{
    if word == b"earliest".as_slice() {
        Side::Earliest
    } else {
        Side::Latest
    }
}
