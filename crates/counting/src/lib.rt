// How many plans of a length a card allows, leaves unfinished and finds hopeless: states times letters times the length, and no lent buffer.
#![tactic(auto)]

pub mod refusals;

ghost use Rattle.std.specs.Prelude.{◌≡◌};
ghost use Rattle.automata.specs.Format.{narrow};
ghost use Rattle.census.specs.Census.{census};
ghost use Rattle.run.specs.Cards.{bytes_of, letters_in, states_in};
ghost use Rattle.arrivals.specs.Rounds.{Countable as Summable};
ghost use Rattle.counting.specs.Reading.{census_in, answer_of};
ghost use Rattle.counting.specs.Counting.{Countable, sums_of};

use moves::Mark;
pub use refusals::Refusal;
use run::Card;

// "k exceeds 4,096"
const LONGEST: usize = 4096;

// How many plans are allowed, unfinished and hopeless.
#[derive(Clone, Copy, Debug, PartialEq, Eq)]
pub struct Census {
    pub allowed: u64,
    pub unfinished: u64,
    pub hopeless: u64,
}

// The three sums by marks byte.
fn sums(words: &[u64], marks: &[u8]) -> Census
    requires { Summable words.now marks.now }
    ensures { census_in result ≡ sums_of words.now marks.now }
{
    let allowed = arrivals::total(words, marks, Mark::Accepting as u8);
    let unfinished = arrivals::total(words, marks, Mark::Unfinished as u8);
    let hopeless = arrivals::total(words, marks, Mark::Dead as u8);
    Census {
        allowed,
        unfinished,
        hopeless,
    }
}

// A card that loads, and a length within the bounds: how many plans lead to each state, then the sums.
fn count(card: &Card, k: usize, here: &mut [u64], next: &mut [u64]) -> Census
    requires { Countable (letters_in card.now) (states_in card.now) k here.old next.old }
    ensures { census_in result ≡ census narrow (bytes_of card.now) k }
{
    let states = card.states();
    arrivals::arrive(states.moves, states.letters, k, here, next);
    sums(&here[..], states.marks)
}

// A card that loads: the bounds are tested, then the plans are counted.
fn on_card(card: &Card, k: usize) -> Result<Census, Refusal>
    ensures { answer_of result ≡ census narrow (bytes_of card.now) k }
{
    if LONGEST < k {
        return Err(Refusal::CountTooLarge);
    }
    if !arrivals::power::fits(card.layout.counts.letters, k) {
        return Err(Refusal::CountTooLarge);
    }
    let n = card.layout.counts.states;
    let mut here = [0u64; 120];
    let mut next = [0u64; 120];
    Ok(count(card, k, &mut here[..n], &mut next[..n]))
}

// The card is tested, then the length, then the plans of so many letters are counted.
pub fn of_length(bytes: &[u8], k: usize) -> Result<Census, Refusal>
    ensures { answer_of result ≡ census narrow bytes.now k }
{
    let card = board::load(bytes)?;
    on_card(&card, k)
}
