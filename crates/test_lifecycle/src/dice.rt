//! Pseudo-random inputs, the same in each run.
ghost use Rattle.std.specs.Prelude.{◌<◌};

use pool_journal::{Input, Outcome, When};
use rand_core::utils::NextWord;
use rand_pcg::Pcg32;

/// The stream of the numbers. In few others the lives have so many kinds of answers.
const STREAM: u64 = 684;

/// Numbers that look random, and are the same in each run.
#[derive(Drop)]
pub struct Dice {
    generator: Pcg32,
}

impl Dice {
    pub fn new(seed: u64) -> Dice {
        Dice {
            generator: Pcg32::new(seed, STREAM),
        }
    }

    fn roll(&mut self, sides: u64) -> u64
        requires { 0 < sides }
        ensures { result < sides }
    {
        u64::from(self.generator.next_word()) % sides
    }

    /// Returns an outcome. Most are good.
    fn outcome(&mut self) -> Outcome {
        match self.roll(12) {
            0 => Outcome::MakeFailed,
            1 => Outcome::CreateTestFailed,
            2 => Outcome::ActivateFailed,
            3 => Outcome::TestFailed,
            4 => Outcome::PassivateFailed,
            _ => Outcome::Good,
        }
    }

    /// Returns an input about one of the last objects that were created.
    pub fn input(&mut self, at: u64, last: u64) -> Input {
        let id = last.saturating_sub(self.roll(4));
        let outcome = self.outcome();
        match self.roll(24) {
            0..=3 => Input::Borrow { began: at },
            4..=8 => Input::Ready { id, outcome },
            9..=10 => Input::GiveBack { id },
            11..=12 => Input::Park { id, outcome },
            13 => Input::Destroyed { id },
            14 => Input::Tested { id, outcome },
            15..=16 => Input::Added { id, outcome },
            _ => self.plain_input(id),
        }
    }

    /// Returns an input without an outcome.
    fn plain_input(&mut self, id: u64) -> Input {
        match self.roll(13) {
            0 => Input::Invalidate { id },
            1 => Input::Use { id },
            2..=3 => Input::Add,
            4 => Input::Fill,
            5 => Input::Evict,
            6..=7 => Input::EvictNext,
            8 => Input::Reclaim { on: When::Maintain },
            9 => Input::ReclaimNext,
            10 => Input::Clear,
            11 => Input::ClearNext,
            _ => self.closing(),
        }
    }

    /// Returns a close now and then, otherwise a reclaim for a borrow.
    fn closing(&mut self) -> Input {
        match self.roll(6) {
            0 => Input::Close,
            _ => Input::Reclaim { on: When::Borrow },
        }
    }
}
