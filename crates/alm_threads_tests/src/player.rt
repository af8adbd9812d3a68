//! A source of the tests.

use crate::asker::Asker;
use crate::caller::Caller;
use crate::looker::Looker;
use crate::script::Script;
use alm_board::{FreeLook, Recall};
use alm_rings::{Console, Told};
use alm_threads::{Go, Source};

/// A source of the tests, or of the benchmark of threads.
#[derive(Drop)]
pub enum Player {
    Asker(Asker),
    Caller(Caller),
    Looker(Looker),
    Script(Script),
}

impl<T: Told + Drop, L: FreeLook<Told = T> + Recall> Source<T, L> for Player {
    ghost use Rattle.std.specs.Prelude.{None};

    ghost slot = { λ _. None };

    fn turn(&mut self, console: &mut Console<T>, look: &mut L) -> Go {
        match self {
            Player::Asker(asker) => asker.turn(console, look),
            Player::Caller(caller) => caller.turn(console, look),
            Player::Looker(looker) => looker.turn(console, look),
            Player::Script(script) => script.turn(console, look),
        }
    }
}
