//! A board that is closed when it is dropped.

use crate::closes::Closes;
use std::sync::Wait;

/// A board that is closed when it is dropped, as by a run that can't be started.
pub struct ClosingBoard<'r, B: Closes<R>, R: Wait> {
    board: B,
    rt: &'r R,
}

impl<'r, B: Closes<R>, R: Wait> ClosingBoard<'r, B, R> {
    ghost use Rattle.std.specs.Prelude.{◌≡◌};

    /// With this board.
    pub fn new(board: B, rt: &'r R) -> Self
        ensures { result.board ≡ board }
    {
        ClosingBoard { board, rt }
    }

    /// The board.
    pub fn open(self) -> B
        ensures { result ≡ self.entry.board }
    {
        let Self { board, rt: _ } = self;
        board
    }
}

impl<B: Closes<R>, R: Wait> Drop for ClosingBoard<'_, B, R> {
    fn drop(self) {
        let Self { board, rt } = self;
        board.close(rt);
    }
}
