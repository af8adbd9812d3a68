//! Which history it is.

/// Which history it is. A type carries it, so what is known of two histories never meets.
pub trait HistoryName {
    ghost use Rattle.logbook.specs.Pages.{Book};

    /// The book that holds it.
    ghost book: { Book };
}
