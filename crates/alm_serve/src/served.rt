//! What a step of a slot's service came to.

/// What a step of a slot's service came to.
#[derive(Drop)]
pub enum Served<W> {
    /// A turn of the connection's session went.
    Went,
    /// Nothing could be done.
    Idle,
    /// The connection has ended. Its wire, as its last turn left it.
    Closed(W),
    /// All requests of the connection that had ended are answered: the next one may begin.
    Over,
}
