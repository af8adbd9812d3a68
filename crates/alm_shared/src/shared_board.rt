//! The board that threads share.

use crate::action_history::ActionHistory;
use crate::action_prefix::ActionPrefix;
use crate::append_step::AppendStep;
use crate::publisher::Publisher;
use crate::shown_plant::ShownPlant;

/// The board that threads share, with all actions that were handed over, which the next turn shows, and with the history: for its
/// actions after those there was no memory. It isn't `Drop`: end it by [`Publisher::take`].
pub type SharedBoard<J, P> = Publisher<
    ShownPlant<J, P>,
    AppendStep<J>,
    ActionPrefix<J>,
    ActionHistory<J>,
>;
