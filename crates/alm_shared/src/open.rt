//! Opens a shared board with its looks.
ghost use Rattle.std.specs.Prelude.{◌≡◌, ◌<◌, ◌^◌, [], IfOk, vec_len};
ghost use Rattle.alm_shared.specs.SharedBoards.{board_shown, board_pending};

use crate::action_history::ActionHistory;
use crate::append_actions::Growth;
use crate::durable::Durable;
use crate::extent::Extent;
use crate::gone_count::GoneCount;
use crate::publisher::Publisher;
use crate::shared_board::SharedBoard;
use crate::shared_look::SharedLook;
use crate::shown_plant::ShownPlant;
use alm_events::RecentEvents;
use alm_history::NewHistory;
use alm_model::Alarms;
use alm_moments::{Moments, RunId};
use std::alloc::{AllocError, Global};

// A board without published actions, and what its looks know at first.
fn begin<J: RunId, P: Alarms + Drop>(
    alloc: Global,
    history: NewHistory<Growth>,
    moments: &Moments<J>,
    plant: P,
    lookers: usize,
) -> Result<(SharedBoard<J, P>, Durable<J>), AllocError>
    requires book { history.seen.book ≡ J.book }
    requires moments { moments.now ≡ [] }
    requires base { P.plant plant ≡ J.base }
    requires lookers { (0 < lookers) × (lookers < 2 ^ 32) }
    ensures published { IfOk result (λ r. board_shown r.0 ≡ []) }
    ensures pending { IfOk result (λ r. board_pending r.0 ≡ []) }
{
    let second = plant.copy(alloc)?;
    let history = ActionHistory::<J>::new(alloc, history).ok_or(AllocError)?;
    let prefix = history.prefix();
    let told = Durable {
        prefix: prefix.again(),
        moments: moments.again(),
    };
    let first = ShownPlant {
        plant,
        recent: RecentEvents::new(alloc)?,
        told: told.again(),
    };
    let second = ShownPlant {
        plant: second,
        recent: RecentEvents::new(alloc)?,
        told: told.again(),
    };
    let board = Publisher::new(alloc, first, second, lookers, prefix, history)?;
    Ok((board, told))
}

/// A board without published actions, which shows the plant that the run begins with, and a number of looks at it. It takes two
/// of each: the plant and its copy, and room for the last 65,536 events. An error means out of memory, and has the board if it
/// was begun: end it by [`Publisher::take`].
pub fn open_board<J: RunId, P: Alarms + Drop>(
    alloc: Global,
    history: NewHistory<Growth>,
    moments: &Moments<J>,
    plant: P,
    lookers: usize,
) -> Result<(SharedBoard<J, P>, Vec<SharedLook<J, P>>), Option<SharedBoard<J, P>>>
    requires book { history.seen.book ≡ J.book }
    requires moments { moments.now ≡ [] }
    requires base { P.plant plant ≡ J.base }
    requires lookers { (0 < lookers) × (lookers < 2 ^ 32) }
    ensures published { IfOk result (λ r. board_shown r.0 ≡ []) }
    ensures pending { IfOk result (λ r. board_pending r.0 ≡ []) }
    ensures lookers { IfOk result (λ r. vec_len r.1 ≡ lookers) }
{
    let extent = Extent::new(&plant);
    let Ok((board, told)) = begin(alloc, history, moments, plant, lookers) else {
        return Err(None);
    };
    match looks(alloc, &board, &told, &extent, lookers) {
        Ok(looks) => Ok((board, looks)),
        Err(_) => Err(Some(board)),
    }
}

// A number of looks that have seen no actions.
fn looks<J: RunId, P: Alarms + Drop>(
    alloc: Global,
    board: &SharedBoard<J, P>,
    told: &Durable<J>,
    extent: &Extent<J>,
    lookers: usize,
) -> Result<Vec<SharedLook<J, P>>, AllocError>
    ensures { IfOk result (λ looks. vec_len looks ≡ lookers) }
{
    let mut looks = Vec::with_capacity(alloc, lookers)?;
    for _ in 0..lookers {
        let look = SharedLook {
            reader: Some(board.reader()?),
            gone: GoneCount::new(),
            known: told.again(),
            extent: extent.again(),
        };
        if looks.push(look).is_err() {
            return Err(AllocError);
        }
    }
    Ok(looks)
}
