//! A store of actions over a device, as the flusher and all above it see one.
//!
//! ```text
//! let mut store = K::open(alloc, device)?;
//! store.begin(&batch)?;
//! while let Progress::More = store.advance() {}
//! ```
//!
//! A [`Store`] commits batches and makes checkpoints, one device call at a time. Its contract says which plant is stored, which
//! one is when the work that is under way is done, and what its device may hold at any moment. The keeper is one; what uses this
//! crate alone is proved for every other as well.
//!
//! | phase | `begin` | `begin_checkpoint` | `advance` |
//! |---|---|---|---|
//! | idle | begins a commit of the next batch | opens a checkpoint | |
//! | committing | refused | refused | one device call |
//! | copying | refused | refused | one device call of the checkpoint that is open |
//! | paused | begins a commit of the next batch | refused | one piece of the checkpoint that is open |
//! | stopped | refused | refused | |
//!
//! What is used above: at any moment every image of the device encodes the stored plant, or the next one. A commit that is done
//! has stored its batch; a checkpoint stores what was stored. What was taken during a checkpoint is also taken after it, and a
//! checkpoint that no commit came into makes room for any batch. A call fails only if the device failed in it.
//!
//! How fast an open checkpoint goes out is said by what each call makes of it (Pacing). A piece of at most 65,536 bytes goes out
//! by each call of a paused store. A commit adds one frame, and a checkpoint that is done leaves the frames that came into it.
//!
//! Not covered: that there is room for a batch. A store that keeps its pace has it. The crate has a trait and no body; wrong bodies
//! of a store stand in alm_keeper.
//!
//! Proved:
//! - what a store promises to all above it: each image holds the stored plant or the next one; one write or one sync a step
//!   (by `Store`)
#![tactic(auto)]

mod open_fault;
mod phase;
mod progress;
mod refused;
mod store;

pub use open_fault::OpenFault;
pub use phase::Phase;
pub use progress::Progress;
pub use refused::Refused;
pub use store::Store;
