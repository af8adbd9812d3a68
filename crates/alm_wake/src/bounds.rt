//! How often, how long and for how many slots the threads wait.

/// How often a thread checks again, and only yields, before it sleeps: a few microseconds.
pub const YIELDS: u32 = 8;

/// The same if it was woken ahead of what it waits for: some 15 microseconds.
pub const EARLY_YIELDS: u32 = 32;

/// How long a thread sleeps at most before it checks by itself, in milliseconds.
pub const SLEEP: u64 = 100;

/// How long a pause is at most, in microseconds.
pub const LONGEST_PAUSE: u64 = 500;

/// The open batch waits for a pause of the last commit's time divided by this.
pub const GATHER_SHARE: u64 = 2;

/// The sequencer's thread dozes for the last commit's time divided by this.
pub const DOZE_SHARE: u64 = 4;

/// How many turns in a row without work it dozes through: four commits of that time. A device that hangs keeps no thread awake.
pub const DOZES: u32 = 16;

/// If only this number of the awaited slots is still to come, the thread that waits for them is woken. It takes about as long to
/// wake as they take to come.
pub const FEW: u32 = 2;

/// Next to the slots' bits in the word of the awaited slots: the thread that waits for them is awake.
pub const AWAKE: u32 = 1 << 31;

/// A slot with this number of replies in one batch asks on without waiting for them.
pub const MANY: u16 = 8;

/// How many batches must wait before a slot is left asleep.
pub const QUEUE: u64 = 2;

/// How many turns in a row find no batch before an open checkpoint continues: by then the flusher's thread has slept, and it
/// sends a piece each time it wakes. While batches come, each takes a piece along: pieces that went out between them would all
/// wait for the next one's sync.
pub const REST: u32 = YIELDS + 2;
