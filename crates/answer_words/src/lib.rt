// The words of the calls' answers and the kinds of steps, as C is told them. Each is the number of the same name in the model, and a proof that
// uses one ties the two together.
#![tactic(auto)]

// The check, with choices and with permitted senders too (specs/Answer).
pub mod checked {
    pub const FREE: u32 = 0;

    pub const LOCKED: u32 = 1;

    pub const REFUSED: u32 = 2;
}

// A trace from another tool (specs/Replay).
pub mod replayed {
    pub const FINISHED: u32 = 0;

    pub const STUCK: u32 = 1;

    pub const OPEN: u32 = 2;

    pub const NOT_ALLOWED: u32 = 3;

    pub const REFUSED: u32 = 4;
}

// The calls of a monitor (specs/Monitor).
pub mod monitored {
    pub const TAKEN: u32 = 0;

    pub const FORBIDDEN: u32 = 1;

    pub const REFUSED: u32 = 2;
}

// Where a monitored run stands (specs/Standing).
pub mod stood {
    pub const FINISHED: u32 = 0;

    pub const STUCK: u32 = 1;

    pub const OPEN: u32 = 2;

    pub const REFUSED: u32 = 3;
}

// The cure (specs/Cure).
pub mod cured {
    pub const WRITTEN: u32 = 0;

    pub const REFUSED: u32 = 1;
}

// The calls of a dispatcher (specs/Dispatcher).
pub mod served {
    pub const ADMITTED: u32 = 0;

    pub const IDLE: u32 = 1;

    pub const TAKEN: u32 = 2;

    pub const ANSWERED: u32 = 3;

    pub const CANCELLED: u32 = 4;

    pub const REFUSED: u32 = 5;
}

// A table of permitted senders (specs/Senders).
pub mod judged {
    pub const SOUND: u32 = 0;

    pub const GAP: u32 = 1;

    pub const CLASH: u32 = 2;

    pub const REFUSED: u32 = 3;
}

// Two taps (specs/Taps).
pub mod fitted {
    pub const FIT: u32 = 0;

    pub const CLASH: u32 = 1;

    pub const REFUSED: u32 = 2;
}

// The messages and the races of a sheet (specs/Holdings).
pub mod listed {
    pub const LISTED: u32 = 0;

    pub const REFUSED: u32 = 1;
}

// The kinds of steps, as a trace has them (specs/Schedule).
pub mod kinds {
    pub const SEND: u8 = 0;

    pub const DELIVER: u8 = 1;

    pub const CONSUME: u8 = 2;
}
