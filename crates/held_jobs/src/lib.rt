// What a dispatcher holds of its jobs: its definitions stand in specs/ and its laws in proofs/. Here are the boards of a job.
#![tactic(auto)]

// The board of each event of the job in a place.
#[repr(C)]
#[derive(Clone, Copy)]
pub struct Boards {
    pub on: [u8; model::EVENTS_MOST],
}
