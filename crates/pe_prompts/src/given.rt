//! What is kept of each prompt that was given.
use pe_base::FrameNo;

// The page of a prompt, and whether it is settled.
#[derive(Clone, Copy)]
pub(crate) struct Given {
    pub page: FrameNo,
    pub settled: bool,
}
