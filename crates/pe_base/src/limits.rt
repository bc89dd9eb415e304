//! The limits of a session. They are this project's own.

/// The longest line, in bytes, without its line feed and without a carriage return before that.
pub const LINE_LIMIT: usize = 16_384;

/// The most events that a history holds.
pub const EVENT_LIMIT: u32 = 1_000_000;

/// The most live top frames.
pub const PAGE_LIMIT: u32 = 64;

/// The greatest depth of a frame; a top frame has depth 1.
pub const DEPTH_LIMIT: u32 = 64;

/// The most live frames of a page.
pub const FRAME_LIMIT: u32 = 256;

/// The most live permission statuses of a page.
pub const STATUS_LIMIT: u32 = 256;

/// The most pending prompts of a page.
pub const PENDING_LIMIT: u32 = 256;

/// The most messages of a page that no delivery settled, by delivering or dropping them.
pub const MESSAGE_LIMIT: u32 = 256;

/// The most entries of the permission store.
pub const STORE_LIMIT: usize = 65_536;

/// The latest time, and the longest span of a setting, in milliseconds.
pub const TIME_LIMIT: u64 = 9_999_999_999_999;

/// The longest duration of transient activation, in milliseconds.
pub const DURATION_LIMIT: u32 = 60_000;

/// The longest input, in bytes.
pub const INPUT_LIMIT: u64 = 1_073_741_824;

/// The greatest number that a script may put into the name of a frame, status, prompt or message.
pub const NAME_LIMIT: u32 = 9_999_999;

/// How many dismissals of a pair of feature and key that count since its last setting are an embargo.
pub const EMBARGO_DISMISSALS: u32 = 3;

/// How long an embargo denies a pair, in milliseconds: seven days.
pub const EMBARGO_SPAN: u64 = 604_800_000;
