//! Why a line is refused.

/// Why a line is refused, in the order in which the causes are tried. The first three are of lines that are
/// no event: no event is refused for them.
#[derive(Clone, Copy, Debug, PartialEq, Eq)]
pub enum Cause {
    /// The line has over 16,384 bytes.
    LineTooLong,
    /// It is no comment and has a byte other than tab and 0x20 to 0x7E.
    BadByte,
    /// It is not in the grammar of a script line.
    Syntax,
    /// The history has 1,000,000 events.
    LimitEvents,
    /// Its time is below the clock.
    TimeBack,
    /// A named frame, status, prompt or message was made by no event.
    Unknown,
    /// The named prompt was answered, or a delivery of the named message was accepted.
    Settled,
    /// A named frame is not live; the status was dropped or its document is not current; no request of
    /// the prompt has a current document.
    Closed,
    /// The named prompt is not the shown one.
    NotShown,
    /// A URL word is refused by the URL parser, or an origin word has no tuple origin.
    Url,
    /// The name is no feature of the table, or one that the verb has no use for.
    Feature,
    /// The call is not in the table.
    Call,
    /// The capability is not in the table.
    Capability,
    /// The two frames have different top frames.
    OtherPage,
    /// There are 64 live top frames.
    LimitPages,
    /// The frame has depth 64.
    LimitDepth,
    /// The page has 256 live frames.
    LimitFrames,
    /// The page has 256 live statuses.
    LimitStatuses,
    /// The page has 256 pending prompts, or 256 messages that no delivery settled.
    LimitPending,
    /// The store has 65,536 entries and none of the pair.
    LimitStore,
}
