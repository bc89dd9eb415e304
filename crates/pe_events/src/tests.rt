//! What no contract says: that there is memory for each line.
use crate::{Answer, Cause, Change, Reason, answer_text, change_text};
use pe_base::{Denial, DocNo, FrameNo, LinkRule, MessageNo, Millis, PromptNo, State, StatusNo};
use pe_features::Feature;
use pe_origin::Origin;
use std::test::Fail;

/// The features that a top document without a header may use: each that a policy controls.
fn controlled() -> [bool; 16] {
    let mut allowed = [true; 16];
    allowed[Feature::Notifications.index()] = false;
    allowed[Feature::Push.index()] = false;
    allowed
}

#[test]
fn answers_are_written(rt: HostRuntime) -> Result<(), Fail> {
    let origin = Origin::Opaque(DocNo::of(3));
    let denial = Denial {
        rule: LinkRule::OwnHeader,
        at: DocNo::of(7),
    };
    let rows = [
        (
            Answer::FrameMade {
                frame: FrameNo::of(3),
                doc: DocNo::of(3),
                origin,
            },
            "12 frame f3 doc d3 opaque:d3\n",
        ),
        (
            Answer::DocMade {
                doc: DocNo::of(9),
                origin: Origin::Opaque(DocNo::of(9)),
            },
            "12 doc d9 opaque:d9\n",
        ),
        (Answer::Done, "12 ok\n"),
        (Answer::Activated { count: 2 }, "12 activated 2\n"),
        (Answer::Ignored, "12 ignored\n"),
        (
            Answer::Activity {
                sticky: true,
                transient: false,
            },
            "12 sticky yes transient no\n",
        ),
        (Answer::Allowed, "12 allowed\n"),
        (
            Answer::Denied {
                reason: Reason::Insecure,
            },
            "12 denied insecure\n",
        ),
        (
            Answer::Denied {
                reason: Reason::Policy(denial),
            },
            "12 denied own-header d7\n",
        ),
        (
            Answer::Denied {
                reason: Reason::NoHistory,
            },
            "12 denied no-history\n",
        ),
        (
            Answer::Names {
                allowed: [false; 16],
            },
            "12 features\n",
        ),
        (
            Answer::StatusMade {
                status: StatusNo::of(4),
                state: State::Prompt,
            },
            "12 status s4 prompt\n",
        ),
        (
            Answer::Stated {
                state: State::Denied,
            },
            "12 denied\n",
        ),
        (
            Answer::PromptMade {
                prompt: PromptNo::of(5),
            },
            "12 prompt p5\n",
        ),
        (
            Answer::PromptJoined {
                prompt: PromptNo::of(5),
            },
            "12 joined p5\n",
        ),
        (
            Answer::Settled {
                count: 0,
                state: State::Granted,
            },
            "12 settled 0 granted\n",
        ),
        (
            Answer::MessageMade {
                message: MessageNo::of(6),
            },
            "12 message m6\n",
        ),
        (Answer::Delivered, "12 delivered\n"),
        (Answer::DroppedGone, "12 dropped gone\n"),
        (Answer::DroppedOther, "12 dropped other-origin\n"),
        (
            Answer::Refused {
                cause: Cause::LimitPending,
            },
            "12 refused limit-pending\n",
        ),
    ];
    for (answer, line) in rows {
        let text = answer_text(rt.alloc(), 12, &answer)?;
        assert_eq!(rt; text.as_slice(), line.as_bytes());
    }
    Ok(())
}

#[test]
fn names_of_features_are_written(rt: HostRuntime) -> Result<(), Fail> {
    let answer = Answer::Names {
        allowed: controlled(),
    };
    let text = answer_text(rt.alloc(), 2, &answer)?;
    let line =
        "2 features accelerometer autoplay camera clipboard-read clipboard-write display-capture fullscreen geolocation gyroscope microphone midi payment picture-in-picture storage-access\n";
    assert_eq!(rt; text.as_slice(), line.as_bytes());
    Ok(())
}

#[test]
fn changes_are_written(rt: HostRuntime) -> Result<(), Fail> {
    let change = Change {
        time: Millis::of(9_999_999_999_999),
        status: StatusNo::of(1_000_000),
        state: State::Granted,
    };
    let text = change_text(rt.alloc(), &change)?;
    assert_eq!(rt;
        text.as_slice(),
        "@9999999999999 s1000000 granted\n".as_bytes()
    );
    Ok(())
}
