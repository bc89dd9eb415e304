//! Whole runs: scripts and what is written for them, through the rows of the format. That each line is
//! answered by the definitions is proved; here the text itself is held against rows from outside.
ghost use Rattle.std.specs.Prelude.{◌≡◌, IfOk};

use crate::{Status, run_within, serve};
use pe_io::{MemSink, MemSource, PlainSource};
use std::alloc::Global;
use std::test::Fail;

/// The words of the command line.
fn arguments(alloc: Global, words: &[&str]) -> Result<Vec<String>, Fail> {
    let mut arguments = Vec::new(alloc);
    for word in words {
        arguments.push(String::from_str(alloc, word)?)?;
    }
    Ok(arguments)
}

/// A sink with this room, without sizes or failing calls.
fn sink_of(alloc: Global, room: usize) -> Result<MemSink, Fail>
    ensures { IfOk result (λ s. s.faults ≡ 0) }
{
    Ok(MemSink::new(alloc, room, Vec::new(alloc), Vec::new(alloc))?)
}

/// Runs the words over a script.
fn run(rt: &HostRuntime, words: &[&str], script: &[u8]) -> Result<(Status, MemSink), Fail> {
    let alloc = rt.alloc();
    let arguments = arguments(alloc, words)?;
    let mut source = PlainSource::new(script.to_vec(alloc)?);
    let mut sink = sink_of(alloc, 65_536)?;
    let status = serve(alloc, &arguments, &mut source, &mut sink);
    Ok((status, sink))
}

/// A page, and what is written for it as the first line.
const PAGE: &str = "0 open https://a.example/\n";

const PAGE_TEXT: &str = "1 frame f1 doc d1 https://a.example\n";

/// The script of the tables on faults, of 45 bytes, and its text, of 46.
const TWO_LINES: &[u8] = b"0 open https://a.example/\n0 policy f1 camera\n";

const TWO_TEXT: &[u8] = b"1 frame f1 doc d1 https://a.example\n2 allowed\n";

#[test]
fn scripts(rt: HostRuntime) -> Result<(), Fail> {
    let cases: [(&str, &str, Status); 19] = [
        ("", "", Status::Clean),
        ("# note\n \t\n\n", "", Status::Clean),
        (
            "0 open https://a.example/\n0 policy f1 camera\n",
            "1 frame f1 doc d1 https://a.example\n2 allowed\n",
            Status::Clean,
        ),
        (
            "0 open https://a.example/\r\n0 embed f1 https://b.example/\r\n0 policy f2 camera",
            "1 frame f1 doc d1 https://a.example\n2 frame f2 doc d2 https://b.example\n3 denied default d2\n",
            Status::Clean,
        ),
        (
            "0 open https://a.example/\n0 embed f1 https://b.example/\n0 embed f2 https://b.example/\n\
             0 embed f3 https://a.example/\n0 policy f4 camera\n0 policy f4 picture-in-picture\n0 policy f4 push\n",
            "1 frame f1 doc d1 https://a.example\n2 frame f2 doc d2 https://b.example\n\
             3 frame f3 doc d3 https://b.example\n4 frame f4 doc d4 https://a.example\n5 denied default d2\n\
             6 allowed\n7 refused feature\n",
            Status::Refusals,
        ),
        (
            "0 open https://a.example:8443/x\n0 embed f1 about:blank\n0 embed f2 data:text/html,x\n0 policy f3 midi\n",
            "1 frame f1 doc d1 https://a.example:8443\n2 frame f2 doc d2 https://a.example:8443\n\
             3 frame f3 doc d3 opaque:d3\n4 denied default d3\n",
            Status::Clean,
        ),
        ("0 open nonsense\n", "1 refused url\n", Status::Refusals),
        (
            "0 policy f9 camera\n",
            "1 refused unknown\n",
            Status::Refusals,
        ),
        (
            "0 embed f9 nonsense\n",
            "1 refused unknown\n",
            Status::Refusals,
        ),
        ("0 fly\n", "1 refused syntax\n", Status::Refusals),
        (
            "01 open https://a.example/\n0 open none\n\"0\" open https://a.example/\n0 \"open\" https://a.example/\n\
             0 policy f01 camera\n0 policy f camera\n0 policy f0 camera\n0 policy f1 Camera\n0 policy f1 \"camera\"\n",
            "1 refused syntax\n2 refused url\n3 refused syntax\n4 refused syntax\n5 refused syntax\n\
             6 refused syntax\n7 refused syntax\n8 refused unknown\n9 refused syntax\n",
            Status::Refusals,
        ),
        (
            "0 open \"https://a.example/\"\n0 embed f1 \"https://b.example/\"\n0 open \"none\"\n0 embed f1 \"none\"\n0 embed f1 none\n",
            "1 frame f1 doc d1 https://a.example\n2 frame f2 doc d2 https://b.example\n3 refused url\n4 refused url\n5 frame f3 doc d3 https://a.example\n",
            Status::Refusals,
        ),
        (
            "0 open about:blank\n\n0 policy f1 camera\n0 policy f2 camera\n",
            "1 frame f1 doc d1 opaque:d1\n3 allowed\n4 refused unknown\n",
            Status::Refusals,
        ),
        (
            "0 open https://a.example/\n0 embed f1 https://b.example/ allow camera\n0 policy f1 fly\n0 policy f9 push\n",
            "1 frame f1 doc d1 https://a.example\n2 frame f2 doc d2 https://b.example\n3 refused feature\n4 refused unknown\n",
            Status::Refusals,
        ),
        (
            "0 open https://a.example/\x01\n# \x01\n",
            "1 refused bad-byte\n",
            Status::Refusals,
        ),
        ("\r", "", Status::Clean),
        (
            "0 open nonsense\r\r\n0 open nonsense\r",
            "1 refused bad-byte\n2 refused url\n",
            Status::Refusals,
        ),
        (
            "0 open https://a.example/\n0 policy f1 camera x\n",
            "1 frame f1 doc d1 https://a.example\n2 refused syntax\n",
            Status::Refusals,
        ),
        (
            "\t 0\topen  https://a.example/ \n0 policy f1 camera\n",
            "1 frame f1 doc d1 https://a.example\n2 allowed\n",
            Status::Clean,
        ),
    ];
    for (script, text, wanted) in cases {
        let (status, sink) = run(&rt, &["run"], script.as_bytes())?;
        assert_eq!(rt; sink.as_slice(), text.as_bytes(), "text of {script:?}");
        assert_eq!(rt; status, wanted, "status of {script:?}");
    }
    Ok(())
}

/// The scripts of this table begin with a page of `https://a.example/` that has the header, or none
/// where it is empty; its line of output is left out.
#[test]
fn headers(rt: HostRuntime) -> Result<(), Fail> {
    let cases: [(&str, &str, &str); 22] = [
        (
            r#"header "geolocation=*""#,
            "0 embed f1 https://b.example/\n0 policy f2 geolocation\n",
            "2 frame f2 doc d2 https://b.example\n3 denied default d2\n",
        ),
        (
            r#"header "camera=(), camera=*""#,
            "0 policy f1 camera\n",
            "2 allowed\n",
        ),
        (
            r#"header "camera=(),""#,
            "0 policy f1 camera\n",
            "2 allowed\n",
        ),
        (
            r#"header "camera=()""#,
            "0 policy f1 camera\n",
            "2 denied own-header d1\n",
        ),
        (
            "header camera=()",
            "0 policy f1 camera\n",
            "2 denied own-header d1\n",
        ),
        (
            r#"header "geolocation=(self \"https://b.example\")""#,
            "0 embed f1 https://b.example/\n0 policy f2 geolocation\n0 policy f1 geolocation\n",
            "2 frame f2 doc d2 https://b.example\n3 denied default d2\n4 allowed\n",
        ),
        (
            r#"header "storage-access=(self)""#,
            "0 embed f1 https://b.example/\n0 policy f2 storage-access\n0 policy f1 push\n0 policy f1 fly\n",
            "2 frame f2 doc d2 https://b.example\n3 denied embedder-header d1\n4 refused feature\n5 refused feature\n",
        ),
        // The header lists one child's origin, and not the other's.
        (
            r#"header "storage-access=(self \"https://b.example\")""#,
            "0 embed f1 https://b.example/\n0 embed f1 https://c.example/\n0 policy f2 storage-access\n0 policy f3 storage-access\n",
            "2 frame f2 doc d2 https://b.example\n3 frame f3 doc d3 https://c.example\n4 allowed\n5 denied embedder-header d1\n",
        ),
        // The page's own header denies it the feature, and so each of its children.
        (
            r#"header "camera=()""#,
            "0 embed f1 https://a.example/\n0 embed f2 https://b.example/\n0 policy f2 camera\n0 policy f3 camera\n",
            "2 frame f2 doc d2 https://a.example\n3 frame f3 doc d3 https://b.example\n4 denied embedder-self d1\n5 denied embedder-self d1\n",
        ),
        // The embedder's header comes before the default allowlist, and that before the child's header.
        (
            r#"header "camera=(self)""#,
            "0 embed f1 https://b.example/ header camera=()\n0 policy f2 camera\n0 policy f2 midi\n",
            "2 frame f2 doc d2 https://b.example\n3 denied embedder-header d1\n4 denied default d2\n",
        ),
        (
            "",
            "0 embed f1 https://b.example/ header camera=()\n0 policy f2 camera\n",
            "2 frame f2 doc d2 https://b.example\n3 denied default d2\n",
        ),
        (
            "",
            "0 embed f1 https://a.example/ header \"camera=()\"\n0 embed f2 about:blank\n0 policy f1 camera\n\
             0 policy f2 camera\n0 policy f3 camera\n",
            "2 frame f2 doc d2 https://a.example\n3 frame f3 doc d3 https://a.example\n4 allowed\n\
             5 denied own-header d2\n6 denied embedder-self d2\n",
        ),
        // `self` in a child's header is the child's own origin.
        (
            "",
            "0 embed f1 data:text/html,x header \"storage-access=self\"\n0 embed f2 https://a.example/\n\
             0 policy f2 storage-access\n0 policy f3 storage-access\n",
            "2 frame f2 doc d2 opaque:d2\n3 frame f3 doc d3 https://a.example\n4 allowed\n5 denied embedder-header d2\n",
        ),
        // Several headers are one.
        (
            r#"header "camera=(self)" header "midi=()""#,
            "0 policy f1 camera\n0 policy f1 midi\n",
            "2 allowed\n3 denied own-header d1\n",
        ),
        (
            r#"header "camera=()" header "camera=*""#,
            "0 policy f1 camera\n",
            "2 allowed\n",
        ),
        (
            "header camera=* header midi=() header camera=()",
            "0 policy f1 camera\n0 policy f1 midi\n",
            "2 denied own-header d1\n3 denied own-header d1\n",
        ),
        (
            r#"header "camera=()" header """#,
            "0 policy f1 camera\n",
            "2 allowed\n",
        ),
        (r#"header """#, "0 policy f1 camera\n", "2 allowed\n"),
        (
            "header header header camera=()",
            "0 policy f1 camera\n",
            "2 denied own-header d1\n",
        ),
        // What is no dictionary is not refused.
        (
            r#"header "camera=(self""#,
            "0 policy f1 camera\n",
            "2 allowed\n",
        ),
        // Options beside headers, and headers that are cut short or misspelled.
        (
            "",
            "0 embed f1 https://b.example/ header camera=() srcdoc\n0 embed f1 https://b.example/ at https://c.example/ header camera=()\n\
             0 embed f1 none header camera=()\n0 embed f1 none srcdoc\n0 embed f1 https://b.example/ sandbox \"\"\n\
             0 embed f1 https://b.example/ fullscreen\n",
            "2 refused syntax\n3 frame f2 doc d2 https://c.example\n4 frame f3 doc d3 https://a.example\n\
             5 frame f4 doc d4 https://a.example\n6 frame f5 doc d5 opaque:d5\n7 frame f6 doc d6 https://b.example\n",
        ),
        (
            "",
            "0 open https://b.example/ header\n0 open https://b.example/ header camera=() header\n0 open https://b.example/ \"header\" camera=()\n\
             0 open https://b.example/ Header camera=()\n0 open https://b.example/ camera=() header\n0 open none header camera=()\n\
             0 policy f1 camera header camera=()\n0 embed f1 header camera=()\n",
            "2 refused syntax\n3 refused syntax\n4 refused syntax\n5 refused syntax\n6 refused syntax\n7 refused url\n\
             8 refused syntax\n9 refused syntax\n",
        ),
    ];
    for (header, more, text) in cases {
        let script = format!(in rt.alloc(); "0 open https://a.example/ {header}\n{more}")?;
        let whole = format!(in rt.alloc(); "{PAGE_TEXT}{text}")?;
        let wanted = if text.contains("refused") {
            Status::Refusals
        } else {
            Status::Clean
        };
        let (status, sink) = run(&rt, &["run"], script.as_bytes())?;
        assert_eq!(rt; sink.as_slice(), whole.as_bytes(), "text of {script:?}");
        assert_eq!(rt; status, wanted, "status of {script:?}");
    }
    Ok(())
}

#[test]
fn words(rt: HostRuntime) -> Result<(), Fail> {
    let usage = b"usage: permissions run [MS] | generate SEED COUNT | check\n";
    let wrong: [&[&str]; 20] = [
        &[],
        &["run", "0"],
        &["run", "05"],
        &["run", "60001"],
        &["run", "100000"],
        &["run", "+5"],
        &["run", ""],
        &["run", "run"],
        &["run", "5", "5"],
        &["Run"],
        &["check"],
        &["generate"],
        &["generate", "7"],
        &["generate", "7", "0"],
        &["generate", "7", "01"],
        &["generate", "7", "100001"],
        &["generate", "07", "1"],
        &["generate", "18446744073709551616", "1"],
        &["generate", "7", "7", "7"],
        &["Generate", "7", "7"],
    ];
    for words in wrong {
        let (status, sink) = run(&rt, words, PAGE.as_bytes())?;
        assert_eq!(rt; sink.as_slice(), usage.as_slice());
        assert_eq!(rt; status, Status::Words);
    }
    let right: [&[&str]; 3] = [&["run"], &["run", "1"], &["run", "60000"]];
    for words in right {
        let (status, sink) = run(&rt, words, PAGE.as_bytes())?;
        assert_eq!(rt; sink.as_slice(), PAGE_TEXT.as_bytes());
        assert_eq!(rt; status, Status::Clean);
    }
    Ok(())
}

/// A list of so many ones.
fn ones(alloc: Global, count: usize) -> Result<Vec<usize>, Fail> {
    Ok(vec![in alloc; 1; count]?)
}

/// A shop, the frame of its payment service, and an advertisement.
const SHOP: &str = r#"# A shop, the frame of its payment service, and an advertisement.
0 open https://shop.example/ header "geolocation=(self)"
0 embed f1 https://pay.example/checkout allow "payment 'src'"
0 embed f1 https://ads.example/banner
# What the advertisement may not do.
10 policy f3 geolocation
10 use f3 open-window
10 use f3 vibrate
# The shop asks where its customer is, for a minute.
1000 query f1 geolocation
1500 input f1 pointerup-touch
1500 request f1 geolocation
2500 answer p9 allow for 60000
2600 use f1 get-position
# It delegates a payment, which takes the input of before.
3000 post f1 f2 https://pay.example payment
3005 deliver m12
3010 use f2 show-payment
3011 use f2 show-payment
# An input in the advertisement activates the shop too, and a window that it opens takes that of both.
4000 input f3 mousedown
4001 use f3 open-window
4002 state f1
4002 use f1 open-window
# The minute ends, and the shop is left.
62499 tick
62600 use f1 get-position
63000 close f1
"#;

const SHOP_TEXT: &str = r#"2 frame f1 doc d1 https://shop.example
3 frame f2 doc d2 https://pay.example
4 frame f3 doc d3 https://ads.example
6 denied embedder-header d1
7 denied no-transient
8 denied no-sticky
10 status s7 prompt
11 activated 1
12 prompt p9
13 settled 1 granted
@2500 s7 granted
14 allowed
16 message m12
17 delivered
18 allowed
19 denied no-transient
21 activated 2
22 allowed
23 sticky yes transient no
24 denied no-transient
26 ok
@62500 s7 prompt
27 denied permission-prompt
28 ok
"#;

/// The whole session in one piece, and in pieces of one byte.
#[test]
fn a_shop_whole_and_byte_by_byte(rt: HostRuntime) -> Result<(), Fail> {
    let alloc = rt.alloc();
    let (status, sink) = run(&rt, &["run"], SHOP.as_bytes())?;
    assert_eq!(rt; sink.as_slice(), SHOP_TEXT.as_bytes());
    assert_eq!(rt; status, Status::Clean);
    let mut source = MemSource::new(
        SHOP.as_bytes().to_vec(alloc)?,
        ones(alloc, SHOP.len() + 1)?,
        Vec::new(alloc),
    );
    let mut sink = sink_of(alloc, 65_536)?;
    let status = run_within(alloc, 5000, 1_073_741_824, &mut source, &mut sink);
    assert_eq!(rt; sink.as_slice(), SHOP_TEXT.as_bytes());
    assert_eq!(rt; status, Status::Clean);
    Ok(())
}

#[test]
fn failing_reads(rt: HostRuntime) -> Result<(), Fail> {
    let alloc = rt.alloc();
    for call in 0..=46u64 {
        let mut source = MemSource::new(
            TWO_LINES.to_vec(alloc)?,
            ones(alloc, 46)?,
            vec![in alloc; call]?,
        );
        let mut sink = sink_of(alloc, 46)?;
        let status = run_within(alloc, 5000, 1_073_741_824, &mut source, &mut sink);
        let (text, wanted) = match call {
            0..=25 => (b"".as_slice(), Status::ReadFault),
            26..=44 => (PAGE_TEXT.as_bytes(), Status::ReadFault),
            45 => (TWO_TEXT, Status::ReadFault),
            _ => (TWO_TEXT, Status::Clean),
        };
        assert_eq!(rt; sink.as_slice(), text, "call {call}");
        assert_eq!(rt; status, wanted, "call {call}");
    }
    Ok(())
}

#[test]
fn failing_writes(rt: HostRuntime) -> Result<(), Fail> {
    let alloc = rt.alloc();
    for room in 0..=46usize {
        let mut source = PlainSource::new(TWO_LINES.to_vec(alloc)?);
        let mut sink = sink_of(alloc, room)?;
        let status = run_within(alloc, 5000, 1_073_741_824, &mut source, &mut sink);
        let wanted = if room == 46 {
            Status::Clean
        } else {
            Status::WriteFault
        };
        assert_eq!(rt; sink.as_slice(), &TWO_TEXT[..room], "room {room}");
        assert_eq!(rt; status, wanted, "room {room}");
    }
    for call in 0..=10usize {
        let mut source = PlainSource::new(TWO_LINES.to_vec(alloc)?);
        let mut sink = MemSink::new(alloc, 46, ones(alloc, 11)?, vec![in alloc; call as u64]?)?;
        let status = run_within(alloc, 5000, 1_073_741_824, &mut source, &mut sink);
        assert_eq!(rt; sink.as_slice(), &TWO_TEXT[..call], "call {call}");
        assert_eq!(rt; status, Status::WriteFault, "call {call}");
    }
    Ok(())
}

/// How many lines each call of the sink writes where the shop's script comes byte by byte: the text of one
/// line of the script, its changes with it.
const SHOP_CALLS: [usize; 23] = [
    1, 1, 1, 1, 1, 1, 1, 1, 1, 2, 1, 1, 1, 1, 1, 1, 1, 1, 1, 1, 2, 1, 0,
];

/// Each call of the sink fails in turn, and the last one of all comes after the text is whole.
#[test]
fn a_sink_that_fails_at_each_of_its_calls(rt: HostRuntime) -> Result<(), Fail> {
    let alloc = rt.alloc();
    let mut lines: usize = 0;
    for (call, more) in SHOP_CALLS.into_iter().enumerate() {
        let mut source = MemSource::new(
            SHOP.as_bytes().to_vec(alloc)?,
            ones(alloc, SHOP.len() + 1)?,
            Vec::new(alloc),
        );
        let fails = vec![in alloc; call as u64]?;
        let mut sink = MemSink::new(alloc, 65_536, Vec::new(alloc), fails)?;
        let status = run_within(alloc, 5000, 1_073_741_824, &mut source, &mut sink);
        let wrote = sink.as_slice();
        assert!(rt; SHOP_TEXT.as_bytes().starts_with(wrote), "call {call}");
        assert!(rt; wrote.is_empty() || wrote.ends_with(b"\n"), "call {call}");
        let feeds = wrote.iter().filter(|byte| **byte == b'\n').count();
        assert_eq!(rt; feeds, lines, "call {call}");
        let wanted = if call == 22 {
            Status::Clean
        } else {
            Status::WriteFault
        };
        assert_eq!(rt; status, wanted, "call {call}");
        lines = lines.saturating_add(more);
    }
    Ok(())
}

/// Frames that are gone and frames that no event made, and statuses, prompts and messages that are gone, were
/// settled, or that no event made.
const STALE: &str = r#"0 open https://a.example/
0 embed f1 https://b.example/
0 embed f1 https://c.example/ allow "camera; payment"
0 query f1 geolocation
0 drop s4
0 query f3 camera
0 request f1 geolocation
0 answer p7 allow
0 request f3 camera
0 request f1 microphone
0 input f1 mousedown
0 post f1 f3 https://c.example payment
0 deliver m12
0 answer p10 allow
0 close f2
0 close f3
0 nav f2 https://b.example/
0 attr f2 allow none
0 close f2
0 input f2 mousedown
0 state f2
0 history f2
0 policy f2 camera
0 features f2
0 use f2 vibrate
0 query f2 camera
0 request f2 camera
0 embed f2 https://b.example/
0 post f2 f1 https://a.example payment
0 post f1 f2 * payment
0 nav f99 https://b.example/
0 attr f99 allow none
0 close f99
0 input f99 mousedown
0 state f99
0 history f99
0 policy f99 camera
0 features f99
0 use f99 vibrate
0 query f99 camera
0 request f99 camera
0 embed f99 https://b.example/
0 post f99 f1 https://a.example payment
0 post f1 f99 * payment
0 drop s4
0 drop s6
0 drop s5
0 answer p7 allow
0 answer p9 allow
0 answer p8 allow
0 deliver m12
0 deliver m11
0 state f9999999
0 state f0
"#;

const STALE_TEXT: &str = r#"1 frame f1 doc d1 https://a.example
2 frame f2 doc d2 https://b.example
3 frame f3 doc d3 https://c.example
4 status s4 prompt
5 ok
6 status s6 prompt
7 prompt p7
8 settled 1 granted
9 prompt p9
10 prompt p10
11 activated 1
12 message m12
13 delivered
14 refused not-shown
15 ok
16 ok
17 refused closed
18 refused closed
19 refused closed
20 refused closed
21 refused closed
22 refused closed
23 refused closed
24 refused closed
25 refused closed
26 refused closed
27 refused closed
28 refused closed
29 refused closed
30 refused closed
31 refused unknown
32 refused unknown
33 refused unknown
34 refused unknown
35 refused unknown
36 refused unknown
37 refused unknown
38 refused unknown
39 refused unknown
40 refused unknown
41 refused unknown
42 refused unknown
43 refused unknown
44 refused unknown
45 refused closed
46 refused closed
47 refused unknown
48 refused settled
49 refused closed
50 refused unknown
51 refused settled
52 refused unknown
53 refused unknown
54 refused syntax
"#;

#[test]
fn stale_names(rt: HostRuntime) -> Result<(), Fail> {
    let (status, sink) = run(&rt, &["run"], STALE.as_bytes())?;
    assert_eq!(rt; sink.as_slice(), STALE_TEXT.as_bytes());
    assert_eq!(rt; status, Status::Refusals);
    Ok(())
}

/// An input in one page activates nothing in another: the third line may be there or a tick in its place.
#[test]
fn two_pages(rt: HostRuntime) -> Result<(), Fail> {
    let cases: [(&str, &str); 2] = [
        (
            "0 open https://a.example/\n0 open https://c.example/\n0 input f2 mousedown\n1 use f1 open-window\n1 use f2 open-window\n",
            "1 frame f1 doc d1 https://a.example\n2 frame f2 doc d2 https://c.example\n3 activated 1\n4 denied no-transient\n5 allowed\n",
        ),
        (
            "0 open https://a.example/\n0 open https://c.example/\n0 tick\n1 use f1 open-window\n1 use f2 open-window\n",
            "1 frame f1 doc d1 https://a.example\n2 frame f2 doc d2 https://c.example\n3 ok\n4 denied no-transient\n5 denied no-transient\n",
        ),
    ];
    for (script, text) in cases {
        let (status, sink) = run(&rt, &["run"], script.as_bytes())?;
        assert_eq!(rt; sink.as_slice(), text.as_bytes());
        assert_eq!(rt; status, Status::Clean);
    }
    Ok(())
}

#[test]
fn summaries(rt: HostRuntime) -> Result<(), Fail> {
    let cases: [(&[&str], &str); 3] = [
        (
            &["generate", "0", "1"],
            "lines 1\nrefused 0\nallowed 0\ndenied 0\nchanges 0\nbytes 37\n",
        ),
        (
            &["generate", "18446744073709551615", "3"],
            "lines 3\nrefused 0\nallowed 0\ndenied 0\nchanges 0\nbytes 93\n",
        ),
        (
            &["generate", "7", "7"],
            "lines 7\nrefused 0\nallowed 0\ndenied 0\nchanges 0\nbytes 151\n",
        ),
    ];
    for (words, text) in cases {
        let (status, sink) = run(&rt, words, PAGE.as_bytes())?;
        assert_eq!(rt; sink.as_slice(), text.as_bytes());
        assert_eq!(rt; status, Status::Clean);
    }
    Ok(())
}

/// No line of a generated script is refused, and the same words give the same summary.
#[test]
fn generated_scripts_have_no_refused_line(rt: HostRuntime) -> Result<(), Fail> {
    let cases: [(&str, &str, &str); 4] = [
        ("0", "1000", "lines 1000\nrefused 0\n"),
        ("1", "1000", "lines 1000\nrefused 0\n"),
        ("7", "1000", "lines 1000\nrefused 0\n"),
        ("7", "100000", "lines 100000\nrefused 0\n"),
    ];
    for (seed, count, front) in cases {
        let (status, sink) = run(&rt, &["generate", seed, count], b"")?;
        assert!(rt; sink.as_slice().starts_with(front.as_bytes()));
        assert_eq!(rt; status, Status::Clean);
        let (_, again) = run(&rt, &["generate", seed, count], b"")?;
        assert_eq!(rt; again.as_slice(), sink.as_slice());
    }
    Ok(())
}

/// A summary into a sink with too little room.
#[test]
fn a_summary_that_does_not_fit(rt: HostRuntime) -> Result<(), Fail> {
    let alloc = rt.alloc();
    let arguments = arguments(alloc, &["generate", "0", "1"])?;
    let text = b"lines 1\nrefused 0\nallowed 0\ndenied 0\nchanges 0\nbytes 37\n";
    for room in 0..text.len() {
        let mut source = PlainSource::new(Vec::new(alloc));
        let mut sink = sink_of(alloc, room)?;
        let status = serve(alloc, &arguments, &mut source, &mut sink);
        assert_eq!(rt; sink.as_slice(), &text[..room], "room {room}");
        assert_eq!(rt; status, Status::WriteFault, "room {room}");
    }
    Ok(())
}

#[test]
fn limits_of_the_input(rt: HostRuntime) -> Result<(), Fail> {
    let alloc = rt.alloc();
    for limit in 0..=45u64 {
        let mut source = PlainSource::new(TWO_LINES.to_vec(alloc)?);
        let mut sink = sink_of(alloc, 46)?;
        let status = run_within(alloc, 5000, limit, &mut source, &mut sink);
        let (text, wanted) = match limit {
            0..=25 => (b"".as_slice(), Status::InputTooLong),
            26..=44 => (PAGE_TEXT.as_bytes(), Status::InputTooLong),
            _ => (TWO_TEXT, Status::Clean),
        };
        assert_eq!(rt; sink.as_slice(), text, "limit {limit}");
        assert_eq!(rt; status, wanted, "limit {limit}");
    }
    Ok(())
}

/// The second read fails, into a sink with room and into one without.
#[test]
fn text_is_written_before_the_next_read(rt: HostRuntime) -> Result<(), Fail> {
    let alloc = rt.alloc();
    for (room, wanted, faults) in [(100, Status::ReadFault, 1), (0, Status::WriteFault, 0)] {
        let mut source = MemSource::new(
            TWO_LINES.to_vec(alloc)?,
            vec![in alloc; 26]?,
            vec![in alloc; 1]?,
        );
        let mut sink = sink_of(alloc, room)?;
        let status = run_within(alloc, 5000, 1_073_741_824, &mut source, &mut sink);
        let text = if room == 0 { "" } else { PAGE_TEXT };
        assert_eq!(rt; sink.as_slice(), text.as_bytes());
        assert_eq!(rt; status, wanted);
        assert_eq!(rt; source.count(), faults);
    }
    Ok(())
}

#[test]
fn long_lines(rt: HostRuntime) -> Result<(), Fail> {
    let alloc = rt.alloc();
    for (letters, end, text) in [
        (16_383, "\n", ""),
        (16_384, "\n", "1 refused line-too-long\n"),
        (16_383, "\r\n", ""),
        (16_384, "\r\n", "1 refused line-too-long\n"),
        (16_383, "\r", ""),
        (16_384, "", "1 refused line-too-long\n"),
    ] {
        let mut comment = vec![in alloc; b'#']?;
        comment.extend_from_slice(&vec![in alloc; b'x'; letters]?)?;
        comment.extend_from_slice(end.as_bytes())?;
        let (_, sink) = run(&rt, &["run"], &comment)?;
        assert_eq!(rt;
            sink.as_slice(),
            text.as_bytes(),
            "a comment with {letters} letters and {end:?}"
        );
    }
    Ok(())
}

/// So many copies of a line.
fn copies(alloc: Global, line: &str, count: usize) -> Result<Vec<u8>, Fail> {
    let mut script = Vec::new(alloc);
    for _ in 0..count {
        script.extend_from_slice(line.as_bytes())?;
    }
    Ok(script)
}

/// One line more than can be accepted.
#[test]
fn limit_of_events(rt: HostRuntime) -> Result<(), Fail> {
    let alloc = rt.alloc();
    let mut script = PAGE.as_bytes().to_vec(alloc)?;
    script.extend_from_slice(&copies(alloc, "0 policy f1 camera\n", 1_000_000)?)?;
    let mut source = PlainSource::new(script);
    let mut sink = sink_of(alloc, 20_000_000)?;
    let status = run_within(alloc, 5000, 1_073_741_824, &mut source, &mut sink);
    assert!(rt;
        sink.as_slice()
            .ends_with(b"1000000 allowed\n1000001 refused limit-events\n")
    );
    assert_eq!(rt; status, Status::Refusals);
    Ok(())
}

/// As many entries as the store may have, one more, and one that is there. They end all at one line, and then
/// there is room.
#[test]
fn limit_of_the_store(rt: HostRuntime) -> Result<(), Fail> {
    let alloc = rt.alloc();
    let mut script = Vec::new(alloc);
    for number in 0..65_536 {
        let line = format!(in alloc; "0 set camera https://n{number}.example granted for 9\n")?;
        script.extend_from_slice(line.as_bytes())?;
    }
    script.extend_from_slice(
        b"8 set camera https://a.example granted\n8 set camera https://n7.example denied for 1\n\
          9 set camera https://a.example granted\n9 tick\n9 set camera https://a.example granted\n",
    )?;
    let mut source = PlainSource::new(script);
    let mut sink = sink_of(alloc, 2_000_000)?;
    let status = run_within(alloc, 5000, 1_073_741_824, &mut source, &mut sink);
    assert!(rt;
        sink.as_slice().ends_with(
            b"65536 ok\n65537 refused limit-store\n65538 ok\n65539 refused limit-store\n65540 ok\n65541 ok\n"
        )
    );
    assert_eq!(rt; status, Status::Refusals);
    Ok(())
}

#[test]
fn limits_of_pages_and_frames(rt: HostRuntime) -> Result<(), Fail> {
    let alloc = rt.alloc();
    let (_, sink) = run(&rt, &["run"], &copies(alloc, PAGE, 65)?)?;
    assert!(rt;
        sink.as_slice().ends_with(
            b"64 frame f64 doc d64 https://a.example\n65 refused limit-pages\n"
        )
    );
    let mut frames = PAGE.as_bytes().to_vec(alloc)?;
    frames.extend_from_slice(&copies(alloc, "0 embed f1 https://b.example/\n", 256)?)?;
    frames.extend_from_slice(b"0 open https://a.example/\n0 embed f257 https://b.example/\n")?;
    let (_, sink) = run(&rt, &["run"], &frames)?;
    assert!(rt;
        sink.as_slice().ends_with(
            b"256 frame f256 doc d256 https://b.example\n257 refused limit-frames\n\
          258 frame f257 doc d257 https://a.example\n259 frame f258 doc d258 https://b.example\n"
        )
    );
    let mut deep = PAGE.as_bytes().to_vec(alloc)?;
    for parent in 1..=64 {
        let line = format!(in alloc; "0 embed f{parent} https://a.example/\n")?;
        deep.extend_from_slice(line.as_bytes())?;
    }
    let (_, sink) = run(&rt, &["run"], &deep)?;
    assert!(rt;
        sink.as_slice().ends_with(
            b"64 frame f64 doc d64 https://a.example\n65 refused limit-depth\n"
        )
    );
    Ok(())
}
