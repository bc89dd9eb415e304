//! What no contract says: that there is memory for a script. The expected lines were worked out from the
//! table of the lines by another program.
ghost use Rattle.std.specs.Prelude.{◌≤◌};

use crate::generate_script;
use std::alloc::{AllocError, Global};
use std::test::Fail;

/// The first 17 lines from the seed 0.
const FROM_ZERO: &str = "7 open https://a3.example/ header \"camera=(self), payment=*\"
31 embed f1 https://e0.example/ allow \"payment; geolocation\"
48 query f1 geolocation
84 query f2 storage-access
89 request f2 storage-access
100 input f1 mousedown
124 post f1 f2 https://e0.example payment
139 set geolocation https://a3.example denied for 313
163 answer p5 allow once
182 deliver m7
205 use f2 show-payment
207 use f1 get-position
229 nav f2 https://a6.example/
234 query f2 geolocation
254 policy f2 camera
276 tick
301 open https://a6.example/ header \"camera=(self), payment=*\"
";

/// The first 16 lines from the seed 7.
const FROM_SEVEN: &str = "38 open https://a3.example/ header \"camera=(self), payment=*\"
69 embed f1 https://e0.example/ allow \"payment; geolocation\"
102 query f1 geolocation
135 query f2 storage-access
160 request f2 storage-access
179 input f1 mousedown
203 post f1 f2 https://e0.example payment
207 set geolocation https://a2.example granted for 434
226 answer p5 allow once
232 deliver m7
267 use f2 show-payment
302 use f1 get-position
334 nav f2 https://a4.example/
334 query f2 geolocation
363 policy f2 camera
365 tick
";

/// The first three lines from the greatest seed.
const FROM_GREATEST: &str = "8 open https://a4.example/ header \"camera=(self), payment=*\"
31 embed f1 https://e0.example/ allow \"payment; geolocation\"
68 query f1 geolocation
";

/// Whether the script of the seed and the count is this text.
fn is_script(alloc: Global, seed: u64, count: u32, text: &str) -> Result<bool, AllocError>
    requires low { 1 ≤ count }
    requires high { count ≤ 100000 }
{
    let script = generate_script(alloc, seed, count)?;
    Ok(script.as_slice() == text.as_bytes())
}

#[test]
fn scripts_have_the_lines_of_the_table(rt: HostRuntime) -> Result<(), Fail> {
    assert!(rt; is_script(rt.alloc(), 0, 17, FROM_ZERO)?);
    assert!(rt; is_script(rt.alloc(), 7, 16, FROM_SEVEN)?);
    assert!(rt; is_script(rt.alloc(), u64::MAX, 3, FROM_GREATEST)?);
    Ok(())
}

#[test]
fn one_line_is_the_least(rt: HostRuntime) -> Result<(), Fail> {
    let line = "7 open https://a3.example/ header \"camera=(self), payment=*\"\n";
    assert!(rt; is_script(rt.alloc(), 0, 1, line)?);
    Ok(())
}

#[test]
fn the_longest_script_has_so_many_lines(rt: HostRuntime) -> Result<(), Fail> {
    let script = generate_script(rt.alloc(), 7, 100_000)?;
    let lines = script.iter().filter(|byte| **byte == b'\n').count();
    assert_eq!(rt; lines, 100_000);
    assert_eq!(rt; script.len(), 3_903_843);
    assert!(rt; script.ends_with(b"\n1950013 close f99921\n"));
    Ok(())
}
