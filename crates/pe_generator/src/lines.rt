//! The lines of a block.
ghost use Rattle.std.specs.Prelude.{◌≡◌, ◌^◌, ◌<◌, ◌++◌, OnOk, decimal};
ghost use Rattle.pe_generator.specs.Generated.{state_set, outcome, last_words, words_of, line_of};

use pe_base::put_number;
use std::alloc::AllocError;

/// How many lines a block has.
const BLOCK: u32 = 16;

/// Puts words, and a number behind them, behind the text.
fn put_numbered(words: &str, number: u64, out: &mut Vec<u8>) -> Result<(), AllocError>
    ensures { OnOk result (out.new.items ≡ out.old.items ++ words.now ++ decimal number) }
{
    out.extend_from_slice(words.as_bytes())?;
    put_number(number, out)
}

/// Puts a number, and words behind it, behind the text.
fn put_ended(number: u64, words: &str, out: &mut Vec<u8>) -> Result<(), AllocError>
    ensures { OnOk result (out.new.items ≡ out.old.items ++ decimal number ++ words.now) }
{
    put_number(number, out)?;
    out.extend_from_slice(words.as_bytes())
}

/// Puts a number between words behind the text.
fn put_between(before: &str, number: u64, after: &str, out: &mut Vec<u8>) -> Result<(), AllocError>
    ensures { OnOk result (out.new.items ≡ out.old.items ++ before.now ++ decimal number ++ after.now) }
{
    out.extend_from_slice(before.as_bytes())?;
    put_ended(number, after, out)
}

/// The state that is set, as it is written.
#[tactic(auto, unfolding(crate::specs::Generated::state_set))]
fn state_set(v: u64) -> &'static str
    ensures { result.now ≡ state_set v }
{
    match v / 8 % 3 {
        0 => "granted",
        1 => "denied",
        _ => "prompt",
    }
}

/// Puts the state that is set behind the text.
fn put_state(v: u64, out: &mut Vec<u8>) -> Result<(), AllocError>
    ensures { OnOk result (out.new.items ≡ out.old.items ++ state_set v) }
{
    out.extend_from_slice(state_set(v).as_bytes())
}

/// The outcome of a prompt, as it is written.
#[tactic(auto, unfolding(crate::specs::Generated::outcome))]
fn outcome(v: u64) -> &'static str
    ensures { result.now ≡ outcome v }
{
    match v % 3 {
        0 => "allow once",
        1 => "block for 500",
        _ => "dismiss",
    }
}

/// Puts the words of a block's last line behind the text.
fn put_last(block: u64, out: &mut Vec<u8>) -> Result<(), AllocError>
    requires { block < 2 ^ 32 }
    ensures { OnOk result (out.new.items ≡ out.old.items ++ last_words block) }
{
    if block < 4 {
        return out.extend_from_slice(b"tick");
    }
    put_numbered("close f", 16 * block - 63, out)
}

/// Puts the words of a line behind the text: by its place in the block, the block, and the choice.
#[tactic(auto, unfolding(crate::specs::Generated::words_of))]
fn put_words(place: u32, block: u64, v: u64, out: &mut Vec<u8>) -> Result<(), AllocError>
    requires { block < 2 ^ 32 }
    ensures { OnOk result (out.new.items ≡ out.old.items ++ words_of place block v) }
{
    let page = 16 * block + 1;
    let child = 16 * block + 2;
    let top_site = v % 8;
    match place {
        1 => put_between(
            "open https://a",
            top_site,
            ".example/ header \"camera=(self), payment=*\"",
            out,
        ),
        2 => {
            put_between("embed f", page, " https://e", out)?;
            put_ended(block, ".example/ allow \"payment; geolocation\"", out)
        }
        3 => put_between("query f", page, " geolocation", out),
        4 => put_between("query f", child, " storage-access", out),
        5 => put_between("request f", child, " storage-access", out),
        6 => put_between("input f", page, " mousedown", out),
        7 => {
            put_between("post f", page, " f", out)?;
            put_ended(child, " https://e", out)?;
            put_ended(block, ".example payment", out)
        }
        8 => {
            put_between("set geolocation https://a", top_site, ".example ", out)?;
            put_state(v, out)?;
            put_numbered(" for ", 1 + v / 24 % 2000, out)
        }
        9 => {
            put_between("answer p", 16 * block + 5, " ", out)?;
            out.extend_from_slice(outcome(v).as_bytes())
        }
        10 => put_numbered("deliver m", 16 * block + 7, out),
        11 => put_between("use f", child, " show-payment", out),
        12 => put_between("use f", page, " get-position", out),
        13 => {
            put_between("nav f", child, " https://a", out)?;
            put_ended(top_site, ".example/", out)
        }
        14 => put_between("query f", child, " geolocation", out),
        15 => put_between("policy f", child, " camera", out),
        _ => put_last(block, out),
    }
}

/// Puts the line behind the text that stands behind so many lines: the time, a space, its words and a
/// line feed.
#[tactic(auto, unfolding(crate::specs::Generated::line_of))]
pub(crate) fn put_line(before: u32, time: u64, v: u64, out: &mut Vec<u8>) -> Result<(), AllocError>
    ensures { OnOk result (out.new.items ≡ out.old.items ++ line_of before time v) }
{
    put_ended(time, " ", out)?;
    put_words(before % BLOCK + 1, u64::from(before / BLOCK), v, out)?;
    out.push(b'\n')?;
    Ok(())
}
