//! Work to be measured, chosen by the arguments. It prints what was done, and not how long it took: that
//! is for the caller's clock.
//!
//! - `fields COUNT`: reads a header of about 500 bytes so many times.
//! - `cutter BYTES LENGTH PIECE`: cuts so many bytes, in lines of this length, fed in pieces of this size.
//! - `change COUNT`: removes so many values of an arena of 16,384 at random places, and takes another in for each.
//! - `find COUNT`: looks so many values of such an arena up, at random places.
//! - `close PAGES SIZE`: opens and closes so many pages of so many frames, one after another.
//! - `leaf LIVE COUNT`: embeds and closes one frame so many times, where so many frames are live with it.
//! - `input SHAPE SIZE COUNT`: gives the top frame of a page of so many frames so many inputs. `flat`, all stand
//!   below the top frame; `deep`, in chains of the greatest depth.
//! - `consume SHAPE SIZE COUNT`: consumes the activation of such a page so many times.
//! - `statuses LIVE COUNT`: makes and releases a permission status so many times, where so many others are live.
//! - `walk PAIRS SIZE COUNT`: walks over the live statuses of each of so many pairs so many times, where each pair
//!   has so many.
//! - `prompts PAGES PENDING COUNT`: joins the oldest prompt of each of so many pages in turn, answers it and makes
//!   it anew, so many times, where so many prompts are pending in each page.
//! - `post PAGES WAITING COUNT`: posts so many messages in so many pages and delivers each, once so many of its page
//!   wait.
//! - `store USE ENTRIES COUNT`: uses a store of so many entries so many times: `set` them at random, `find` them,
//!   `lapse` one after another and set each again, or `lapse-all` at one moment and set them all again.
//! - `read LINE COUNT`: reads the line of this name so many times, as the name of a verb (`reading`).
//! - `write ANSWER COUNT`: writes the line of the answer of this name, or of a `change`, so many times (`writing`).
#![tactic(auto)]

mod activation;
mod arena;
mod cutter;
mod fields;
mod frames;
mod messages;
mod numbered;
mod prompts;
mod reading;
mod statuses;
mod store;
mod writing;

use activation::{Call, call_named};
use reading::{Line, line_named};
use std::alloc::{AllocError, Global};
use std::process::ExitCode;
use std::{env, io};
use store::{Use, use_named};
use writing::{Output, output_named};

/// What is written where the arguments are of no form.
const USAGE: &str = "usage: pe_bench fields COUNT | cutter BYTES LENGTH PIECE | change COUNT \
| find COUNT | close PAGES SIZE | leaf LIVE COUNT | input SHAPE SIZE COUNT \
| consume SHAPE SIZE COUNT | statuses LIVE COUNT | walk PAIRS SIZE COUNT \
| prompts PAGES PENDING COUNT | post PAGES WAITING COUNT | store USE ENTRIES COUNT | read LINE COUNT | write ANSWER COUNT";

/// What is to be measured.
#[derive(Drop)]
enum Work {
    Fields {
        count: u32,
    },
    Cutter {
        bytes: usize,
        length: usize,
        piece: usize,
    },
    Change {
        count: u64,
    },
    Find {
        count: u64,
    },
    Close {
        pages: u32,
        size: u32,
    },
    Leaf {
        live: u32,
        count: u32,
    },
    Activate {
        call: Call,
        flat: bool,
        size: u32,
        count: u32,
    },
    Statuses {
        live: u32,
        count: u32,
    },
    Walk {
        pairs: u32,
        size: u32,
        count: u32,
    },
    Prompts {
        pages: u32,
        pending: u32,
        count: u32,
    },
    Post {
        pages: u32,
        waiting: u32,
        count: u32,
    },
    Store {
        used: Use,
        entries: usize,
        count: u64,
    },
    Read {
        line: Line,
        count: u64,
    },
    Write {
        output: Output,
        count: u64,
    },
}

/// The work of this name that is done so many times.
fn counted_work(name: &str, count: &str) -> Option<Work> {
    if name == "fields" {
        return Some(Work::Fields {
            count: count.parse().ok()?,
        });
    }
    if name == "change" {
        return Some(Work::Change {
            count: count.parse().ok()?,
        });
    }
    if name == "find" {
        return Some(Work::Find {
            count: count.parse().ok()?,
        });
    }
    None
}

/// The work of this name that takes two numbers.
fn paired_work(name: &str, first: &str, second: &str) -> Option<Work> {
    if name == "close" {
        return Some(Work::Close {
            pages: first.parse().ok()?,
            size: second.parse().ok()?,
        });
    }
    if name == "leaf" {
        return Some(Work::Leaf {
            live: first.parse().ok()?,
            count: second.parse().ok()?,
        });
    }
    if name == "statuses" {
        return Some(Work::Statuses {
            live: first.parse().ok()?,
            count: second.parse().ok()?,
        });
    }
    None
}

/// Whether the work of this name is done over groups of one size.
fn is_grouped(name: &str) -> bool {
    name == "walk" || name == "prompts" || name == "post"
}

/// The work of this name that is done so many times over groups of one size.
fn grouped_work(name: &str, groups: &str, size: &str, count: &str) -> Option<Work> {
    if name == "walk" {
        return Some(Work::Walk {
            pairs: groups.parse().ok()?,
            size: size.parse().ok()?,
            count: count.parse().ok()?,
        });
    }
    if name == "prompts" {
        return Some(Work::Prompts {
            pages: groups.parse().ok()?,
            pending: size.parse().ok()?,
            count: count.parse().ok()?,
        });
    }
    if name == "post" {
        return Some(Work::Post {
            pages: groups.parse().ok()?,
            waiting: size.parse().ok()?,
            count: count.parse().ok()?,
        });
    }
    None
}

/// The work in a page of frames.
fn activation_work(call: &str, shape: &str, size: &str, count: &str) -> Option<Work> {
    if shape != "flat" && shape != "deep" {
        return None;
    }
    Some(Work::Activate {
        call: call_named(call)?,
        flat: shape == "flat",
        size: size.parse().ok()?,
        count: count.parse().ok()?,
    })
}

/// The work in a store.
fn store_work(used: &str, entries: &str, count: &str) -> Option<Work> {
    Some(Work::Store {
        used: use_named(used)?,
        entries: entries.parse().ok()?,
        count: count.parse().ok()?,
    })
}

/// The work of reading a line of this name so many times.
fn read_work(line: &str, count: &str) -> Option<Work> {
    Some(Work::Read {
        line: line_named(line)?,
        count: count.parse().ok()?,
    })
}

/// The work of writing an output of this name so many times.
fn write_work(alloc: Global, output: &str, count: &str) -> Result<Option<Work>, AllocError> {
    let Ok(count) = count.parse() else {
        return Ok(None);
    };
    match output_named(alloc, output)? {
        Some(output) => Ok(Some(Work::Write { output, count })),
        None => Ok(None),
    }
}

/// The work of cutting lines.
fn cutter_work(bytes: &str, length: &str, piece: &str) -> Option<Work> {
    Some(Work::Cutter {
        bytes: bytes.parse().ok()?,
        length: length.parse().ok()?,
        piece: piece.parse().ok()?,
    })
}

/// The work that the arguments name.
fn work_of(alloc: Global, words: &[String]) -> Result<Option<Work>, AllocError> {
    match words {
        [name, count] => Ok(counted_work(name.as_str(), count.as_str())),
        [name, line, count] if name.as_str() == "read" => {
            Ok(read_work(line.as_str(), count.as_str()))
        }
        [name, output, count] if name.as_str() == "write" => {
            write_work(alloc, output.as_str(), count.as_str())
        }
        [name, first, second] => Ok(paired_work(name.as_str(), first.as_str(), second.as_str())),
        [name, bytes, length, piece] if name.as_str() == "cutter" => {
            Ok(cutter_work(bytes.as_str(), length.as_str(), piece.as_str()))
        }
        [name, used, entries, count] if name.as_str() == "store" => {
            Ok(store_work(used.as_str(), entries.as_str(), count.as_str()))
        }
        [name, groups, size, count] if is_grouped(name.as_str()) => {
            Ok(grouped_work(
                name.as_str(),
                groups.as_str(),
                size.as_str(),
                count.as_str(),
            ))
        }
        [name, shape, size, count] => Ok(activation_work(
            name.as_str(),
            shape.as_str(),
            size.as_str(),
            count.as_str(),
        )),
        _ => Ok(None),
    }
}

/// The arguments after the program's name.
fn words(rt: &HostRuntime) -> io::Result<Vec<String>> {
    let mut words = Vec::new(rt.alloc());
    for word in env::args(rt)?.skip(1) {
        words.push(word).map_err(AllocError::from)?;
    }
    Ok(words)
}

/// Does the work, and says what was done.
fn done(alloc: Global, work: Work) -> Result<String, AllocError> {
    match work {
        Work::Fields { count } => {
            let members = fields::members_read(alloc, count)?;
            format!(in alloc; "{count} headers, {members} members")
        }
        Work::Cutter {
            bytes,
            length,
            piece,
        } => {
            let lines = cutter::lines_cut(alloc, bytes, length, piece)?;
            format!(in alloc; "{bytes} bytes, {lines} lines")
        }
        Work::Change { count } => {
            let changed = arena::values_changed(alloc, count)?;
            format!(in alloc; "{changed} values removed and taken in")
        }
        Work::Find { count } => {
            let found = arena::values_found(alloc, count)?;
            format!(in alloc; "{found} values found")
        }
        Work::Close { pages, size } => {
            let documents = frames::documents_closed(alloc, pages, size)?;
            format!(in alloc; "{pages} pages, {documents} documents given back")
        }
        Work::Leaf { live, count } => {
            let changed = frames::leaves_changed(alloc, live, count)?;
            format!(in alloc; "{live} live frames, {changed} embedded and closed")
        }
        Work::Activate {
            call,
            flat,
            size,
            count,
        } => {
            let changed = activation::page_activated(alloc, call, flat, size, count);
            format!(in alloc; "{size} frames, {count} calls, {changed} changed")
        }
        Work::Statuses { live, count } => {
            let changed = statuses::statuses_changed(alloc, live, count);
            format!(in alloc; "{live} live statuses, {changed} made and released")
        }
        Work::Walk { pairs, size, count } => {
            let walked = statuses::statuses_walked(alloc, pairs, size, count);
            format!(in alloc; "{pairs} pairs, {count} walks of each, {walked} statuses given")
        }
        Work::Prompts {
            pages,
            pending,
            count,
        } => {
            let answered = prompts::requests_answered(alloc, pages, pending, count);
            format!(in alloc; "{pages} pages of {pending} prompts, {answered} requests answered")
        }
        Work::Post {
            pages,
            waiting,
            count,
        } => {
            let put = messages::capabilities_put(alloc, pages, waiting, count)?;
            format!(in alloc; "{count} messages, {put} capabilities put")
        }
        Work::Store {
            used,
            entries,
            count,
        } => {
            let changed = store::store_used(alloc, used, entries, count)?;
            format!(in alloc; "{entries} entries, {count} uses, {changed} done")
        }
        Work::Read { line, count } => {
            let reading = reading::lines_read(alloc, line, count)?;
            let events = reading.events;
            let numbers = reading.numbers;
            format!(in alloc; "{count} lines, {events} events, numbers of sum {numbers}")
        }
        Work::Write { output, count } => {
            let bytes = writing::bytes_written(alloc, &output, count)?;
            format!(in alloc; "{count} lines, {bytes} bytes")
        }
    }
}

fn main(rt: HostRuntime) -> io::Result<ExitCode> {
    let words = words(&rt)?;
    let Some(work) = work_of(rt.alloc(), &words)? else {
        println!(rt; "{USAGE}")?;
        return Ok(ExitCode::from(2));
    };
    let text = done(rt.alloc(), work)?;
    println!(rt; "{text}")?;
    Ok(ExitCode::from(0))
}
