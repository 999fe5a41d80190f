// The listing program: reads a policy from standard input, and prints its listing or its refusal.
#![tactic(auto)]

mod errors;
mod input;
mod members;
mod output;

use composing::Composed;
use errors::fail;
use input::read_all;
use members::names;
use output::Gathered;
use snowdell::compose;
use std::io;
use std::io::Write;

// What the listing calls an answer; a deny is not listed.
fn word(answer: u8) -> Option<&'static [u8]> {
    match answer {
        1 => Some(b"undecided"),
        2 => Some(b"permit"),
        _ => None,
    }
}

// The line of an access: the answer's word and the three names.
fn write_access(out: &mut impl Write, word: &[u8], names: [&[u8]; 3]) -> io::Result<()> {
    out.write_all(word)?;
    for name in names {
        out.write_all(b",")?;
        out.write_all(name)?;
    }
    out.write_all(b"\n")
}

// The counts, and a line for each access that is not denied. The answers stand in the order of the accesses' numbers:
// the actions go round fastest, and the subjects slowest.
fn write_listing(
    out: &mut impl Write,
    r: Composed,
    answers: &[u8],
    subjects: &[&[u8]],
    objects: &[&[u8]],
    actions: &[&[u8]],
) -> io::Result<()> {
    writeln!(
        out,
        "grants,{},{},{},{}",
        r.accesses, r.permits, r.undecided, r.rounds
    )?;
    let mut rest = answers.iter().copied();
    for &s in subjects {
        for &o in objects {
            for &a in actions {
                if let Some(word) = rest.next().and_then(word) {
                    write_access(out, word, [s, o, a])?;
                }
            }
        }
    }
    Ok(())
}

fn list(rt: &impl Print, file: &[u8]) -> io::Result<()> {
    let mut answers = [0u8; 4096];
    let mut memory = [0u8; 65536];
    let mut out = Gathered::new(rt);
    match compose(file, &mut answers, &mut memory) {
        Ok(r) => {
            let subjects = names(file, b'S');
            let objects = names(file, b'O');
            let actions = names(file, b'A');
            write_listing(&mut out, r, &answers, &subjects, &objects, &actions)?;
        }
        Err(e) => writeln!(out, "refused,{e}")?,
    }
    out.flush()
}

fn main(rt: HostRuntime) {
    let mut file = [0u8; 65536];
    let listed = match read_all(&mut rt.stdin(), &mut file) {
        Ok(n) => list(&rt, &file[..n]).map_err(|e| ("output", e)),
        Err(e) => Err(("input", e)),
    };
    if let Err((what, e)) = listed {
        fail(&rt, what, &e);
    }
}
