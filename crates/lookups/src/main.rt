// Looks names up in the index of a policy's members. Each argument names a file: a policy, and behind its E line a line for each lookup,
// the sort's letter, a comma and the name. Prints a line for each: the file's name, the lookup's line, and `found` with the member's
// number or `none`, then how many slots were read; of a policy that is refused, number, line and place.
#![tactic(auto)]

ghost use Rattle.std.specs.Prelude.{◌≤◌, length};

use algebra::Sort;
use files::each_file;
use name_index::Lookup;
use names::FileNames;
use reading::read_policy;
use std::{env, io};

const LF: u8 = b'\n';

fn print_lookup(rt: &impl Print, name: &str, line: &[u8], l: Lookup) -> io::Result<()> {
    print!(rt; "{name},")?;
    rt.write_all(line)?;
    match l.found {
        Some(m) => println!(rt; ",found,{m},{}", l.read),
        None => println!(rt; ",none,{}", l.read),
    }
}

// A sort by its letter; any letter but S and O is taken for A.
fn sort_of(letter: u8) -> Sort {
    match letter {
        b'S' => Sort::Subject,
        b'O' => Sort::Object,
        _ => Sort::Action,
    }
}

// Looks up what the lines of t ask for, among a policy's names; a line that is too short asks for nothing.
fn look_lines(rt: &impl Print, name: &str, names: &FileNames, t: &[u8]) -> io::Result<()> {
    for line in t.split(|&b| b == LF) {
        if line.len() < 2 {
            continue;
        }
        let l = names.look_member(sort_of(line[0]), &line[2..]);
        print_lookup(rt, name, line, l)?;
    }
    Ok(())
}

// Where the policy ends: behind its E line, or with the text.
fn policy_end(t: &[u8]) -> usize
    ensures { result ≤ length t.now }
{
    let mut rest = t;
    while let Some(at) = rest.iter().position(|&b| b == LF) {
        let first = rest[0];
        rest = &rest[at + 1..];
        if first == b'E' {
            return t.len() - rest.len();
        }
    }
    t.len()
}

fn look(rt: &impl Print, name: &str, text: &[u8]) -> io::Result<()> {
    let (policy, lines) = text.split_at(policy_end(text));
    let mut w = [0u8; 8192];
    match read_policy(policy, &mut w) {
        Ok(r) => look_lines(rt, name, &r.state.names, lines),
        Err(e) => println!(rt; "{name},refused,{e}"),
    }
}

fn main(rt: HostRuntime) -> io::Result<()> {
    each_file(&rt, env::args(&rt)?, |name, text| look(&rt, name, text))
}
