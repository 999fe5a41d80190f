// Runs Check on each file that an argument names, and prints a line for it: the name, number, line, place and the three sort counts.
#![tactic(auto)]

use files::each_file;
use snowdell::check;
use std::{env, io};

fn look(rt: &impl Print, name: &str, text: &[u8]) -> io::Result<()> {
    match check(text) {
        Ok(n) => println!(rt; "{name},0,0,0,{},{},{}", n.subjects, n.objects, n.actions),
        Err(e) => println!(rt; "{name},{e},0,0,0"),
    }
}

fn main(rt: HostRuntime) -> io::Result<()> {
    each_file(&rt, env::args(&rt)?, |name, text| look(&rt, name, text))
}
