// Runs Compose on each file that an argument names, and prints a line for it: the name, number, line, place, N, permits, undecided,
// rounds, and a digest of the whole result, which is lent full of 7.
#![tactic(auto)]

ghost use Rattle.std.specs.Prelude.{◌<◌};

use files::each_file;
use snowdell::compose;
use std::{env, io};

// The digest with one byte more: times 31, modulo the largest prime below 2 to the 32.
fn mix(h: u64, b: u8) -> u64
    requires { h < 4294967291 }
    ensures { result < 4294967291 }
{
    (h * 31 + u64::from(b)) % 4294967291
}

fn digest(answers: &[u8]) -> u64 {
    let mut h = 0;
    for &b in answers {
        h = mix(h, b);
    }
    h
}

fn look(rt: &impl Print, name: &str, text: &[u8]) -> io::Result<()> {
    let mut result = [7u8; 4096];
    let mut memory = [0u8; 65536];
    match compose(text, &mut result, &mut memory) {
        Ok(r) => println!(rt;
            "{name},0,0,0,{},{},{},{},{}",
            r.accesses,
            r.permits,
            r.undecided,
            r.rounds,
            digest(&result)
        ),
        Err(e) => println!(rt; "{name},{e},0,0,0,0,{}", digest(&result)),
    }
}

fn main(rt: HostRuntime) -> io::Result<()> {
    each_file(&rt, env::args(&rt)?, |name, text| look(&rt, name, text))
}
