// The files that a program's arguments name, for programs that look at one policy after the other.
#![tactic(auto)]

ghost use Rattle.std.specs.Prelude.{◌≡◌, IfOk, IfSome, take};

use std::alloc::Global;
use std::fs::File;
use std::io::Read;
use std::rt::Files;
use std::{env, io};

// So many bytes of a file are read: they are too many for a policy already.
pub const MOST: u64 = 65536;

// The first 65,536 bytes that a reader has left.
pub fn read_text<R: Read + Drop>(alloc: Global, input: R) -> io::Result<Vec<u8>>
    ensures { IfOk result (λ text. IfSome (R.remaining input) (λ left. text.items ≡ take 65536 left)) }
{
    let mut text = Vec::new(alloc);
    input.take(MOST).read_to_end(&mut text)?;
    Ok(text)
}

// Gives each file that an argument names to `look`, and says of one that cannot be opened why.
pub fn each_file<R: Files + Print + Eprint + AllocGlobal, F: Fn(&str, &[u8]) -> io::Result<()>>(
    rt: &R,
    names: env::Args,
    look: F,
) -> io::Result<()>
    requires { F.IsAlwaysCallable look }
{
    for name in names.skip(1) {
        match File::open(rt, name.as_str()) {
            Ok(file) => look(name.as_str(), &read_text(rt.alloc(), file)?)?,
            Err(e) => eprintln!(rt; "{name}: {e}")?,
        }
    }
    Ok(())
}
