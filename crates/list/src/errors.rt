// What the program says where it cannot read or write.
use std::io;

// An error's words, without the system's number for it.
fn why(text: &str) -> &str {
    text.split(" (os error ").next().unwrap_or(text)
}

// Says on standard error what failed and why, in one line.
pub fn fail(rt: &(impl Eprint + Alloc), what: &str, error: &io::Error) {
    let _ = match format!(in rt.alloc(); "{error}") {
        Ok(text) => eprintln!(rt; "{what}: {}", why(text.as_str())),
        Err(_) => eprintln!(rt; "{what}: {error}"),
    };
}
