// The names of an accepted file's members.
use arrayvec::ArrayVec;

// The most members of a sort.
const MOST: usize = 64;

// The second field of a line.
fn name(line: &[u8]) -> &[u8] {
    line.split(|&b| b == b',').nth(1).unwrap_or(line)
}

// The names on the lines of a kind, S, O or A, in the order of the file, which numbers the members. An accepted file has no more than
// there is room for.
pub fn names(file: &[u8], kind: u8) -> ArrayVec<&[u8], MOST> {
    let mut names = ArrayVec::new();
    let _ = names.extend(
        file.split(|&b| b == b'\n')
            .filter(|line| line.first() == Some(&kind))
            .map(name),
    );
    names
}
