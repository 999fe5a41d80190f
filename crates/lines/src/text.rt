// What a text is: a file, a name, a letter or a number; and where its first piece ends.
ghost use Rattle.std.specs.Prelude.{◌≡◌, true, false, cond, ◌≤◌, ◌<◌, length, take, get_or};
ghost use Rattle.std.proofs.Math.Option.{none, some};
ghost use Rattle.grammar.specs.Name.{is_name_byte_lem, are_name_bytes_lem, is_name_lem, letter_byte_lem, no_letter_lem};
ghost use Rattle.reader.specs.Text.{before, is_number, spells};
ghost use Rattle.reader.specs.Line.{letter_of};
ghost use Rattle.reader.specs.File.{is_file_lem};
ghost use Rattle.lines.specs.Parsed.{maybe_map};

// Row 2: whether the file is one that can be read.
#[tactic(auto, using(std::proofs::lemmas::Bool::Decides::nat_tests), unfolding(reader::specs::File::is_file_lem))]
pub fn is_file(f: &[u8]) -> bool
    ensures { result ≡ is_file_lem f.now }
{
    f.len() <= 32768 && matches!(f.last(), Some(b'\n'))
}

// The place of the first separator, where the first piece ends; the text's end where there is none.
#[tactic(auto, using(crate::proofs::Cuts::ends))]
#[inline(never)]
pub fn piece_end(text: &[u8], separator: u8) -> usize
    ensures value { result ≡ length (before separator text.now) }
    ensures within { result ≤ length text.now }
{
    for (i, &b) in text.iter().enumerate() {
        if b == separator {
            return i;
        }
    }
    text.len()
}

#[tactic(auto, unfolding(grammar::specs::Name::is_name_byte_lem, grammar::specs::Name::is_letter_lem))]
fn is_name_byte(b: u8) -> bool
    ensures { result ≡ is_name_byte_lem b }
{
    b.is_ascii_lowercase() || b.is_ascii_digit() || b == b'_'
}

// The byte of a text of one byte, and 0 for another.
#[tactic(auto, unfolding(reader::specs::Line::letter_of))]
pub fn letter(text: &[u8]) -> u8
    ensures { result ≡ letter_of text.now }
{
    match text {
        [b] => *b,
        _ => 0,
    }
}

// Whether a word of one letter may be a name: s, o, a and t may not. 0 stands for another word.
#[tactic(auto, unfolding(grammar::specs::Name::letter_byte_lem))]
fn no_letter(b: u8) -> bool
    ensures { result ≡ no_letter_lem (letter_byte_lem b) }
{
    !matches!(b, b's' | b'o' | b'a' | b't')
}

// The place of the first byte that no name has; the text's end where there is none.
#[tactic(auto, using(crate::proofs::Names::name_ends))]
pub(crate) fn name_end(text: &[u8]) -> usize
    ensures within { result ≤ length text.now }
    ensures name_bytes { are_name_bytes_lem (take result text.now) ≡ true }
    ensures stops { result < length text.now → is_name_byte_lem (get_or text.now result 0) ≡ false }
{
    for (i, &b) in text.iter().enumerate() {
        if !is_name_byte(b) {
            return i;
        }
    }
    text.len()
}

// Whether a text of bytes that names have is a name: it has 1 to 24, begins with a letter, and is none of s, o, a and t alone.
#[tactic(auto, using(crate::proofs::Names::names), unfolding(grammar::specs::Name::is_letter_lem))]
pub(crate) fn begins_name(text: &[u8]) -> bool
    requires { are_name_bytes_lem text.now ≡ true }
    ensures { result ≡ is_name_lem text.now }
{
    if text.is_empty() || 24 < text.len() {
        return false;
    }
    text[0].is_ascii_lowercase() && no_letter(letter(text))
}

// A name has 1 to 24 bytes, begins with a letter, and is none of s, o, a and t alone.
#[tactic(auto, using(crate::proofs::Names::names))]
pub fn is_name(text: &[u8]) -> bool
    ensures { result ≡ is_name_lem text.now }
{
    name_end(text) == text.len() && begins_name(text)
}

// The number that a text of 1 to 4 digits spells, without a leading zero.
pub fn number(text: &[u8]) -> Option<u16>
    ensures { maybe_map (λ n. n) result ≡ cond (is_number text.now) (some (spells 0 text.now)) none }
{
    if text.is_empty() || 4 < text.len() {
        return None;
    }
    if text[0] == b'0' {
        let is_alone = text.len() == 1;
        return if is_alone { Some(0) } else { None };
    }
    let mut n = 0;
    for &b in text {
        if !b.is_ascii_digit() {
            return None;
        }
        n = n * 10 + u16::from(b - b'0');
    }
    Some(n)
}
