// Reads a policy file: its lines one after the other, each refused by the first row that it meets or added to the state.
#![tactic(auto)]

ghost use Rattle.std.specs.Prelude.{⊤, ◌≡◌, List, ℕ, ◌+◌, ◌*◌, ◌/◌, ◌<◌, length, drop, IfOk, IfErr, OnErr};
ghost use Rattle.reader.specs.Declarations.{Declared, start, group_of};
ghost use Rattle.reader.specs.Line.{expression_line, parse};
ghost use Rattle.lines.specs.Parsed.{line_of};
ghost use Rattle.state.specs.Standing.{Counted, Stands};
ghost use Rattle.state.specs.Judged.{LineJudged};
ghost use Rattle.reading.specs.Reading.{ReadAs, read_of, grants_until, GoalLine, LineRead};

use goals::{Fault, Goal, judge_expression};
use lines::line::{Parsed, parse_line};
use lines::text::{is_file, piece_end};
use rows::{Refusal, Refused};
use rule_lines::{add_body, add_rule};
use state::{FileState, Group};
use std::alloc::AllocError;
use words::Nodes;

// What a file declares: the state after its lines, and the goal of its E line.
#[derive(Copy)]
pub struct Reading<'a> {
    pub state: FileState<'a>,
    pub goal: Goal,
}

// A clone is the same reading, and none fails.
impl<'a> Clone for Reading<'a> {
    ghost is_clone = { λ r c. c ≡ r };

    ghost is_infallible = { λ _. ⊤ };

    fn clone(&self) -> Result<Self, AllocError> {
        Ok(Reading {
            state: self.state.clone()?,
            goal: self.goal,
        })
    }
}

// A line of any kind but E: refused, or added to the state. The grant of a G line goes to the lent memory.
fn add_line<'a>(st: &mut FileState<'a>, w: &mut [u8], l: Parsed<'a>) -> Result<(), Refusal>
    requires counted { Counted st.old.group st.old.names }
    requires room { 2 * st.old.grants + 1 < length w.old }
    ensures judged { (d : Declared) → Stands w.old st.old d → (group_of (line_of l.entry) ≡ 7 → ⊥) → LineJudged w.new d (line_of l.entry) st.new result }
    ensures beyond { drop (2 * st.new.grants) w.new ≡ drop (2 * st.new.grants) w.old }
    ensures kept { OnErr result ((st.new ≡ st.old) × (w.new ≡ w.old)) }
{
    match l {
        Parsed::Root(s, name) => st.member_line(s, name, None),
        Parsed::Child(s, name, parent) => st.member_line(s, name, Some(parent)),
        Parsed::Predicate(s, p, m) => st.predicate_line(s, p, m),
        Parsed::Table(t, here) => st.table_line(t, here),
        Parsed::Grant(t, s, o, a) => st.grant_line(w, t, s, o, a),
        Parsed::Rule(set, s, o, a) => add_rule(st, set, s, o, a),
        // B lines.
        _ => add_body(st, l),
    }
}

// E: refused, or its goal added.
fn add_goal(r: &mut Reading, limit: u16, t: &[u8]) -> Result<(), Fault>
    ensures added { (w : List ℕ) (d : Declared) → Stands w r.old.state d → GoalLine w d (expression_line limit t.now) r.old.state r.new result }
    ensures kept { OnErr result (r.new ≡ r.old) }
{
    r.goal = judge_expression(&r.state.names, r.state.group, limit, t)?;
    r.state.group = Group::Expression;
    Ok(())
}

// Reads a line: refused, or added to the reading.
fn read_line<'a>(r: &mut Reading<'a>, w: &mut [u8], line: &'a [u8]) -> Result<(), Fault>
    requires counted { Counted r.old.state.group r.old.state.names }
    requires room { 2 * r.old.state.grants + 1 < length w.old }
    ensures read { (d : Declared) → Stands w.old r.old.state d → LineRead w.new d (parse line.now) r.old r.new result }
    ensures beyond { drop (2 * r.new.state.grants) w.new ≡ drop (2 * r.new.state.grants) w.old }
    ensures kept { OnErr result ((r.new ≡ r.old) × (w.new ≡ w.old)) }
{
    let Some(l) = parse_line(line) else {
        return Err(Fault::from(Refusal::Malformed));
    };
    match l {
        Parsed::Expression(limit, t) => add_goal(r, limit, t),
        _ => Ok(add_line(&mut r.state, w, l)?),
    }
}

// Row 2.
const NO_FILE: Refused = Refused {
    refusal: Refusal::NoFile,
    line: 0,
    place: 0,
};

// Row 9.
const NO_EXPRESSION: Refused = Refused {
    refusal: Refusal::NoExpression,
    line: 0,
    place: 0,
};

impl<'a> Reading<'a> {
    // Nothing is read, and a goal that means nothing stands in the place of that of the E line.
    pub fn new() -> Self
        ensures { (w : List ℕ) → Stands w result.state start }
    {
        Reading {
            state: FileState::new(),
            goal: Goal {
                limit: 0,
                nodes: Nodes::new(),
            },
        }
    }

    // Reads a file into a reading in which nothing is read yet, where it stands: it is large, and moving it costs time and stack. The
    // grants go to the lent memory, two bytes each; the bytes after them are unchanged, on a refusal too. A line with a grant has nine
    // bytes or more, its end included.
    pub fn read(&mut self, file: &'a [u8], w: &mut [u8]) -> Result<(), Refused>
        requires fresh { (w : List ℕ) → Stands w self.old.state start }
        requires lent { length w.old ≡ 8192 }
        ensures read_as { ReadAs file.now w.new (read_of self.new result) }
        ensures w_unchanged { drop (2 * self.new.state.grants) w.new ≡ drop (2 * self.new.state.grants) w.old }
        ensures counted { IfErr result (λ e. self.new.state.grants ≡ grants_until file.now e.line) }
        ensures few_written { drop (2 * (length file.now / 9)) w.new ≡ drop (2 * (length file.now / 9)) w.old }
    {
        if !is_file(file) {
            return Err(NO_FILE);
        }
        let mut rest = file;
        let mut line = 0;
        while !rest.is_empty() {
            let end = piece_end(rest, b'\n');
            line += 1;
            if let Err(fault) = read_line(self, w, &rest[..end]) {
                return Err(Refused {
                    refusal: fault.refusal,
                    line,
                    place: fault.place,
                });
            }
            rest = &rest[end + 1..];
        }
        let unended = self.state.group != Group::Expression;
        if unended {
            return Err(NO_EXPRESSION);
        }
        Ok(())
    }
}

// The same, with a reading of its own that is handed out.
pub fn read_policy<'a>(file: &'a [u8], w: &mut [u8]) -> Result<Reading<'a>, Refused>
    requires { length w.old ≡ 8192 }
    ensures read_as { ReadAs file.now w.new result }
    ensures w_unchanged { IfOk result (λ r. drop (2 * r.state.grants) w.new ≡ drop (2 * r.state.grants) w.old) }
    ensures refused_unchanged { IfErr result (λ e. drop (2 * grants_until file.now e.line) w.new ≡ drop (2 * grants_until file.now e.line) w.old) }
    ensures few_written { drop (2 * (length file.now / 9)) w.new ≡ drop (2 * (length file.now / 9)) w.old }
{
    let mut reading = Reading::new();
    reading.read(file, w)?;
    Ok(reading)
}

#[cfg(test)]
mod tests {
    use super::*;

    // Two of a value.
    fn two<T: Copy>(x: &T) -> (T, T) {
        (*x, *x)
    }

    // A reading is `Copy`, and what is done to a copy is done to that alone. Nothing in the engine copies a whole one.
    #[test]
    fn a_reading_is_copied(rt: HostRuntime) {
        let reading = Reading::new();
        let (mut one, other) = two(&reading);
        one.goal.limit = 7;
        assert_eq!(rt; one.goal.limit, 7);
        assert_eq!(rt; other.goal.limit, 0);
        assert_eq!(rt; reading.goal.limit, 0);
    }
}
