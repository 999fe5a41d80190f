// E lines: the rows that they may meet, and the nodes of the expression.
#![tactic(auto)]

ghost use Rattle.std.specs.Prelude.{◌≡◌, ◌≤◌};
ghost use Rattle.short_list.specs.ShortList.{how_many};
ghost use Rattle.reader.specs.Declarations.{Declared};
ghost use Rattle.state.specs.Standing.{group_number, NamesStand};
ghost use Rattle.goals.specs.Goals.{GoalJudged};

use expressions::read;
use names::Names;
use nodes::sets_held;
use rows::Refusal;
use state::{Group, in_turn};
use words::Nodes;

// What an E line declares: a limit, and the nodes of its expression.
#[derive(Clone, Copy)]
pub struct Goal {
    pub limit: u16,
    pub nodes: Nodes,
}

// Why an E line is refused, and the place in its expression, or 0.
#[derive(Clone, Copy, PartialEq, Eq)]
pub struct Fault {
    pub refusal: Refusal,
    pub place: usize,
}

impl From<Refusal> for Fault {
    ghost use Rattle.std.specs.Prelude.{◌≡◌};

    ghost from_gives = { λ r e. (e.refusal ≡ r) × (e.place ≡ 0) };

    // A refusal that no place of the expression is named with.
    fn from(refusal: Refusal) -> Fault {
        Fault { refusal, place: 0 }
    }
}

// The largest limit, and what a run has room for: so many operators, sets held and bindings in force at once.
const MOST_LIMIT: u16 = 4096;

const MOST_OPERATORS: usize = 64;

const MOST_SETS: usize = 14;

const MOST_BINDINGS: usize = 4;

// The rows of an E line, and its goal.
pub fn judge_expression<const ACTIONS: usize, const OTHERS: usize>(
    names: &Names<'_, ACTIONS, OTHERS>,
    group: Group,
    limit: u16,
    t: &[u8],
) -> Result<Goal, Fault>
    requires { how_many names.now.tables ≤ 16 }
    ensures { (d : Declared) → NamesStand names.now d → d.group ≡ group_number group → GoalJudged d limit t.now result }
{
    in_turn(group, Group::Expression, names.counts())?;
    if MOST_LIMIT < limit {
        return Err(Fault::from(Refusal::TooMany));
    }
    let nodes = match read(t, names) {
        Ok(nodes) => nodes,
        Err(place) => {
            return Err(Fault {
                refusal: Refusal::WrongExpression,
                place,
            });
        }
    };
    if let Some(place) = nodes.missing {
        return Err(Fault {
            refusal: Refusal::UndeclaredThere,
            place,
        });
    }
    let too_many = MOST_OPERATORS < nodes.operators;
    if too_many {
        return Err(Fault::from(Refusal::TooLarge));
    }
    let held = sets_held(nodes.nodes.as_slice());
    if MOST_SETS < held.sets {
        return Err(Fault::from(Refusal::TooLarge));
    }
    if MOST_BINDINGS < held.bindings {
        return Err(Fault::from(Refusal::TooManyBindings));
    }
    Ok(Goal { limit, nodes })
}
