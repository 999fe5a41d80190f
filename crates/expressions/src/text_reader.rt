// What reads an expression.
ghost use Rattle.std.specs.Prelude.{◌+◌, ◌≤◌, length};
ghost use Rattle.arrayvec.specs.ArrayVec.{array_vec_len};
ghost use Rattle.short_list.specs.ShortList.{how_many};

use arrayvec::ArrayVec;
use names::Names;
use words::{MOST_BOUND, Nodes};

// An expression's text, and the place reached in it; the names that are declared before it, and those that its templates bind at that place, the innermost
// last; how many brackets more may be opened; and the nodes of what was read.
#[derive(Drop)]
pub struct Reader<'t, 'n, 'f, const ACTIONS: usize, const OTHERS: usize> {
    pub text: &'t [u8],
    pub names: &'n Names<'f, ACTIONS, OTHERS>,
    pub at: usize,
    pub bound: ArrayVec<&'t [u8], MOST_BOUND>,
    pub allow: usize,
    pub nodes: Nodes,
    pub ghost within: { at ≤ length text.now },
    // a bound name has its bracket open
    pub ghost few: { array_vec_len bound + allow ≤ 32 },
    pub ghost few_tables: { how_many names.now.tables ≤ 16 },
}
