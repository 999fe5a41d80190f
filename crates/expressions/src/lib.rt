// Reading an expression: it is read, its names are looked up, and the nodes of its tree are made; or the place of its first wrong byte. While it is
// read, one reader is lent on by each method, so that an open bracket costs little room.
#![tactic(auto)]

mod text_reader;

ghost use Rattle.std.specs.Prelude.{◌≡◌, true, ◌+◌, ◌≤◌, ◌<◌, get_or};
ghost use Rattle.arrayvec.specs.ArrayVec.{array_vec_len};
ghost use Rattle.short_list.specs.ShortList.{how_many};
ghost use Rattle.words.specs.Contract.{suffix_byte, SuffixAt, SuffixesAt, PrimaryAt, FactorAt, MoreAt, ExpressionAt, OverrideAt};
ghost use Rattle.words.specs.Contract.{FillingAt, TemplateAt, Answer};
ghost use Rattle.names.specs.Looks.{lookup_of};
ghost use Rattle.expressions.specs.Reads.{Reads, EndedBy};

use algebra::Sort;
use arrayvec::ArrayVec;
use names::Names;
use nodes::Node;
use text_reader::Reader;
use words::{
    Letter, Nodes, Suffix, SuffixText, is_binding, is_suffix, past, peek, read_name, scope, sign,
    word, word_letter,
};

// How many brackets may be open at once.
const MOST_OPEN: usize = 32;

// A scope or a closure after a primary.
fn suffix(t: &[u8], at: usize) -> Result<SuffixText, usize>
    requires { suffix_byte (get_or t.now at 0) ≡ true }
    ensures { SuffixAt t.now at result }
{
    let from = at + 1;
    if peek(t, at) == b'^' {
        let inside = past(t, from, b'[')?;
        return scope(t, inside);
    }
    let to = read_name(t, from)?;
    Ok(SuffixText {
        suffix: Suffix::Closing,
        from,
        to,
        next: to,
    })
}

// ---- the parts of an expression. Each method reads one from the reader's place on, adds its nodes to those so far, and leaves the reader where the text
// goes on; or it yields the place of the first byte that is wrong.
impl<const ACTIONS: usize, const OTHERS: usize> Reader<'_, '_, '_, ACTIONS, OTHERS> {
    // The scopes and closures after a primary.
    fn suffixes(&mut self) -> Result<(), usize>
        ensures { Reads (λ number xs t at a. SuffixesAt number t at) self.old self.new result }
    {
        while is_suffix(peek(self.text, self.at)) {
            let x = suffix(self.text, self.at)?;
            self.nodes
                .put_name(self.names, x.suffix, &self.text[x.from..x.to], x.from);
            self.at = x.next;
        }
        Ok(())
    }

    #[cycle(parts)]
    fn primary(&mut self) -> Result<(), usize>
        ensures { Reads PrimaryAt self.old self.new result }
    {
        let at = self.at;
        if peek(self.text, at) == b'(' {
            if self.allow == 0 {
                return Err(at);
            }
            self.allow -= 1;
            if is_binding(self.text, at + 1) {
                self.at = at + 3;
                self.template()?;
                self.allow += 1;
                return Ok(());
            }
            self.at = at + 1;
            self.part(b')')?;
            self.allow += 1;
            return Ok(());
        }
        let end = word(self.text, at)?;
        let name = &self.text[at..end];
        match word_letter(name) {
            None => {
                self.nodes.put_table(self.names, &self.bound, name, at);
                self.at = end;
                Ok(())
            }
            Some(Letter::OfSort(Sort::Object)) => {
                self.at = past(self.text, end, b'(')?;
                if self.allow == 0 {
                    return Err(end);
                }
                self.allow -= 1;
                self.overridden()?;
                self.allow += 1;
                Ok(())
            }
            Some(Letter::OfSort(Sort::Subject)) => Err(end),
            Some(Letter::OfSort(Sort::Action)) => Err(end),
            Some(Letter::OfTemplate) => Err(end),
        }
    }

    // The three parts of 'o(', from the first on.
    #[cycle(parts)]
    fn overridden(&mut self) -> Result<(), usize>
        ensures { Reads OverrideAt self.old self.new result }
    {
        self.part(b',')?;
        self.part(b',')?;
        self.part(b')')?;
        self.nodes.put(Node::Override);
        Ok(())
    }

    // A template, from its x on: a name, a point, E where that name is bound, and F.
    #[cycle(parts)]
    fn template(&mut self) -> Result<(), usize>
        requires { array_vec_len self.old.bound + self.old.allow < 32 }
        ensures { Reads TemplateAt self.old self.new result }
    {
        let from = self.at;
        let to = read_name(self.text, from)?;
        self.at = past(self.text, to, b'.')?;
        self.bound.push(&self.text[from..to]);
        self.part(b')')?;
        self.bound.pop();
        self.filling()
    }

    // F of a template, with its brackets, and the template's node.
    #[cycle(parts)]
    fn filling(&mut self) -> Result<(), usize>
        ensures { Reads FillingAt self.old self.new result }
    {
        self.at = past(self.text, self.at, b'(')?;
        self.part(b')')?;
        self.nodes.put(Node::Template);
        Ok(())
    }

    // An expression in brackets, and the byte that ends it.
    #[cycle(parts)]
    fn part(&mut self, ending: u8) -> Result<(), usize>
        requires { 0 < ending }
        ensures { Reads (EndedBy ending) self.old self.new result }
    {
        self.expression()?;
        self.at = past(self.text, self.at, ending)?;
        Ok(())
    }

    // A primary with its scopes and closures.
    #[cycle(parts)]
    fn factor(&mut self) -> Result<(), usize>
        ensures { Reads FactorAt self.old self.new result }
    {
        self.primary()?;
        self.suffixes()
    }

    // The signs and factors that follow a factor.
    #[cycle(parts)]
    fn more(&mut self) -> Result<(), usize>
        ensures { Reads MoreAt self.old self.new result }
    {
        while let Some(joiner) = sign(peek(self.text, self.at)) {
            self.at += 1;
            self.factor()?;
            self.nodes.put(Node::Join(joiner));
        }
        Ok(())
    }

    #[cycle(parts)]
    fn expression(&mut self) -> Result<(), usize>
        ensures { Reads ExpressionAt self.old self.new result }
    {
        self.factor()?;
        self.more()
    }
}

// Reads a whole text: the nodes of its tree, or the place where it goes wrong.
pub fn read<const ACTIONS: usize, const OTHERS: usize>(
    text: &[u8],
    names: &Names<'_, ACTIONS, OTHERS>,
) -> Result<Nodes, usize>
    requires { how_many names.now.tables ≤ 16 }
    ensures { Answer (lookup_of names.now) text.now result }
{
    let mut reader = Reader {
        text,
        names,
        at: 0,
        bound: ArrayVec::new(),
        allow: MOST_OPEN,
        nodes: Nodes::new(),
    };
    reader.expression()?;
    if reader.at < text.len() {
        return Err(reader.at);
    }
    Ok(reader.nodes)
}
