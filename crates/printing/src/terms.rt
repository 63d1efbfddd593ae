// A term put into an output, by its name and its list, and a line of a key and a term.
ghost use Rattle.std.specs.Prelude.{◌<◌, length};
ghost use Rattle.rules.specs.Writing.{render, renders};
ghost use Rattle.rules.specs.Answer.{line};
ghost use Rattle.tree.specs.Areas.{tree_in, trees_in, CellIn};
ghost use Rattle.printing.specs.Marked.{marked};
ghost use Rattle.printing.specs.Paper.{lines_for};
ghost use Rattle.printing.specs.Putting.{PutInto};

use crate::output::Output;
use tree::area::Area;
use tree::kinds::Kind;

impl Output<'_> {
    // The term of cell i: an atom is its letter, and its digits in brackets; another term its name, then its list.
    // It and `list` call one another, as document 01 has it.
    #[cycle(term_list)]
    fn term(&mut self, area: &Area, i: usize) -> Option<()>
        requires { CellIn area.now i }
        ensures { PutInto self.old self.new (render (tree_in area.now i)) 0 result }
    {
        match area.kind(i) {
            Kind::Application => {
                self.name(area, i)?;
                self.list(area, area.first_of(i), b'(')
            }
            Kind::Variable(_) => self.name(area, i),
            Kind::Atom(letter) => {
                self.text(&[letter, b'('])?;
                self.name(area, i)?;
                self.text(b")")
            }
        }
    }

    // The terms of the list from cell i on, each after a mark, and the closing bracket. The mark also tells the first term, as in the
    // definition.
    #[cycle(term_list)]
    fn list(&mut self, area: &Area, i: usize, mark: u8) -> Option<()>
        requires { i < area.now.free }
        ensures { PutInto self.old self.new (marked mark (renders (trees_in area.now i))) 0 result }
    {
        if i == 0 {
            let end: &[u8] = if mark == b'(' { b"" } else { b")" };
            return self.text(end);
        }
        self.text(&[mark])?;
        self.term(area, i)?;
        self.list(area, area.next_of(i), b',')
    }

    // The line of a key and the term of cell i.
    pub fn line(&mut self, key: &[u8], area: &Area, i: usize) -> Option<()>
        requires { CellIn area.now i }
        ensures { PutInto self.old self.new (line key.now (render (tree_in area.now i))) (lines_for (length (render (tree_in area.now i)))) result }
    {
        self.text(key)?;
        let from = self.at;
        self.term(area, i)?;
        self.end_line(from)
    }
}
