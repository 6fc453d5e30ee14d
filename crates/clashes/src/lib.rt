// 21, 22 and 23: where two edits clash, and the least place of each kind, by a fixed number of questions on each line of each branch that
// is marked as new. n is a record, t a table, l a line.
#![tactic(auto)]

ghost use Rattle.std.specs.Prelude.{◌≡◌, ◌<◌, ◌≤◌, get_or};
ghost use Rattle.facts.specs.Inputs.{texts_of, lines_of, facts_of, counts_of};
ghost use Rattle.clashes.specs.Clashes.{places, lesser_places, clashes_on, all_clashes};

use contents::content_place;
use contents::marks::Marked;
use edits::clash::{neighbour_place, parent_place};
use edits::{lesser, number_in};
use facts::inputs::Side;
use rules::record::Record;

// The least record with two contents, the least with two parents, and the least parent with a torn list.
#[derive(Clone, Copy)]
pub struct Clashes {
    pub content: Option<Record>,
    pub parent: Option<Record>,
    pub neighbour: Option<Record>,
}

impl Clashes {
    pub const NONE: Clashes = Clashes {
        content: None,
        parent: None,
        neighbour: None,
    };

    // The lesser of each kind.
    fn lesser(self, other: Clashes) -> Clashes
        ensures { places result ≡ lesser_places (places self) (places other) }
    {
        Clashes {
            content: lesser(self.content, other.content),
            parent: lesser(self.parent, other.parent),
            neighbour: lesser(self.neighbour, other.neighbour),
        }
    }
}

// What shows at the record on a line; where it stands as in old, no parent and no neighbour clashes.
fn clashes_on(marked: Marked, t: Side, l: usize) -> Clashes
    requires { (0 < t.index) × (l ≤ get_or (counts_of marked.news.inputs.now) t.index 0) }
    ensures { let inputs = marked.entry.news.inputs.now in
        places result ≡ clashes_on (texts_of inputs) (lines_of inputs) (facts_of inputs) t.index l }
{
    let news = marked.news;
    let n = number_in(news.inputs, t, l);
    let content = content_place(news, t, n);
    if !news.mark(t, l).position {
        return Clashes {
            content,
            ..Clashes::NONE
        };
    }
    Clashes {
        content,
        parent: parent_place(news.inputs, t, n),
        neighbour: neighbour_place(news.inputs, t, n),
    }
}

// On all lines of all branches; where nothing is marked, nothing clashes.
pub fn least_clashes(marked: Marked) -> Clashes
    ensures { let inputs = marked.entry.news.inputs.now in
        places result ≡ all_clashes (texts_of inputs) (lines_of inputs) (facts_of inputs) (counts_of inputs) }
{
    marked.fold(Clashes::NONE, |least, t, l| {
        least.lesser(clashes_on(marked, t, l))
    })
}
