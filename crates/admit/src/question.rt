// A question about a graph, as its caller brings it.
ghost use Rattle.std.specs.Prelude.{◌≡◌};
ghost use Rattle.rules.specs.Questions.{graph_in};
ghost use Rattle.admit.specs.Brought.{lent};
ghost use Rattle.admit.specs.Crews.{kind_of, asks, with_lists};

use crate::crews::Kind;
use graph::Graph;
use std::marker::Model;

// What every question about a graph brings (document 02): for which crews it is and how many, the graph's bytes, and the
// lists beside them, each where it is brought. A list of no bytes is not the same as none. No byte is copied. A contract
// sees the question as the rules have it.
#[derive(Drop)]
pub struct Question<'a> {
    kind: Kind,
    k: usize,
    sheet: &'a [u8],
    classes: Option<&'a [u8]>,
    vans: Option<&'a [u8]>,
}

impl<'a> Model for Question<'a> {
    ghost use Rattle.rules.specs.Questions.{Question};
    ghost use Rattle.admit.specs.Brought.{lent};
    ghost use Rattle.admit.specs.Crews.{kind_of};

    ghost Value = { Question };

    ghost view = { λ q. record { kind = kind_of q.kind; k = q.k; sheet = q.sheet.now; classes = lent q.classes; vans = lent q.vans } };
}

impl<'a> Question<'a> {
    // A question without lists.
    pub fn new(kind: Kind, k: usize, sheet: &'a [u8]) -> Question<'a>
        ensures { result ≡ asks kind k sheet.now }
    {
        Question {
            kind,
            k,
            sheet,
            classes: None,
            vans: None,
        }
    }

    // The same question with the lists that are brought: the class bytes, one for each edge ("line"), and the vertices
    // where crews with roots start, two bytes each ("vans"). One that is not brought is not read.
    pub fn with_lists(self, classes: Option<&'a [u8]>, vans: Option<&'a [u8]>) -> Question<'a>
        ensures { result ≡ with_lists self.entry (lent classes.entry) (lent vans.entry) }
    {
        Question {
            kind: self.kind,
            k: self.k,
            sheet: self.sheet,
            classes,
            vans,
        }
    }

    // Whether the crews have roots.
    pub fn kind(&self) -> Kind
        ensures { kind_of result ≡ self.now.kind }
    {
        self.kind
    }

    // How many crews there are.
    pub fn k(&self) -> usize
        ensures { result ≡ self.now.k }
    {
        self.k
    }

    // The graph's bytes.
    pub fn sheet(&self) -> &'a [u8]
        ensures { result.now ≡ self.now.sheet }
    {
        self.sheet
    }

    // The class list.
    pub fn classes(&self) -> Option<&'a [u8]>
        ensures { lent result ≡ self.now.classes }
    {
        self.classes
    }

    // The list of vans.
    pub fn vans(&self) -> Option<&'a [u8]>
        ensures { lent result ≡ self.now.vans }
    {
        self.vans
    }

    // The graph that the question is about, with its weights by class.
    pub fn graph(&self) -> Graph<'a>
        ensures { result ≡ graph_in self.now }
    {
        match self.classes {
            Some(classes) => Graph::new(self.sheet, classes),
            None => Graph::new(self.sheet, &[]),
        }
    }
}
