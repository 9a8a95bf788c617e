// What every question about a graph brings, and whether it is admitted: the graph's bytes (11 to 16), the class list
// beside them (53, 54), then the crews (21) and the list of their roots (55). Every question is tested here first, and
// refused by the same cause and number.
// The words of the contracts stand in specs/ and in the definitions of the crate `rules`: `question_fault` is what is
// refused.
#![tactic(auto)]

pub mod brought;
pub mod crews;
pub mod question;
pub mod refusal;
pub mod vans;

ghost use Rattle.std.specs.Prelude.{◌≡◌, [], ◌∷◌};
ghost use Rattle.graph.specs.Fault.{first_fault};
ghost use Rattle.rules.specs.Questions.{crew_fault, van_fault, question_fault};
ghost use Rattle.admit.specs.Brought.{lent};
ghost use Rattle.admit.specs.Crews.{kind_of};
ghost use Rattle.admit.specs.Refusals.{fault_in};

use crate::brought::admit_classes;
use crate::crews::{Kind, crews_right};
use crate::question::Question;
use crate::refusal::Refusal;
use crate::vans::admit_vans;

// Tests the crews of a question, where nothing else is refused, on n vertices: their number, then the list of their
// roots.
fn admit_crews(kind: Kind, k: usize, n: usize, vans: Option<&[u8]>) -> Result<(), Refusal>
    ensures { fault_in result ≡ first_fault (crew_fault (kind_of kind) k (lent vans.entry) n
        ∷ van_fault (kind_of kind) k (lent vans.entry) n ∷ []) }
{
    if !crews_right(kind, k, n, vans) {
        return Err(Refusal::Crews);
    }
    admit_vans(kind, k, n, vans)
}

// Tests what every question brings, in document 01's order.
pub fn admit(question: &Question) -> Result<(), Refusal>
    ensures { fault_in result ≡ question_fault question.now }
{
    let sheet = question.sheet();
    let (n, _) = graph_check::check_graph(sheet)?;
    admit_classes(sheet, question.classes())?;
    admit_crews(question.kind(), question.k(), n, question.vans())
}
