ghost use Rattle.std.specs.Prelude.{IfOk, IsTrue, ◌≡◌};
ghost use Rattle.bq_job.specs.{beside.NameOrder.is_in_order, machine.TubeOrder.name_list};
ghost use Rattle.bq_state.specs.Names.{names_of};

use super::builder::TextBuilder;
use super::lines::{Line, text_of};
use bq_job::{NoMemory, Text};
use bq_state::name_lists::Names;
use std::alloc::Global;

impl<'a> Line for &'a [u8] {
    ghost use Rattle.bq_job.specs.texts.Yaml.{name_line};

    ghost line = { λ name. name_line name.now };

    fn size(&self) -> Option<usize> {
        let marks = b"- \n".len();
        self.len().checked_add(marks)
    }

    fn write(&self, text: &mut TextBuilder) {
        text.push(b"- ");
        text.push(*self);
        text.push(b"\n");
    }
}

/// Returns the list of these names, which are in byte order, or `NoMemory` if its allocation fails.
#[tactic(auto, using(crate::proofs::TextLemmas::names_told))]
pub(crate) fn names_text(alloc: Global, names: Names) -> Result<Text, NoMemory>
    requires { IsTrue (is_in_order (names_of names.items)) }
    ensures { IfOk result (λ text. text ≡ name_list (names_of names.entry.items)) }
{
    let text = text_of(alloc, names.as_slice());
    drop(names);
    text
}
