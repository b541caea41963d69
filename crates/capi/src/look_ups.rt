// Looking up one stream in a short pass: the answer comes with the value.
ghost use Rattle.std.specs.Prelude.{◌≡◌};
ghost use Rattle.look_up.specs.LookUp.{look_up_of};
ghost use Rattle.capi.specs.Answers.{told_look_up};

use crate::told::{Told, accepted};
use answers::LookUpVerdict;

// A look-up: its answer in numbers, and the value, 0 where it is refused.
#[repr(C)]
#[derive(Clone, Copy)]
pub struct ToldLookUp {
    pub answer: Told,
    pub value: i64,
}

impl From<LookUpVerdict> for ToldLookUp {
    ghost from_gives = { λ verdict told. told ≡ told_look_up verdict };

    #[tactic(auto, unfolding(crate::specs::Answers::told_look_up))]
    fn from(verdict: LookUpVerdict) -> ToldLookUp {
        match verdict {
            Ok(value) => ToldLookUp {
                answer: accepted(0, 0, 0),
                value,
            },
            Err(refusal) => ToldLookUp {
                answer: refusal.into(),
                value: 0,
            },
        }
    }
}

// A look-up in a node file's history of this many instants, which has these inputs in turn.
#[unsafe(no_mangle)]
pub extern "C" fn conuhawe_look_up(
    node: &[u8],
    instants: usize,
    inputs: &[i64],
    stream: usize,
    instant: usize,
) -> ToldLookUp
    ensures { result ≡ told_look_up (look_up_of node.now instants inputs.now stream instant) }
{
    look_up::look_up(node, instants, inputs, stream, instant).into()
}
