// Looking up one stream in a short pass.
ghost use Rattle.std.specs.Prelude.{◌≡◌};
ghost use Rattle.look_up.specs.LookUp.{look_up_of};
ghost use Rattle.capi.specs.Answers.{told_look_up};

use capi::ToldLookUp;

// A look-up in a node file's history of this many instants, which has these inputs in turn.
#[unsafe(no_mangle)]
pub extern "C" fn conuhawe_look_up(
    node: &[u8],
    instants: usize,
    inputs: &[i64],
    stream: usize,
    instant: usize,
) -> ToldLookUp
    ensures { result ≡ told_look_up (look_up_of node.now instants inputs.now stream instant) }
{
    capi::conuhawe_look_up(node, instants, inputs, stream, instant)
}
