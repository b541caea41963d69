// The answer to a look-up, in the paper's order: the node's own refusals, 31, 33 over the whole history, 65, and 34 or the value.
ghost use Rattle.std.specs.Prelude.{◌≡◌, true};
ghost use Rattle.look_up.specs.LookUp.{is_in, look_up_of};
ghost use Rattle.look_up.specs.Looking.{ToldOf};

use crate::filling::filled;
use crate::history::History;
use crate::refusals;
use crate::table::look;
use answers::{LookUpVerdict, Place, Refusal, check, check_records};
use histories::{bad_input, is_counted};
use node::{input_count, verdict};

// The value of a stream and an instant in the history, or none where one that is visited is outside.
fn told(history: &History, stream: usize, instant: usize) -> Option<i64>
    requires { is_in history.now.n history.now.count stream instant ≡ true }
    ensures { ToldOf history.now.file.now history.now.count history.now.inputs.now stream instant result }
{
    let mut table = [None; 1024];
    filled(history, &mut table);
    look(history.file, history.n, &mut table, instant, stream)
}

// The answer to a look-up of a stream at an instant, in a history of `count` instants that has these inputs in turn.
pub fn look_up(
    file: &[u8],
    count: usize,
    inputs: &[i64],
    stream: usize,
    instant: usize,
) -> LookUpVerdict
    ensures { result ≡ look_up_of file.now count inputs.now stream instant }
{
    let n = verdict(file)?.streams;
    let m = input_count(file);
    check(
        is_counted(count, m, inputs),
        refusals::INPUT_COUNT,
        Place::File,
    )?;
    check_records(bad_input(file, n, count, inputs, m), refusals::BOOL_INPUT)?;
    check(
        (count <= 16) & ((stream < n) & (instant < count)),
        refusals::NOT_IN_HISTORY,
        Place::File,
    )?;
    let history = History {
        file,
        n,
        m,
        count,
        inputs,
    };
    told(&history, stream, instant).ok_or(Refusal {
        number: refusals::OUTSIDE_RANGE,
        place: Place::Record(stream),
    })
}
