// What is looked up in: a history that passes 31, of an accepted node file.
ghost use Rattle.std.specs.Prelude.{◌*◌, ◌≡◌, true, length};
ghost use Rattle.answers.specs.Answer.{is_accepted};
ghost use Rattle.node.specs.Inputs.{input_count};
ghost use Rattle.node.specs.Layout.{streams_of};
ghost use Rattle.node.specs.Verdict.{verdict_of};

// A file of n streams, m of them inputs, and the inputs of `count` instants in turn.
#[derive(Clone, Copy)]
pub struct History<'a> {
    pub file: &'a [u8],
    pub n: usize,
    pub m: usize,
    pub count: usize,
    pub inputs: &'a [i64],
    pub ghost accepted: { is_accepted (verdict_of file.now) ≡ true },
    pub ghost streams: { n ≡ streams_of file.now },
    pub ghost inputs_each: { m ≡ input_count file.now },
    pub ghost counted: { length inputs.now ≡ count * m },
}
