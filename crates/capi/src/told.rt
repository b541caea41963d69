// Answers in numbers.
ghost use Rattle.std.specs.Prelude.{◌≡◌};
ghost use Rattle.capi.specs.Answers.{place_number, place_index, told_accepted, told_refused, told_node, told_certificate, told_plain, told_unfinished, told_answer};

use answers::{CertificateVerdict, NodeVerdict, Place, Refusal, TurnVerdict};

// An answer in numbers; specs/Answers.antt gives each.
#[repr(C)]
#[derive(Clone, Copy)]
pub struct Told {
    pub number: usize,
    pub place: usize,
    pub index: usize,
    pub first: usize,
    pub second: usize,
    pub third: usize,
}

fn place_number(place: Place) -> usize
    ensures { result ≡ place_number place }
{
    match place {
        Place::File => 1,
        Place::Record(_) => 2,
        Place::Constraint(_) => 3,
        Place::Line(_) => 4,
        Place::Base => 5,
        Place::Step => 6,
    }
}

fn place_index(place: Place) -> usize
    ensures { result ≡ place_index place }
{
    match place {
        Place::Record(i) | Place::Constraint(i) | Place::Line(i) => i,
        Place::File | Place::Base | Place::Step => 0,
    }
}

pub fn accepted(first: usize, second: usize, third: usize) -> Told
    ensures { result ≡ told_accepted first second third }
{
    Told {
        number: 0,
        place: 0,
        index: 0,
        first,
        second,
        third,
    }
}

// No place and no values, as an accepted answer has them.
fn unfinished() -> Told
    ensures { result ≡ told_unfinished }
{
    Told {
        number: 256,
        ..accepted(0, 0, 0)
    }
}

impl From<Refusal> for Told {
    ghost from_gives = { λ refusal told. told ≡ told_refused refusal.number refusal.place };

    fn from(refusal: Refusal) -> Told {
        Told {
            number: refusal.number,
            place: place_number(refusal.place),
            index: place_index(refusal.place),
            first: 0,
            second: 0,
            third: 0,
        }
    }
}

impl From<NodeVerdict> for Told {
    ghost from_gives = { λ verdict told. told ≡ told_node verdict };

    #[tactic(auto, unfolding(crate::specs::Answers::told_node))]
    fn from(verdict: NodeVerdict) -> Told {
        match verdict {
            Ok(values) => accepted(values.streams, values.property, 0),
            Err(refusal) => refusal.into(),
        }
    }
}

impl From<CertificateVerdict> for Told {
    ghost from_gives = { λ verdict told. told ≡ told_certificate verdict };

    #[tactic(auto, unfolding(crate::specs::Answers::told_certificate))]
    fn from(verdict: CertificateVerdict) -> Told {
        match verdict {
            Ok(values) => accepted(values.depth, values.base, values.step),
            Err(refusal) => refusal.into(),
        }
    }
}

impl From<TurnVerdict> for Told {
    ghost from_gives = { λ verdict told. told ≡ told_answer verdict };

    #[tactic(auto, unfolding(crate::specs::Answers::told_answer))]
    fn from(verdict: TurnVerdict) -> Told {
        match verdict {
            Some(answer) => answer.into(),
            None => unfinished(),
        }
    }
}

// An answer that carries nothing when it is accepted: an instant's call's, and a table of ranges'.
impl From<Result<(), Refusal>> for Told {
    ghost from_gives = { λ verdict told. told ≡ told_plain verdict };

    #[tactic(auto, unfolding(crate::specs::Answers::told_plain))]
    fn from(verdict: Result<(), Refusal>) -> Told {
        match verdict {
            Ok(()) => accepted(0, 0, 0),
            Err(refusal) => refusal.into(),
        }
    }
}
