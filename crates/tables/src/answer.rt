// What an operation answers, and the same as document 01 has it.

ghost use Rattle.std.specs.Prelude.{◌≡◌};
ghost use Rattle.tables.specs.Answer.{refusal_number, refusal_place};

// Why an operation is refused, with the place where the refusal has one.
#[derive(Clone, Copy, Debug, PartialEq, Eq)]
pub enum Refusal {
    Sheet(u32),
    Shape,
    Range(u32),
    Plan(u32),
    JobsShape,
    Job(u32),
    Room,
    NoBusy,
    NoPlan,
}

// What an operation answers: given, with its value; or refused.
pub type Answer = Result<u32, Refusal>;

// The answer as document 01 has it: the refusal's number, 0 where the answer is given; its place; and the given value.
#[repr(C)]
#[derive(Clone, Copy)]
pub struct Said {
    pub number: u32,
    pub place: u32,
    pub value: u64,
}

impl Refusal {
    fn number(self) -> u32
        ensures { result ≡ refusal_number self }
    {
        match self {
            Refusal::Shape => 1,
            Refusal::Room => 2,
            Refusal::Range(_) => 3,
            Refusal::NoBusy => 4,
            Refusal::NoPlan => 5,
            Refusal::Plan(_) => 6,
            Refusal::JobsShape => 7,
            Refusal::Job(_) => 8,
            Refusal::Sheet(_) => 9,
        }
    }

    fn place(self) -> u32
        ensures { result ≡ refusal_place self }
    {
        match self {
            Refusal::Sheet(at) | Refusal::Range(at) | Refusal::Plan(at) | Refusal::Job(at) => at,
            _ => 0,
        }
    }
}

impl From<Answer> for Said {
    ghost use Rattle.tables.specs.Answer.{Tells};

    ghost from_gives = { Tells };

    fn from(answer: Answer) -> Said {
        match answer {
            Ok(value) => Said {
                number: 0,
                place: 0,
                value: u64::from(value),
            },
            Err(refusal) => Said {
                number: refusal.number(),
                place: refusal.place(),
                value: 0,
            },
        }
    }
}
