// The questions of a line's words: which of two that have no comes first.
ghost use Rattle.std.specs.Prelude.{◌≡◌};
ghost use Rattle.rules.specs.File.{first_refusal};
ghost use Rattle.reading.specs.Answers.{question_number, answer_number};

// The questions of a line's words, in the order in which a line asks them.
#[derive(Debug, Clone, Copy, PartialEq, Eq, PartialOrd, Ord)]
pub enum LineQuestion {
    Shape,
    Size,
    Limits,
    Variable,
}

impl LineQuestion {
    // Its number in the documents.
    pub fn number(self) -> u32
        ensures { result ≡ question_number self }
    {
        match self {
            LineQuestion::Shape => 3,
            LineQuestion::Size => 17,
            LineQuestion::Limits => 4,
            LineQuestion::Variable => 5,
        }
    }
}

// What a word answers: yes, or the first question that has no.
pub type Answer = Result<(), LineQuestion>;

// Of two answers the no that comes first.
pub fn first_refusal(p: Answer, q: Answer) -> Answer
    ensures { answer_number result ≡ first_refusal (answer_number p) (answer_number q) }
{
    let Err(a) = p else {
        return q;
    };
    let Err(b) = q else {
        return p;
    };
    Err(a.min(b))
}
