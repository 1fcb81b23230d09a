// An answer as five numbers, as paper 01 numbers refusals, documents and marks, and an explanation as ten.

#![tactic(auto)]

ghost use Rattle.std.specs.Prelude.{◌≡◌};
ghost use Rattle.model.specs.Definitions.Entries.{answer_of};
ghost use Rattle.model.specs.Definitions.Entries as model;
ghost use Rattle.model.specs.Definitions.Explanation as explanations;
ghost use Rattle.model.specs.Definitions.Explanation.{explanation_numbers};
ghost use Rattle.answers.specs.Answers.{refusal, counted_result, written_result, clash, explanation};
ghost use Rattle.answer_numbers.specs.Numbers.{numbers, refusal_numbers, ForFault, ten_numbers, unexplained_numbers};

use answers::{Clash, Explanation, Fault, Refusal, Written};

// Fields that don't apply are 0; so is `refusal` where the input is accepted.
#[repr(C)]
#[derive(Clone, Copy)]
pub struct Answer {
    pub refusal: u64,
    pub document: u64,
    pub mark: u64,
    pub value: u64,
    pub filler: u64,
}

// The answer of acceptance.
pub fn accepting(value: u64, filler: u64) -> Answer
    ensures { numbers result ≡ answer_of (model.accepted value filler) }
{
    Answer {
        refusal: 0,
        document: 0,
        mark: 0,
        value,
        filler,
    }
}

// The answer of refusal by a number, a document's number and a mark.
fn refusing(refusal: u64, document: u64, mark: usize) -> Answer
    ensures { numbers result ≡ refusal_numbers refusal document mark }
{
    Answer {
        refusal,
        document,
        mark: mark as u64,
        value: 0,
        filler: 0,
    }
}

// The answer for a fault of a document. That is given by its number and not as a `Document`: `ForFault` says what is answered for every
// number.
pub fn faulting(f: Fault, document: u64) -> Answer
    ensures { ForFault f document result }
{
    match f {
        Fault::TooLong => refusing(codes::TOO_LONG, document, 0),
        Fault::BadForm(at) => refusing(codes::BAD_FORM, document, at),
        Fault::OverLimit(at) => refusing(codes::OVER_LIMIT, document, at),
        Fault::BadOperand(at) => refusing(codes::BAD_OPERAND, document, at),
        Fault::RepeatedMember(at) => refusing(codes::REPEATED_MEMBER, document, at),
        Fault::NoFiniteInstance(t) => refusing(codes::NO_FINITE_INSTANCE, document, t),
        Fault::RootMoved => refusing(codes::ROOT_MOVED, document, 0),
        Fault::WrongEnd(at) => refusing(codes::WRONG_END, document, at),
        Fault::WrongSteps(at) => refusing(codes::WRONG_STEPS, document, at),
        Fault::PathClash(at) => refusing(codes::PATH_CLASH, document, at),
        Fault::Unexpected(at) => refusing(codes::UNEXPECTED, document, at),
    }
}

// The answer of each refusal.
impl From<Refusal> for Answer {
    ghost from_gives = { λ r a. numbers a ≡ answer_of (model.refused (refusal r)) };

    fn from(r: Refusal) -> Answer {
        match r {
            Refusal::Faulty(document, f) => faulting(f, u64::from(document)),
            Refusal::NoImage => refusing(codes::NO_IMAGE, codes::TREE, 0),
            Refusal::Unreadable(at) => refusing(codes::UNREADABLE, codes::TREE, at),
            Refusal::ImageTooDeep => refusing(codes::IMAGE_TOO_DEEP, codes::OUTPUT, 0),
            Refusal::ImageTooLong => refusing(codes::IMAGE_TOO_LONG, codes::OUTPUT, 0),
            Refusal::OutputTooShort => refusing(codes::OUTPUT_TOO_SHORT, codes::OUTPUT, 0),
            Refusal::NoChoice => refusing(codes::NO_CHOICE, codes::SOURCE_TABLE, 0),
        }
    }
}

// The answer of what answers one number: judging, bringing back, an operation on a loaded table.
impl From<Result<usize, Refusal>> for Answer {
    ghost from_gives = { λ r a. numbers a ≡ answer_of (counted_result r) };

    fn from(r: Result<usize, Refusal>) -> Answer {
        match r {
            Ok(n) => accepting(n as u64, 0),
            Err(why) => Answer::from(why),
        }
    }
}

// The answer of what answers two: carrying, and reading along the paths.
impl From<Result<Written, Refusal>> for Answer {
    ghost from_gives = { λ r a. numbers a ≡ answer_of (written_result r) };

    fn from(r: Result<Written, Refusal>) -> Answer {
        match r {
            Ok(w) => accepting(w.length as u64, w.filler as u64),
            Err(why) => Answer::from(why),
        }
    }
}

// An explanation as ten numbers: the judging answer's five, and five that are 0 where nothing is explained.
#[repr(C)]
#[derive(Drop)]
pub struct ExplanationNumbers {
    pub refusal: u64,
    pub document: u64,
    pub mark: u64,
    pub value: u64,
    pub filler: u64,
    pub reason: u64,
    pub source: u64,
    pub earlier: u64,
    pub later: u64,
    pub shared: u64,
}

// The numbers of an explanation.
impl From<Explanation> for ExplanationNumbers {
    ghost from_gives = { λ e n. ten_numbers n ≡ explanation_numbers (explanation e) };

    fn from(e: Explanation) -> ExplanationNumbers {
        match e {
            Explanation::Explained(clash) => ExplanationNumbers::from(clash),
            Explanation::Unexplained(answer) => ExplanationNumbers::from(Answer::from(answer)),
        }
    }
}

// The numbers of a clash.
impl From<Clash> for ExplanationNumbers {
    ghost from_gives = { λ c n. ten_numbers n ≡ explanation_numbers (explanations.explained (clash c)) };

    fn from(c: Clash) -> ExplanationNumbers {
        ExplanationNumbers {
            refusal: codes::PATH_CLASH,
            document: codes::EMBEDDING,
            mark: c.mark as u64,
            value: 0,
            filler: 0,
            reason: u64::from(c.reason),
            source: c.source as u64,
            earlier: c.earlier as u64,
            later: c.later as u64,
            shared: c.shared as u64,
        }
    }
}

// The numbers where nothing is explained.
impl From<Answer> for ExplanationNumbers {
    ghost from_gives = { λ a n. ten_numbers n ≡ unexplained_numbers (numbers a) };

    fn from(answer: Answer) -> ExplanationNumbers {
        ExplanationNumbers {
            refusal: answer.refusal,
            document: answer.document,
            mark: answer.mark,
            value: answer.value,
            filler: answer.filler,
            reason: 0,
            source: 0,
            earlier: 0,
            later: 0,
            shared: 0,
        }
    }
}
