// What checks, judges and entries answer. specs/Answers.antt says which answer of the model each is, and the model gives paper 01's
// numbers for it. A check of a whole document answers `Result<(), usize>`: nothing wrong, or the lowest place that is.

#![tactic(auto)]

ghost use Rattle.std.specs.Prelude.{◌≡◌};
ghost use Rattle.answers.specs.Answers.{document, reason};
ghost use Rattle.answers.specs.declared.Refusal.TheVariants.{Faulty};
ghost use Rattle.model.specs.Definitions.Refusals.{document_number};
ghost use Rattle.model.specs.Definitions.Explanation.{reason_number};

// What is wrong with a document; the number is the mark.
#[derive(Clone, Copy, Debug, PartialEq, Eq)]
pub enum Fault {
    TooLong,
    BadForm(usize),
    OverLimit(usize),
    BadOperand(usize),
    RepeatedMember(usize),
    NoFiniteInstance(usize),
    RootMoved,
    WrongEnd(usize),
    WrongSteps(usize),
    PathClash(usize),
    Unexpected(usize),
}

// What an entry is given, or writes to.
#[derive(Clone, Copy, Debug, PartialEq, Eq)]
pub enum Document {
    SourceTable,
    TargetTable,
    Embedding,
    Tree,
    Output,
    Operations,
}

// A document's number in refusals.
impl From<Document> for u64 {
    ghost from_gives = { λ d n. n ≡ document_number (document d) };

    fn from(d: Document) -> u64 {
        match d {
            Document::SourceTable => codes::SOURCE_TABLE,
            Document::TargetTable => codes::TARGET_TABLE,
            Document::Embedding => codes::EMBEDDING,
            Document::Tree => codes::TREE,
            Document::Output => codes::OUTPUT,
            Document::Operations => codes::OPERATIONS,
        }
    }
}

// Why an entry refuses: a document has a fault; no conforming source document has the image; the source element that stands at this
// offset can't be read along the paths (02, N4); the image has a 129th level; it is longer than 60,000 bytes; what is to be written
// doesn't fit the output; the type to extend doesn't exist or is no choice (02, N8).
#[derive(Clone, Copy, Debug, PartialEq, Eq)]
pub enum Refusal {
    Faulty(Document, Fault),
    NoImage,
    Unreadable(usize),
    ImageTooDeep,
    ImageTooLong,
    OutputTooShort,
    NoChoice,
}

// What was written: its length, and how many elements are filler (of an image that was carried), or are on no followed path (of a
// document that was read along the paths).
#[derive(Clone, Copy, Debug, PartialEq, Eq)]
pub struct Written {
    pub length: usize,
    pub filler: usize,
}

// Why the paths of two members of a source type clash, an earlier and a later one: they are equal; the earlier is a shorter beginning of
// the later; the later is one of the earlier; they part at a sequence.
#[derive(Clone, Copy, Debug, PartialEq, Eq)]
pub enum Reason {
    EqualPaths,
    EarlierBegins,
    LaterBegins,
    PartAtSequence,
}

// The number of a reason (02, N9).
impl From<Reason> for u64 {
    ghost from_gives = { λ why n. n ≡ reason_number (reason why) };

    fn from(why: Reason) -> u64 {
        match why {
            Reason::EqualPaths => codes::EQUAL_PATHS,
            Reason::EarlierBegins => codes::EARLIER_BEGINS,
            Reason::LaterBegins => codes::LATER_BEGINS,
            Reason::PartAtSequence => codes::PART_AT_SEQUENCE,
        }
    }
}

// Two members whose paths clash: their source type; both counted from 1; how many steps the paths share; why they clash; and the offset
// of the later path's 21.
#[derive(Clone, Copy, Debug, PartialEq, Eq)]
pub struct Clash {
    pub source: usize,
    pub earlier: usize,
    pub later: usize,
    pub shared: usize,
    pub reason: Reason,
    pub mark: usize,
}

// Why an embedding is refused for a clash; or there is none to explain, with the judging answer inside: a number of edges, or a refusal.
#[derive(Clone, Copy, Debug, PartialEq, Eq)]
pub enum Explanation {
    Explained(Clash),
    Unexplained(Result<usize, Refusal>),
}
