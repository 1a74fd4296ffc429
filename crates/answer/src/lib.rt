// What a call answers: acceptance with two numbers, or one of the refusals; and the 16 bytes that tell a host of it.
#![tactic(auto)]

ghost use Rattle.std.specs.Prelude.{not, ◌≡◌, ◌+◌, ◌≤◌, eqb, length};
ghost use Rattle.laws.specs.Lists.{splice};
ghost use Rattle.laws.specs.Numbers.{cap, little};
ghost use Rattle.answer.specs.Answers.{number_of_fault, refused, refusal_told, told_of, most_shown};
ghost use Rattle.answer.specs.Inner.Given.{Given};

// What a call that is not refused reports. The two numbers are variables or picks, and clauses or total; of a bare check both are 0.
#[derive(Clone, Copy)]
pub struct Accepted {
    pub first: u32,
    pub second: u32,
}

// What is wrong with a record, in the order in which it is looked for.
#[derive(Clone, Copy, PartialEq, Eq)]
pub enum Fault {
    UnknownKind,
    // A field that its kind does not use is not zero.
    UnusedNotZero,
    // A child is not below its node.
    ChildNotBelow,
    // A symbol is not one of 1 to V.
    SymbolOutside,
}

// Why a call is refused.
#[derive(Clone, Copy)]
pub enum Refusal {
    // The table is empty, not a multiple of the node size, or too long.
    TableLength,
    // The option count is over its limit.
    Options,
    // A record breaks the rule of its kind: how, and the lowest such node.
    Record { fault: Fault, node: u32 },
    // The set has a wrong length (the node count), or a wrong byte (the lowest such node).
    Set { node: u32 },
    // Too many clauses.
    Clauses,
    // Too many literals.
    Literals,
    // The output needs more bytes than the lent buffer has.
    Room,
    // The DIMACS text is not accepted: the length of its longest good beginning.
    Text { place: usize },
    // The clause bytes to write are wrong.
    ClauseBytes,
    // A line of the node file is wrong or missing: its number from 1, or 0 for a text that is too long.
    Line { line: u32 },
    // The host's answer part is not 16 bytes long.
    AnswerPart,
    // There is no clause with this number.
    NoClause { clause: u32 },
    // A list of names breaks its rules.
    Names,
    // The `p sat` text is not accepted: the length of its longest good beginning.
    SatText { place: usize },
    // The formula of a text has more nodes than a table may have.
    Nodes,
}

// What a call answers.
pub type Answer = Result<Accepted, Refusal>;

// The four numbers of an answer.
#[derive(Clone, Copy)]
pub struct Told {
    pub number: u32,
    pub place: usize,
    pub first: u32,
    pub second: u32,
}

impl Fault {
    // The number of the refusal that a record with this fault earns.
    pub fn number(self) -> u32
        ensures { result ≡ number_of_fault self }
    {
        match self {
            Fault::UnknownKind => 3,
            Fault::UnusedNotZero => 12,
            Fault::ChildNotBelow => 13,
            Fault::SymbolOutside => 14,
        }
    }
}

// A refusal reports zero for all but its number and its place.
fn refused(number: u32, place: usize) -> Told
    ensures { result ≡ refused number place }
{
    Told {
        number,
        place,
        first: 0,
        second: 0,
    }
}

// The four numbers of a refusal, by the table of refusals.
fn tell_refusal(refusal: Refusal) -> Told
    ensures { result ≡ refusal_told refusal }
{
    match refusal {
        Refusal::TableLength => refused(1, 0),
        Refusal::Options => refused(2, 0),
        Refusal::Record { fault, node } => refused(fault.number(), node as usize),
        Refusal::Set { node } => refused(4, node as usize),
        Refusal::Clauses => refused(5, 0),
        Refusal::Literals => refused(6, 0),
        Refusal::Room => refused(7, 0),
        Refusal::Text { place } => refused(8, shown(place) as usize),
        Refusal::ClauseBytes => refused(9, 0),
        Refusal::Line { line } => refused(10, line as usize),
        Refusal::AnswerPart => refused(11, 0),
        Refusal::NoClause { clause } => refused(15, clause as usize),
        Refusal::Names => refused(16, 0),
        Refusal::SatText { place } => refused(17, shown(place) as usize),
        Refusal::Nodes => refused(18, 0),
    }
}

// The four numbers of an answer.
pub fn tell(answer: Answer) -> Told
    ensures { result ≡ told_of answer }
{
    match answer {
        Ok(accepted) => Told {
            number: 0,
            place: 0,
            first: accepted.first,
            second: accepted.second,
        },
        Err(refusal) => tell_refusal(refusal),
    }
}

// A place as it is shown: one that is too large for 32 bits shows as the largest number.
pub fn shown(place: usize) -> u32
    ensures { result ≡ cap most_shown place }
{
    u32::try_from(place).unwrap_or(u32::MAX)
}

// Stores a number in four bytes, the lowest first.
pub fn put(out: &mut [u8], at: usize, number: u32)
    requires { at + 4 ≤ length out.old }
    ensures { out.new ≡ splice out.old at (little 4 number) }
{
    out[at..at + 4].copy_from_slice(&number.to_le_bytes());
}

// Whether a host's answer part has a wrong length: refusal 11.
pub fn is_part_wrong(part: &[u8]) -> bool
    ensures { result ≡ not (eqb (length part.now) 16) }
{
    part.len() != 16
}

// Writes an answer to the host's answer part, and returns its number.
pub fn give(answer: Answer, part: &mut [u8]) -> u32
    requires { length part.old ≡ 16 }
    ensures { Given answer result part.new }
{
    let told = tell(answer);
    put(part, 0, told.number);
    put(part, 4, shown(told.place));
    put(part, 8, told.first);
    put(part, 12, told.second);
    told.number
}
