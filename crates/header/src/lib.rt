// The head of a DIMACS text, comments and a header line, for any word of three letters and one number or two.
#![tactic(auto)]

ghost use Rattle.std.specs.Prelude.{◌≡◌, ◌<◌, eqb};
ghost use Rattle.text.specs.Inner.Numbers.{is_digit};
ghost use Rattle.header.specs.Inner.Heads.{last_place, is_blank, is_done, is_over, is_comment, start_of, to_of, dead_of, go_of};
ghost use Rattle.header.specs.Inner.Heads.{taken_of, most_of, line_of, comment_of, before_word_of, before_number_of, space_of, number_in};
ghost use Rattle.header.specs.Inner.Heads.{after_of, step_at, step_of, head_of, ReadyFor, ReadyIn, Lettered};

use classes::{BLANK, Classes, NEWLINE};
use text::number::{digit_of, grown};

// Where in the head the reader is.
#[derive(Clone, Copy)]
pub enum Spot {
    // At the start of a line, before the header.
    Line,
    // In a comment.
    Comment,
    // Behind `p`.
    Problem,
    // Between `p` and the word.
    BeforeWord,
    // Behind the first letter of the word.
    Second,
    // Behind the second letter of the word.
    Third,
    // Behind the word.
    Word,
    // Before a number, behind a space.
    BeforeNumber,
    // In a number.
    Number,
    // Behind the last number and a space.
    After,
}

#[derive(Clone, Copy)]
pub enum Phase {
    At(Spot),
    // Behind the newline that ends the header.
    Done,
    // No accepted text begins so.
    Dead,
}

// What a header has: the letters of its word, and the limits of its numbers.
#[derive(Clone, Copy)]
pub struct Form {
    pub first: u8,
    pub second: u8,
    pub third: u8,
    // The limit of the number before the last one, where there is such a number.
    pub before: Option<u32>,
    // The limit of the last number.
    pub last: u32,
}

#[derive(Clone, Copy)]
pub struct Head {
    pub phase: Phase,
    // The running place: bytes passed while the text begins some accepted text.
    pub place: usize,
    // What has been read of a number; in the end the last one.
    pub value: u32,
    // The number before it; 0 where there is none.
    pub before: u32,
    // Whether the number that is read, or comes next, is the last.
    pub last: bool,
}

// Whether a byte is a space or a tab.
fn is_blank(classes: &Classes, byte: u8) -> bool
    ensures { result ≡ is_blank byte }
{
    classes.is_of(byte, BLANK)
}

// Whether a byte is a newline.
fn is_newline(classes: &Classes, byte: u8) -> bool
    ensures { result ≡ eqb byte 10 }
{
    classes.is_of(byte, NEWLINE)
}

// Whether a byte is a digit.
fn is_digit(classes: &Classes, byte: u8) -> bool
    ensures { result ≡ is_digit byte }
{
    classes.is_digit(byte)
}

impl Head {
    // Before the first byte.
    pub fn start(form: Form) -> Head
        ensures { result ≡ start_of form }
    {
        Head {
            phase: Phase::At(Spot::Line),
            place: 0,
            value: 0,
            before: 0,
            last: form.before.is_none(),
        }
    }

    // Whether the header is read.
    pub fn is_done(self) -> bool
        ensures { result ≡ is_done self.phase }
    {
        matches!(self.phase, Phase::Done)
    }

    // Whether nothing more is read: the header is, or no accepted text begins so.
    fn is_over(self) -> bool
        ensures { result ≡ is_over self.phase }
    {
        matches!(self.phase, Phase::Done | Phase::Dead)
    }

    // Whether the head is in a comment.
    fn is_comment(self) -> bool
        ensures { result ≡ is_comment self.phase }
    {
        matches!(self.phase, Phase::At(Spot::Comment))
    }

    // One byte on, to a phase.
    fn to(self, phase: Phase) -> Head
        requires { self.place < last_place }
        ensures { result ≡ to_of self phase }
    {
        Head {
            phase,
            place: self.place + 1,
            ..self
        }
    }

    // No accepted text goes on so: the place stays.
    fn dead(self) -> Head
        ensures { result ≡ dead_of self }
    {
        Head {
            phase: Phase::Dead,
            ..self
        }
    }

    // One byte on where it is right, and dead where it is not.
    fn go(self, right: bool, phase: Phase) -> Head
        requires { self.place < last_place }
        ensures { result ≡ go_of self right phase }
    {
        if right { self.to(phase) } else { self.dead() }
    }

    // A digit was taken in, or could not be.
    fn taken(self, number: Option<u32>) -> Head
        requires { self.place < last_place }
        ensures { result ≡ taken_of self number }
    {
        match number {
            None => self.dead(),
            Some(value) => Head {
                value,
                ..self.to(Phase::At(Spot::Number))
            },
        }
    }

    // The limit of the number that is read, or comes next.
    fn most(self, form: Form) -> u32
        ensures { result ≡ most_of form self.last }
    {
        if self.last {
            return form.last;
        }
        form.before.unwrap_or(0)
    }

    // At the start of a line.
    fn line(self, classes: &Classes, byte: u8) -> Head
        requires { self.place < last_place }
        ensures { result ≡ line_of self byte }
    {
        if classes.is_letter(byte, b'c') {
            return self.to(Phase::At(Spot::Comment));
        }
        self.go(classes.is_letter(byte, b'p'), Phase::At(Spot::Problem))
    }

    // In a comment.
    fn comment(self, classes: &Classes, byte: u8) -> Head
        requires { self.place < last_place }
        ensures { result ≡ comment_of self byte }
    {
        if is_newline(classes, byte) {
            return self.to(Phase::At(Spot::Line));
        }
        self.to(Phase::At(Spot::Comment))
    }

    // Between `p` and the word.
    fn before_word(self, classes: &Classes, byte: u8, letter: u8) -> Head
        requires { ReadyFor letter self.place }
        ensures { result ≡ before_word_of self byte letter }
    {
        if is_blank(classes, byte) {
            return self.to(Phase::At(Spot::BeforeWord));
        }
        self.go(classes.is_letter(byte, letter), Phase::At(Spot::Second))
    }

    // Before a number.
    fn before_number(self, classes: &Classes, byte: u8, most: u32) -> Head
        requires { self.place < last_place }
        ensures { result ≡ before_number_of self byte most }
    {
        if is_blank(classes, byte) {
            return self.to(Phase::At(Spot::BeforeNumber));
        }
        if is_digit(classes, byte) {
            return self.taken(grown(false, 0, digit_of(byte), most));
        }
        self.dead()
    }

    // A space or a tab behind a number: it is read.
    fn space(self) -> Head
        requires { self.place < last_place }
        ensures { result ≡ space_of self }
    {
        if self.last {
            return self.to(Phase::At(Spot::After));
        }
        Head {
            phase: Phase::At(Spot::BeforeNumber),
            place: self.place + 1,
            value: 0,
            before: self.value,
            last: true,
        }
    }

    // In a number.
    fn number(self, classes: &Classes, byte: u8, most: u32) -> Head
        requires { self.place < last_place }
        ensures { result ≡ number_in self byte most }
    {
        if is_digit(classes, byte) {
            return self.taken(grown(true, self.value, digit_of(byte), most));
        }
        if is_blank(classes, byte) {
            return self.space();
        }
        if is_newline(classes, byte) {
            return self.go(self.last, Phase::Done);
        }
        self.dead()
    }

    // Behind the last number and a space.
    fn after(self, classes: &Classes, byte: u8) -> Head
        requires { self.place < last_place }
        ensures { result ≡ after_of self byte }
    {
        if is_blank(classes, byte) {
            return self.to(Phase::At(Spot::After));
        }
        self.go(is_newline(classes, byte), Phase::Done)
    }

    // One byte on, where the head is not over.
    fn step_at(self, spot: Spot, classes: &Classes, byte: u8, form: Form) -> Head
        requires { ReadyIn form self.place }
        ensures { result ≡ step_at spot form self byte }
    {
        match spot {
            Spot::Line => self.line(classes, byte),
            Spot::Comment => self.comment(classes, byte),
            Spot::Problem => self.go(is_blank(classes, byte), Phase::At(Spot::BeforeWord)),
            Spot::BeforeWord => self.before_word(classes, byte, form.first),
            Spot::Second => self.go(classes.is_letter(byte, form.second), Phase::At(Spot::Third)),
            Spot::Third => self.go(classes.is_letter(byte, form.third), Phase::At(Spot::Word)),
            Spot::Word => self.go(is_blank(classes, byte), Phase::At(Spot::BeforeNumber)),
            Spot::BeforeNumber => self.before_number(classes, byte, self.most(form)),
            Spot::Number => self.number(classes, byte, self.most(form)),
            Spot::After => self.after(classes, byte),
        }
    }

    // One byte on: hands back the advanced state.
    pub fn step(self, classes: &Classes, byte: u8, form: Form) -> Head
        requires { ReadyIn form self.place }
        ensures { result ≡ step_of form self byte }
    {
        match self.phase {
            Phase::At(spot) => self.step_at(spot, classes, byte, form),
            Phase::Done | Phase::Dead => self,
        }
    }
}

// Reads the head of a text: up to the newline that ends the header, or to where no accepted text goes on so, or all of it.
pub fn read(classes: &Classes, text: &[u8], form: Form) -> Head
    requires { Lettered form }
    ensures { result ≡ head_of form text.now }
{
    let mut head = Head::start(form);
    while head.place < text.len() {
        if head.is_over() {
            return head;
        }
        let place = head.place;
        head = head.step(classes, text[place], form);
        // A comment has a loop of its own: the compiler makes a short one of it.
        while head.place < text.len() && head.is_comment() {
            head = head.comment(classes, text[head.place]);
        }
    }
    head
}
