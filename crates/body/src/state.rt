// The reader's state behind the header: it goes in by value with each byte, and the advanced state comes back. There is a method for
// each thing that a byte can do, and each is one byte on. (One method for all of them, which picks by phase and class, is too long to be
// made part of the loops that call it.)
ghost use Rattle.std.specs.Prelude.{◌≡◌, ◌<◌, ◌-◌};
ghost use Rattle.header.specs.Inner.Heads.{last_place};
ghost use Rattle.body.specs.Inner.Table.{Begin, Lead, Grow, is_dead, is_number};
ghost use Rattle.body.specs.Inner.States.{start_of, to_of, dead_of, close_of, open_of, turn_of, move_of, accepts, Digit};

use crate::phase::{Phase, ends_in, is_dead, is_number};
use clausebytes::limits::MOST_LITERALS;

#[derive(Clone, Copy)]
pub struct State {
    pub phase: Phase,
    // The running place: bytes passed while the text begins some accepted text.
    pub place: usize,
    // What has been read of a literal.
    pub value: u32,
    pub variables: u32,
    // The clauses that the header declares.
    pub declared: u32,
    // The clause number: clauses closed so far.
    pub clauses: u32,
    // The literal total: literals begun so far.
    pub literals: u32,
}

impl State {
    // Right behind a header.
    pub fn start(place: usize, variables: u32, declared: u32) -> State
        ensures { result ≡ start_of place variables declared }
    {
        State {
            phase: Phase::Between,
            place,
            value: 0,
            variables,
            declared,
            clauses: 0,
            literals: 0,
        }
    }

    // Whether a text that ends in this state is accepted.
    pub fn is_accepted(self) -> bool
        ensures { result ≡ accepts self }
    {
        ends_in(self.phase) && self.clauses == self.declared
    }

    // Whether no accepted text begins so.
    pub fn is_dead(self) -> bool
        ensures { result ≡ is_dead self.phase }
    {
        is_dead(self.phase)
    }

    // Whether it is in the digits of a literal.
    pub fn is_number(self) -> bool
        ensures { result ≡ is_number self.phase }
    {
        is_number(self.phase)
    }

    // One byte on, to a phase, with what is read of a literal there.
    fn to(self, phase: Phase, value: u32) -> State
        requires { self.place < last_place }
        ensures { result ≡ to_of self phase value }
    {
        State {
            phase,
            place: self.place + 1,
            value,
            ..self
        }
    }

    // No accepted text goes on so: the place stays.
    pub fn dead(self) -> State
        ensures { result ≡ dead_of self }
    {
        State {
            phase: Phase::Dead,
            ..self
        }
    }

    // White space.
    pub fn pass(self) -> State
        requires { self.place < last_place }
        ensures { result ≡ to_of self Phase.Between 0 }
    {
        self.to(Phase::Between, 0)
    }

    // A zero closes a clause, if one is still to come.
    pub fn close(self) -> State
        requires { self.place < last_place }
        ensures { result ≡ close_of self }
    {
        let clauses = self.clauses;
        if clauses >= self.declared {
            return self.dead();
        }
        State {
            phase: Phase::Closed,
            place: self.place + 1,
            value: 0,
            clauses: clauses + 1,
            ..self
        }
    }

    // A literal begins, if a clause and a literal are still to come.
    fn open(self, phase: Phase, value: u32) -> State
        requires { self.place < last_place }
        ensures { result ≡ open_of self phase value }
    {
        if self.clauses >= self.declared || self.literals >= MOST_LITERALS {
            return self.dead();
        }
        State {
            phase,
            place: self.place + 1,
            value,
            literals: self.literals + 1,
            ..self
        }
    }

    // The first digit of a literal without `-`.
    pub fn begin(self, byte: u8) -> State
        requires { Digit self byte }
        ensures { result ≡ move_of Begin self (byte - 48) }
    {
        let digit = u32::from(byte - b'0');
        if digit > self.variables {
            return self.dead();
        }
        self.open(Phase::Plain, digit)
    }

    // The `-` of a literal, which needs a variable.
    pub fn turn(self) -> State
        requires { self.place < last_place }
        ensures { result ≡ turn_of self }
    {
        if self.variables == 0 {
            return self.dead();
        }
        self.open(Phase::Sign, 0)
    }

    // The digit behind a minus.
    pub fn lead(self, byte: u8) -> State
        requires { Digit self byte }
        ensures { result ≡ move_of Lead self (byte - 48) }
    {
        let digit = u32::from(byte - b'0');
        if digit > self.variables {
            return self.dead();
        }
        self.to(Phase::Negated, digit)
    }

    // A further digit of a literal.
    pub fn grow(self, byte: u8) -> State
        requires { Digit self byte }
        ensures { result ≡ move_of Grow self (byte - 48) }
    {
        if self.value == 0 {
            return self.dead();
        }
        let next = u64::from(self.value) * 10 + u64::from(byte - b'0');
        if next > u64::from(self.variables) {
            return self.dead();
        }
        self.to(self.phase, next as u32)
    }
}
