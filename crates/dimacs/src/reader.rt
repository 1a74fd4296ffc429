// Reading what stands behind a header, to learn whether it is accepted: literals and zeros, each in functions that compile to short loops.
ghost use Rattle.std.specs.Prelude.{◌≡◌};
ghost use Rattle.dimacs.specs.Inner.Walks.{state_from, AtZero, Zeroed, AtLiteral, Begun, InDigits, Ended, Spelt, Walking};

use body::State;
use classes::{Classes, DIGIT, MINUS, NOUGHT};

// Reads a zero, and the white space right behind it.
fn zero(classes: &Classes, text: &[u8], start: State) -> State
    requires { AtZero text.now start }
    ensures { Zeroed text.now start result }
{
    let closed = start.close();
    if closed.is_dead() {
        return closed;
    }
    let i = closed.place;
    if i >= text.len() {
        return closed;
    }
    if !classes.is_white(text[i]) {
        return closed.dead();
    }
    closed.pass()
}

// Reads the first digit of a literal, and a `-` before it.
fn first(classes: &Classes, text: &[u8], start: State) -> State
    requires { AtLiteral text.now start }
    ensures { Begun text.now start result }
{
    let at = start.place;
    let byte = text[at];
    if classes.is_of(byte, DIGIT) {
        return start.begin(byte);
    }
    if !classes.is_of(byte, MINUS) {
        return start.dead();
    }
    let sign = start.turn();
    if sign.is_dead() {
        return sign;
    }
    let i = sign.place;
    if i >= text.len() {
        return sign;
    }
    let next = text[i];
    if !classes.is_of(next, DIGIT) {
        return sign.dead();
    }
    sign.lead(next)
}

// Reads the further digits of a literal.
fn digits(classes: &Classes, text: &[u8], start: State) -> State
    requires { InDigits text.now start }
    ensures { Ended text.now start result }
{
    let mut state = start;
    while state.place < text.len() {
        let i = state.place;
        let byte = text[i];
        if !classes.is_digit(byte) {
            return state;
        }
        state = state.grow(byte);
        if state.is_dead() {
            return state;
        }
    }
    state
}

// Reads a literal, up to the white space behind it.
fn literal(classes: &Classes, text: &[u8], start: State) -> State
    requires { AtLiteral text.now start }
    ensures { Spelt text.now start result }
{
    let begun = first(classes, text, start);
    if !begun.is_number() {
        return begun;
    }
    let end = digits(classes, text, begun);
    if end.is_dead() {
        return end;
    }
    let i = end.place;
    if i >= text.len() {
        return end;
    }
    if !classes.is_white(text[i]) {
        return end.dead();
    }
    end
}

// Reads a text from the state's place on; returns the state after it.
pub fn check(classes: &Classes, text: &[u8], start: State) -> State
    requires { Walking text.now start }
    ensures { result ≡ state_from start text.now start.place }
{
    let mut state = start;
    while state.place < text.len() {
        let i = state.place;
        let byte = text[i];
        if classes.is_white(byte) {
            state = state.pass();
        } else if classes.is_of(byte, NOUGHT) {
            state = zero(classes, text, state);
            if state.is_dead() {
                return state;
            }
        } else {
            let end = literal(classes, text, state);
            if end.is_dead() {
                return end;
            }
            if end.place >= text.len() {
                return end;
            }
            state = end.pass();
        }
    }
    state
}
