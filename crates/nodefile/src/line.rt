// The lines of a node file: the option line, and the line of a node.
ghost use Rattle.std.specs.Prelude.{◌≡◌, ◌≤◌, length};
ghost use Rattle.nodefile.specs.Inner.Steps.{options_of, node_of, OptionsFound, NodeFound};

use formula::node::MOST_NODES;
use text::piece::{find, is_same, number_at};

const TAB: u8 = b'\t';

const NEWLINE: u8 = b'\n';

const MOST_KIND: u32 = 255;

const MOST_NUMBER: u32 = 65_535;

// The node that a line gives.
#[derive(Clone, Copy)]
pub struct Node {
    pub kind: u8,
    pub a: usize,
    pub b: usize,
}

// What a line says, and where the next line begins.
#[derive(Clone, Copy)]
pub struct Line<T> {
    pub says: T,
    pub next: usize,
}

// The option count that a line gives, if it is the option line.
fn options_of(line: &[u8]) -> Option<u32>
    ensures { result ≡ options_of line.now }
{
    let end = find(line, 0, TAB);
    if !is_same(&line[..end], b"options") {
        return None;
    }
    let count = number_at(line, end + 1, TAB, MOST_NUMBER)?;
    if count.next <= line.len() {
        return None;
    }
    Some(count.value)
}

// The node that a line gives, if it is the line of this node: its number, kind, a and b, and no field more.
fn node_of(line: &[u8], node: u32) -> Option<Node>
    ensures { result ≡ node_of node line.now }
{
    let number = number_at(line, 0, TAB, MOST_NUMBER)?;
    let kind = number_at(line, number.next, TAB, MOST_KIND)?;
    let a = number_at(line, kind.next, TAB, MOST_NUMBER)?;
    let b = number_at(line, a.next, TAB, MOST_NUMBER)?;
    if b.next <= line.len() {
        return None;
    }
    if number.value != node {
        return None;
    }
    Some(Node {
        kind: kind.value as u8,
        a: a.value as usize,
        b: b.value as usize,
    })
}

// The option line at the start of a text, if it is right and ended.
pub fn options_at(text: &[u8]) -> Option<Line<u32>>
    ensures { OptionsFound text.now result }
{
    let newline = find(text, 0, NEWLINE);
    if newline == text.len() {
        return None;
    }
    let says = options_of(&text[..newline])?;
    Some(Line {
        says,
        next: newline + 1,
    })
}

// The line of a node from `at` on, if it is right and ended, and no line of a node too many.
pub fn node_at(text: &[u8], at: usize, node: u32) -> Option<Line<Node>>
    requires { at ≤ length text.now }
    ensures { NodeFound text.now at node result }
{
    if node as usize >= MOST_NODES {
        return None;
    }
    let end = find(text, at, NEWLINE);
    if end == text.len() {
        return None;
    }
    let says = node_of(&text[at..end], node)?;
    Some(Line {
        says,
        next: end + 1,
    })
}
