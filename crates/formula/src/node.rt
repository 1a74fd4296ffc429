// A node of the formula table: its record, read and written here and nowhere else, and the rule that a record keeps.
ghost use Rattle.std.specs.Prelude.{◌||◌, ◌≡◌, ◌+◌, ◌<◌, ◌≤◌, eqb, length};
ghost use Rattle.laws.specs.Lists.{splice};
ghost use Rattle.laws.specs.Numbers.{little, little_at};
ghost use Rattle.answer.specs.Answers.{number_of_fault};
ghost use Rattle.formula.specs.Tables.{field_bytes, node_bytes, kind_of, node_at, node_count, node_record, known, use_of_a, use_of_b};
ghost use Rattle.formula.specs.Tables.{field_right, fault_in, fault_told, field_fault, first_fault, fault_found};

use answer::Fault;

// Bytes of a field, and of a node: its kind and two fields.
pub const FIELD_BYTES: usize = 2;

pub const NODE_BYTES: usize = 1 + 2 * FIELD_BYTES;
// Limits of a table: nodes, bytes, and the project's options.
pub const MOST_NODES: usize = 1024;

pub const MOST_TABLE: usize = NODE_BYTES * MOST_NODES;

pub const MOST_OPTIONS: u32 = 32_000;

#[derive(Clone, Copy)]
pub enum Kind {
    False,
    True,
    Symbol,
    Not,
    And,
    Or,
    Implies,
    Equivalent,
    // A kind byte over 7.
    Unknown,
}

#[derive(Clone, Copy)]
pub struct Node {
    pub kind: Kind,
    pub a: usize,
    pub b: usize,
}

// What a field of a record holds.
#[derive(Clone, Copy)]
pub enum Use {
    // Nothing: it is zero.
    Unused,
    // The number of a child.
    Child,
    // An option symbol.
    Symbol,
}

// The field from a place on.
fn field_at(table: &[u8], at: usize) -> usize
    requires { at + field_bytes ≤ length table.now }
    ensures { result ≡ little_at field_bytes table.now at }
{
    usize::from(u16::from_le_bytes([table[at], table[at + 1]]))
}

// The kind with a number.
fn kind_of(number: u8) -> Kind
    ensures { result ≡ kind_of number }
{
    match number {
        0 => Kind::False,
        1 => Kind::True,
        2 => Kind::Symbol,
        3 => Kind::Not,
        4 => Kind::And,
        5 => Kind::Or,
        6 => Kind::Implies,
        7 => Kind::Equivalent,
        _ => Kind::Unknown,
    }
}

// Node `i` of a table.
pub fn node_at(table: &[u8], i: usize) -> Node
    requires { i < node_count table.now }
    ensures { result ≡ node_at table.now i }
{
    let at = NODE_BYTES * i;
    let kind = kind_of(table[at]);
    let a = field_at(table, at + 1);
    let b = field_at(table, at + 1 + FIELD_BYTES);
    Node { kind, a, b }
}

// Stores a field from a place on.
fn put_field(table: &mut [u8], at: usize, field: usize)
    requires { at + field_bytes ≤ length table.old }
    ensures { table.new ≡ splice table.old at (little field_bytes field) }
{
    let low = (field % 65_536) as u16;
    table[at..at + FIELD_BYTES].copy_from_slice(&low.to_le_bytes());
}

// Stores the record of a node from a place on.
pub fn put_node(table: &mut [u8], at: usize, kind: u8, a: usize, b: usize)
    requires { at + node_bytes ≤ length table.old }
    ensures { table.new ≡ splice table.old at (node_record kind a b) }
{
    table[at] = kind;
    put_field(table, at + 1, a);
    put_field(table, at + 1 + FIELD_BYTES, b);
}

// Whether a kind is one of the table of kinds.
fn is_known(kind: Kind) -> bool
    ensures { result ≡ known kind }
{
    !matches!(kind, Kind::Unknown)
}

// What field a of a kind holds.
fn use_of_a(kind: Kind) -> Use
    ensures { result ≡ use_of_a kind }
{
    match kind {
        Kind::False | Kind::True | Kind::Unknown => Use::Unused,
        Kind::Symbol => Use::Symbol,
        Kind::Not | Kind::And | Kind::Or | Kind::Implies | Kind::Equivalent => Use::Child,
    }
}

// What field b of a kind holds.
fn use_of_b(kind: Kind) -> Use
    ensures { result ≡ use_of_b kind }
{
    match kind {
        Kind::And | Kind::Or | Kind::Implies | Kind::Equivalent => Use::Child,
        Kind::False | Kind::True | Kind::Symbol | Kind::Not | Kind::Unknown => Use::Unused,
    }
}

// Whether a field of node `i` is right, for what it holds.
fn is_right(options: u32, i: usize, held: Use, field: usize) -> bool
    ensures { result ≡ field_right options i held field }
{
    match held {
        Use::Unused => field == 0,
        Use::Child => field < i,
        Use::Symbol => 0 < field && field <= options as usize,
    }
}

// The fault of a field that is not right.
fn fault_in(held: Use) -> Fault
    ensures { result ≡ fault_in held }
{
    match held {
        Use::Unused => Fault::UnusedNotZero,
        Use::Child => Fault::ChildNotBelow,
        Use::Symbol => Fault::SymbolOutside,
    }
}

// The fault of a field of node `i`, where it is not right.
fn field_fault(options: u32, i: usize, held: Use, field: usize) -> Option<Fault>
    ensures { result ≡ field_fault options i held field }
{
    if is_right(options, i, held, field) {
        return None;
    }
    Some(fault_in(held))
}

// Whether one of two fields has a fault.
fn is_either(a: Option<Fault>, b: Option<Fault>, fault: Fault) -> bool
    ensures { result ≡ (eqb (fault_told a) (number_of_fault fault) || eqb (fault_told b) (number_of_fault fault)) }
{
    a == Some(fault) || b == Some(fault)
}

// Of the faults of a kind and two fields the one that is looked at first.
fn first_fault(known: bool, a: Option<Fault>, b: Option<Fault>) -> Option<Fault>
    ensures { result ≡ first_fault known a b }
{
    if !known {
        return Some(Fault::UnknownKind);
    }
    // Most records are right: that is asked before faults are compared.
    if a.is_none() && b.is_none() {
        return None;
    }
    if is_either(a, b, Fault::UnusedNotZero) {
        return Some(Fault::UnusedNotZero);
    }
    if is_either(a, b, Fault::ChildNotBelow) {
        return Some(Fault::ChildNotBelow);
    }
    if is_either(a, b, Fault::SymbolOutside) {
        return Some(Fault::SymbolOutside);
    }
    None
}

// The fault of the record of node `i`, where it is not right.
pub fn fault(options: u32, i: usize, node: Node) -> Option<Fault>
    ensures { result ≡ fault_found options i node }
{
    let kind = node.kind;
    let a = field_fault(options, i, use_of_a(kind), node.a);
    let b = field_fault(options, i, use_of_b(kind), node.b);
    first_fault(is_known(kind), a, b)
}
