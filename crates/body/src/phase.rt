// The phases of the reader behind the header.
ghost use Rattle.std.specs.Prelude.{◌≡◌};
ghost use Rattle.body.specs.Inner.Table.{ends_in, is_dead, is_number};

// Where in a text the reader is.
#[derive(Clone, Copy)]
pub enum Phase {
    // Where a literal or a zero may begin.
    Between,
    // Right behind a zero.
    Closed,
    // Right behind the `-` of a literal.
    Sign,
    // In a literal without `-`.
    Plain,
    // In a literal with `-`.
    Negated,
    // No accepted text begins so.
    Dead,
}

// Whether a text may end in a phase.
pub fn ends_in(phase: Phase) -> bool
    ensures { result ≡ ends_in phase }
{
    matches!(phase, Phase::Between | Phase::Closed)
}

// Whether no accepted text begins so.
pub fn is_dead(phase: Phase) -> bool
    ensures { result ≡ is_dead phase }
{
    matches!(phase, Phase::Dead)
}

// Whether the reader is in the digits of a literal.
pub fn is_number(phase: Phase) -> bool
    ensures { result ≡ is_number phase }
{
    matches!(phase, Phase::Plain | Phase::Negated)
}
