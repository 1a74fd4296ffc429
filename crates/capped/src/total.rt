// The totals of one list: how many clauses and how many literals, each read at its ceiling.
ghost use Rattle.std.specs.Prelude.{◌≡◌, ◌+◌, ◌*◌};
ghost use Rattle.laws.specs.Numbers.{cap};
ghost use Rattle.clausal.specs.Totals.{clause_ceiling, literal_ceiling, capped};
ghost use Rattle.capped.specs.Inner.Sized.{sized, as_total, stated_as};

// The whole product of two numbers.
fn product(a: u32, b: u32) -> u64
    ensures { result ≡ a * b }
{
    u64::from(a) * u64::from(b)
}

// A number read at a ceiling.
fn capped_at(ceiling: u32, number: u64) -> u32
    ensures { result ≡ cap ceiling number }
{
    number.min(u64::from(ceiling)) as u32
}

// A clause total.
#[derive(Clone, Copy)]
pub struct ClauseTotal {
    pub n: u16,
}

impl ClauseTotal {
    pub const CEILING: u16 = 65_535;

    pub fn zero() -> Self
        ensures { result.n ≡ 0 }
    {
        Self { n: 0 }
    }

    fn one() -> Self
        ensures { result.n ≡ 1 }
    {
        Self { n: 1 }
    }

    // A number of clauses, read at the ceiling.
    fn read(number: u64) -> Self
        ensures { result.n ≡ cap clause_ceiling number }
    {
        Self {
            n: capped_at(u32::from(Self::CEILING), number) as u16,
        }
    }

    // One list followed by another.
    pub fn add(self, other: Self) -> Self
        ensures { result.n ≡ cap clause_ceiling (self.n + other.n) }
    {
        Self::read(u64::from(self.n) + u64::from(other.n))
    }

    // The join of two lists.
    pub fn join(self, other: Self) -> Self
        ensures { result.n ≡ cap clause_ceiling (self.n * other.n) }
    {
        Self::read(product(u32::from(self.n), u32::from(other.n)))
    }
}

// A literal total.
#[derive(Clone, Copy)]
pub struct LiteralTotal {
    pub n: u32,
}

impl LiteralTotal {
    pub const CEILING: u32 = 1_000_000;

    pub fn zero() -> Self
        ensures { result.n ≡ 0 }
    {
        Self { n: 0 }
    }

    fn one() -> Self
        ensures { result.n ≡ 1 }
    {
        Self { n: 1 }
    }

    // What is shown where the total is not stated.
    const FULL: Self = Self { n: Self::CEILING };

    // A number of literals, read at the ceiling.
    fn read(number: u64) -> Self
        ensures { result.n ≡ cap literal_ceiling number }
    {
        Self {
            n: capped_at(Self::CEILING, number),
        }
    }

    // One list followed by another.
    pub fn add(self, other: Self) -> Self
        ensures { result.n ≡ cap literal_ceiling (self.n + other.n) }
    {
        Self::read(u64::from(self.n) + u64::from(other.n))
    }

    // These literals, repeated for each of a number of clauses.
    fn times(self, clauses: ClauseTotal) -> Self
        ensures { result.n ≡ cap literal_ceiling (self.n * clauses.n) }
    {
        Self::read(product(self.n, u32::from(clauses.n)))
    }

    // The join of two lists: each side's literals are repeated for each clause of the other.
    pub fn join(self, clauses: ClauseTotal, other: Self, others: ClauseTotal) -> Self
        ensures { result.n ≡ cap literal_ceiling (self.n * others.n + other.n * clauses.n) }
    {
        self.times(others).add(other.times(clauses))
    }
}

// Both totals of a list.
#[derive(Clone, Copy)]
pub struct Total {
    pub clauses: ClauseTotal,
    pub literals: LiteralTotal,
}

// A literal total is stated only where its clause total is below the ceiling.
fn stated(clauses: ClauseTotal, literals: LiteralTotal) -> Total
    ensures { result ≡ stated_as clauses.n literals.n }
{
    if clauses.n < ClauseTotal::CEILING {
        return Total { clauses, literals };
    }
    Total {
        clauses,
        literals: LiteralTotal::FULL,
    }
}

impl Total {
    // No clause.
    pub fn none() -> Self
        ensures { result ≡ as_total capped.none }
    {
        Self {
            clauses: ClauseTotal::zero(),
            literals: LiteralTotal::zero(),
        }
    }

    // One empty clause.
    pub fn empty() -> Self
        ensures { result ≡ as_total capped.empty }
    {
        Self {
            clauses: ClauseTotal::one(),
            literals: LiteralTotal::zero(),
        }
    }

    // One clause of one literal.
    pub fn unit() -> Self
        ensures { result ≡ record { clauses = record { n = 1 }; literals = record { n = 1 } } }
    {
        Self {
            clauses: ClauseTotal::one(),
            literals: LiteralTotal::one(),
        }
    }

    // One list followed by another.
    pub fn cat(self, other: Self) -> Self
        ensures { result ≡ as_total (capped.cat (sized self) (sized other)) }
    {
        stated(
            self.clauses.add(other.clauses),
            self.literals.add(other.literals),
        )
    }

    // The join of two lists.
    pub fn join(self, other: Self) -> Self
        ensures { result ≡ as_total (capped.join (sized self) (sized other)) }
    {
        let own = self.clauses;
        let others = other.clauses;
        stated(
            own.join(others),
            self.literals.join(own, other.literals, others),
        )
    }
}
