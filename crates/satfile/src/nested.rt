// Formulas and lists, which hold each other: the depth that is left falls.
ghost use Rattle.std.specs.Prelude.{cond, not, ◌||◌, ◌≡◌, ◌+◌, eqb};
ghost use Rattle.satfile.specs.Inner.Reads.{is_many, is_whole, ends_at, is_parted, formula_in, list_in};
ghost use Rattle.satfile.specs.Inner.Parts.{Inside, text_from, Tells, Readable, Passing};

use crate::lead::{Group, Lead, Reader, Wrong};
use crate::table::{end, fold, leaf};
use classes::is_space;

const CLOSE: u8 = b')';

// A part of a text that was read: the place behind it, and the number of the next node.
#[derive(Clone, Copy)]
pub struct Part {
    pub at: usize,
    pub next: usize,
}

// Whether a group may have any number of members, and not just one.
fn is_many(group: Group) -> bool
    ensures { result ≡ is_many group }
{
    matches!(group, Group::And | Group::Or)
}

// Whether a group is the text's, and ends where the text does.
fn is_whole(group: Group) -> bool
    ensures { result ≡ is_whole group }
{
    matches!(group, Group::Whole)
}

// Whether a group takes one more member: a list does, and any other group its first.
fn is_open(many: bool, next: usize, behind: usize) -> bool
    ensures { result ≡ (many || eqb behind next) }
{
    many || behind == next
}

// Whether a group has all its members: a list does, and any other group behind its first.
fn is_full(many: bool, next: usize, behind: usize) -> bool
    ensures { result ≡ (many || not (eqb behind next)) }
{
    many || behind != next
}

// The place behind the end of a group.
fn past(group: Group, at: usize) -> usize
    requires { Passing group at }
    ensures { result ≡ cond (is_whole group) at (at + 1) }
{
    if is_whole(group) { at } else { at + 1 }
}

impl Reader<'_> {
    // Whether a group ends at a place.
    fn is_end(&self, at: usize, group: Group) -> bool
        requires { Inside self.now at }
        ensures { result ≡ ends_at group (text_from self.now at) }
    {
        if self.text.len() <= at {
            return is_whole(group);
        }
        !is_whole(group) && self.text[at] == CLOSE
    }

    // Whether a member may end before a place: what follows parts it from the next one, or ends the group or the text.
    fn is_parted(&self, at: usize) -> bool
        requires { Inside self.now at }
        ensures { result ≡ is_parted (text_from self.now at) }
    {
        self.text.len() <= at || self.text[at] == CLOSE || is_space(self.text[at])
    }

    // Reads a formula, where `depth` parentheses may still be opened.
    #[cycle(formula_list)]
    fn formula(&self, at: usize, next: usize, depth: u32, table: &mut [u8]) -> Result<Part, Wrong>
        requires { Readable self.now at next }
        ensures { Tells self.now table.old at next (formula_in self.now.options depth) result table.new }
    {
        match self.begin(at, depth)? {
            Lead::Symbol {
                value,
                negated,
                at: end,
            } => Ok(Part {
                at: end,
                next: leaf(table, next, value, negated),
            }),
            Lead::Open { group, at: inside } => self.list(inside, next, depth - 1, group, table),
        }
    }

    // Reads a group from its first byte on, up to its end.
    #[cycle(formula_list)]
    pub fn list(
        &self,
        at: usize,
        next: usize,
        depth: u32,
        group: Group,
        table: &mut [u8],
    ) -> Result<Part, Wrong>
        requires { Readable self.now at next }
        ensures { Tells self.now table.old at next (list_in self.now.options depth group) result table.new }
    {
        let many = is_many(group);
        let mut i = self.skip(at);
        let mut behind = next;
        while !self.is_end(i, group) {
            if !is_open(many, next, behind) {
                return Err(Wrong { place: i });
            }
            let member = self.formula(i, behind, depth, table)?;
            if !self.is_parted(member.at) {
                return Err(Wrong { place: member.at });
            }
            behind = fold(table, group, next, behind, member.next);
            i = self.skip(member.at);
        }
        if !is_full(many, next, behind) {
            return Err(Wrong { place: i });
        }
        let after = past(group, i);
        Ok(Part {
            at: after,
            next: end(table, group, next, behind),
        })
    }
}
