// Right lists of names, notes of where their names begin, and a name as a part of its list.
ghost use Rattle.std.specs.Prelude.{◌≡◌};
ghost use Rattle.names.specs.Names.{right_names, name_in};
ghost use Rattle.names.specs.Inner.Notes.{Notable, Within, no_notes, notes_of, found_in, place_of};

use text::piece::find;

// A list of names, and where they begin, as far as it is noted.
#[derive(Drop)]
pub struct Names<'a> {
    pub list: &'a [u8],
    // Where each 32nd name begins.
    pub begins: [usize; 1022],
    // The last name that was found, and where it begins.
    pub last: usize,
    pub at: usize,
}

impl<'a> Names<'a> {
    // Before anything is noted. The first name begins at 0.
    pub fn new(list: &'a [u8]) -> Names<'a>
        ensures { result ≡ no_notes list.entry }
    {
        Names {
            list,
            begins: [0; 1022],
            last: 0,
            at: 0,
        }
    }

    // Notes where each 32nd name of a right list begins.
    pub fn note(&mut self, count: usize)
        requires { Notable self.old count }
        ensures { self.new ≡ notes_of self.old count }
    {
        let list = self.list;
        let mut at = 0;
        for i in 0..count {
            at = find(list, at, b'\n') + 1;
            if (i + 1) % 32 == 0 {
                self.begins[(i + 1) / 32] = at;
            }
        }
    }

    // Where name `j` begins. The walk goes on from the last name found where `j` is not below it, or from the last 32nd name,
    // whichever is nearer.
    fn start_of(&mut self, j: usize) -> usize
        requires { Within self.old j }
        ensures { (result ≡ place_of self.old.list.now j) × (self.new ≡ found_in self.old j) }
    {
        let mut first = j - j % 32;
        let mut at = self.begins[j / 32];
        if first < self.last && self.last <= j {
            first = self.last;
            at = self.at;
        }
        for _i in first..j {
            at = find(self.list, at, b'\n') + 1;
        }
        self.last = j;
        self.at = at;
        at
    }

    // Name `j`, as a part of the list.
    pub fn name(&mut self, j: usize) -> &'a [u8]
        requires { Within self.old j }
        ensures { (result.now ≡ name_in self.old.list.now j) × (self.new ≡ found_in self.old j) }
    {
        let list = self.list;
        let start = self.start_of(j);
        let end = find(list, start, b'\n');
        &list[start..end]
    }
}

// Whether a list has exactly `count` names, each ended by a newline.
pub fn is_right(list: &[u8], count: usize) -> bool
    ensures { result ≡ right_names count list.now }
{
    if find(list, 0, b'\t') < list.len() {
        return false;
    }
    let mut at = 0;
    for _i in 0..count {
        let end = find(list, at, b'\n');
        if end == at || end == list.len() {
            return false;
        }
        at = end + 1;
    }
    at == list.len()
}
