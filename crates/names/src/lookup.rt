// The name of a variable, as a part of the options' list or of the helpers' list.
ghost use Rattle.std.specs.Prelude.{◌≡◌};
ghost use Rattle.names.specs.Inner.Notes.{unnoted, Findable, Looked};

use crate::list::Names;

// Both lists of names, and how many options there are.
#[derive(Drop)]
pub struct Voices<'a> {
    pub options: u32,
    pub option_names: Names<'a>,
    pub helper_names: Names<'a>,
}

impl<'a> Voices<'a> {
    // Before anything is noted.
    pub fn new(options: u32, option_names: &'a [u8], helper_names: &'a [u8]) -> Voices<'a>
        ensures { result ≡ unnoted options option_names.entry helper_names.entry }
    {
        Voices {
            options,
            option_names: Names::new(option_names),
            helper_names: Names::new(helper_names),
        }
    }

    // The name of variable `n`: an option's up to `options`, a helper's above.
    pub fn lookup(&mut self, n: usize) -> &'a [u8]
        requires { Findable self.old n }
        ensures { Looked self.old n result.now self.new }
    {
        let v = self.options as usize;
        if n <= v {
            return self.option_names.name(n - 1);
        }
        self.helper_names.name(n - v - 1)
    }
}
