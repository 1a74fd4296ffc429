// The helpers of renamed nodes.
ghost use Rattle.std.specs.Prelude.{◌≡◌, length};
ghost use Rattle.clausal.specs.Clauses.{renaming, variables_of};
ghost use Rattle.parts.specs.Inner.Helpers.{helpers_of, Unnamed};

use marks::set::is_renamed;
use walk::nodes::Helpers;

// Gives each renamed node its helper, from `taken` + 1 on, and returns the last variable.
pub fn name_all(taken: u32, set: &[u8], helpers: &mut Helpers) -> u32
    requires { Unnamed taken set.now helpers.old }
    ensures { (result ≡ variables_of (renaming taken set.now) (length set.now)) ×
        (helpers.new ≡ helpers_of (renaming taken set.now) (length set.now)) }
{
    let mut last = taken;
    for i in 0..set.len() {
        if is_renamed(set, i) {
            last += 1;
            helpers[i] = last;
        }
    }
    last
}
