// The bytes of a whole set: no node, or every node that may be renamed.
ghost use Rattle.std.specs.Prelude.{◌≡◌, length, replicate};
ghost use Rattle.clausal.specs.Choosing.{all_of, everything};
ghost use Rattle.choose.specs.Inner.Visits.{Settable};
ghost use Rattle.formula.specs.Tables.{nodes_of};
ghost use Rattle.marks.specs.Inner.Held.{Marked};

use formula::node::NODE_BYTES;
use marks::mark::Marks;
use marks::set::may_rename;

// Takes every node out of a set.
pub fn clear(set: &mut [u8])
    ensures { set.new ≡ replicate (length set.old) 0 }
{
    set.fill(0);
}

// Puts exactly the nodes that may be renamed into a set.
pub fn put_all(table: &[u8], marks: &Marks, set: &mut [u8])
    requires { Settable table.now marks.now set.old }
    ensures { set.new ≡ all_of (nodes_of table.now) }
{
    for (i, byte) in set.iter_mut().enumerate() {
        *byte = u8::from(may_rename(table, marks, i));
    }
}

// How many nodes may be renamed.
pub fn count_all(table: &[u8], marks: &Marks) -> u32
    requires { Marked table.now marks.now }
    ensures { result ≡ (everything (nodes_of table.now)).picks }
{
    let mut all = 0;
    for i in 0..table.len() / NODE_BYTES {
        all += u32::from(may_rename(table, marks, i));
    }
    all
}
