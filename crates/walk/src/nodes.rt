// The nodes of a formula, as who walks them reads them.

use formula::node::MOST_NODES;
use totals::rows::Columns;

// The helper as which each node is seen, 0 for none.
pub type Helpers = [u32; MOST_NODES];

// A writer that calls itself is lent this by one thin reference, which stands in a register.
#[derive(Clone, Copy)]
pub struct Nodes<'a> {
    pub table: &'a [u8],
    // The totals of each node's lists.
    pub columns: &'a Columns,
    pub helpers: &'a Helpers,
}
