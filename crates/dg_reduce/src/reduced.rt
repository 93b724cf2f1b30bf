//! A reduced divisor.

use dg_chips::{Script, Wide};

/// A reduced divisor, and the script that leads to it.
#[derive(Clone, Copy, PartialEq, Eq)]
pub struct Reduced {
    /// The amounts after the firing.
    pub divisor: Wide,
    /// How often each vertex lends: 0 at q.
    pub script: Script,
}
