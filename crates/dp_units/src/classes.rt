//! What is known of a graph's units.
ghost use Rattle.std.specs.Prelude.{◌≡◌, ◌<◌, length, slice_index};

use dp_room::Row;

/// The units of a graph in their order, and for each node the place of its unit.
#[derive(Drop)]
pub struct Units {
    pub(crate) place_of: Row<u32>,
    pub(crate) order: Row<u32>,
}

impl Units {
    /// The place of the node's unit in the order.
    pub fn of(&self, node: u32) -> u32
        requires { node < length self.now.place_of }
        ensures { result ≡ slice_index self.now.place_of node }
    {
        self.place_of.as_slice()[node as usize]
    }

    /// For each node the place of its unit.
    pub fn places(&self) -> &[u32]
        ensures { result.now ≡ self.now.place_of }
    {
        self.place_of.as_slice()
    }

    /// The least node of each unit, in the order.
    pub fn order(&self) -> &[u32]
        ensures { result.now ≡ self.now.order }
    {
        self.order.as_slice()
    }
}
