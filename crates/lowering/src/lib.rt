// The lowering's definition: an operation as steps, a step as code. This crate has two types, and no function.
#![tactic(auto)]

// Guest registers kept in host registers within a block, by pool position: the guest register held (16: none), and whether memory is
// behind. The order of the positions, least recently used first, tells which to give up when all are taken. Three arrays, and not one of
// slots: the definition (specs/Cache.antt) and the relation of demand 3 speak of each alone, and an order is of all eight.
#[derive(Clone, Copy)]
pub struct RegCache {
    pub guest: [u8; 8],
    pub dirty: [bool; 8],
    pub order: [u8; 8],
}

// A chain site: its word's position, and the guest address that it goes on at.
#[derive(Clone, Copy, Default)]
pub struct Site {
    pub at: u32,
    pub target: u32,
}
