//! The piece of a map tile: the type, with what holds of every piece.
ghost use Rattle.std.specs.Prelude.{◌≡◌, true};
ghost use Rattle.loads.specs.Maps.{on_map};

pub(crate) mod making;

/// A part of a map tile.
#[derive(Clone, Copy, Debug, PartialEq, Eq)]
pub struct Piece {
    /// The tile's zoom, at most 20.
    pub zoom: u8,
    /// The tile's column, below 2 to the power of its zoom.
    pub column: u32,
    /// The tile's row, below 2 to the power of its zoom.
    pub row: u32,
    /// Which part of the tile it is.
    pub number: u16,
    /// The 64 bits of the part.
    pub body: u64,
    ghost held: { on_map zoom column row ≡ true },
}
