//! The piece made from its fields, and as octets.
ghost use Rattle.std.specs.Prelude.{◌≡◌};
ghost use Rattle.loads.specs.Maps.{on_map};
ghost use Rattle.loads.specs.Pieces.{piece_of, piece_kind, piece_size, piece_spelled, piece_reads};
ghost use Rattle.loads.specs.PieceLaws.{piece_back};
ghost use Rattle.std.proofs.Common.{rules};

use crate::faults::Fault;
use crate::kinds::Load;
use crate::pieces::Piece;

// The highest zoom that a map is drawn at.
const ZOOM_LIMIT: u8 = 20;

// Whether a map has the tile of this zoom, column and row, which a piece has as fields of its own.
fn on_map(zoom: u8, column: u32, row: u32) -> bool
    ensures answer { result ≡ on_map zoom column row }
{
    zoom <= ZOOM_LIMIT && column < 1 << zoom && row < 1 << zoom
}

impl Piece {
    /// The piece of these fields. Refused by `OutsideRanges` where the map has no such tile.
    pub fn new(zoom: u8, column: u32, row: u32, number: u16, body: u64) -> Result<Piece, Fault>
        ensures answer { result ≡ piece_of zoom column row number body }
    {
        if !on_map(zoom, column, row) {
            return Err(Fault::OutsideRanges);
        }
        Ok(Piece {
            zoom,
            column,
            row,
            number,
            body,
        })
    }
}

impl Load for Piece {
    const KIND: u8 = 2;

    ghost KIND = { piece_kind };

    const SIZE: usize = 19;

    ghost SIZE = { piece_size };

    ghost spelled = { piece_spelled };

    ghost reads = { piece_reads };

    ghost back = { λ x. piece_back x };

    ghost sized = { Prim.search rules };

    ghost refused = { Prim.search rules };

    ghost kind_bound = { Prim.search rules };

    ghost size_bound = { Prim.search rules };

    fn read(octets: &[u8]) -> Result<Piece, Fault> {
        if octets.len() != Self::SIZE {
            return Err(Fault::WrongLength);
        }
        // by places: a pattern of all 19 octets takes more lines
        Piece::new(
            octets[0],
            u32::from_be_bytes(octets[1..5].try_into().unwrap()),
            u32::from_be_bytes(octets[5..9].try_into().unwrap()),
            u16::from_be_bytes(octets[9..11].try_into().unwrap()),
            u64::from_be_bytes(octets[11..19].try_into().unwrap()),
        )
    }

    fn write(&self, buffer: &mut [u8]) -> Result<(), Fault> {
        let Piece {
            zoom,
            column,
            row,
            number,
            body,
        } = *self;
        if buffer.len() < Self::SIZE {
            return Err(Fault::WrongLength);
        }
        let (at_zoom, rest) = buffer.split_first_mut().unwrap();
        let (at_column, rest) = rest.split_first_chunk_mut().unwrap();
        let (at_row, rest) = rest.split_first_chunk_mut().unwrap();
        let (at_number, rest) = rest.split_first_chunk_mut().unwrap();
        let (at_body, _) = rest.split_first_chunk_mut().unwrap();
        *at_zoom = zoom;
        *at_column = column.to_be_bytes();
        *at_row = row.to_be_bytes();
        *at_number = number.to_be_bytes();
        *at_body = body.to_be_bytes();
        Ok(())
    }
}
