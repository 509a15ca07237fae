//! The reading: a 32-bit number from the trail.
ghost use Rattle.loads.specs.Readings.{reading_kind, reading_size, reading_spelled, reading_reads};
ghost use Rattle.std.proofs.Common.{rules};

use crate::faults::Fault;
use crate::kinds::Load;

/// A number that a hut or a trail sensor reports.
#[derive(Clone, Copy, Debug, PartialEq, Eq)]
pub struct Reading {
    /// The number. Its unit is no part of the format.
    pub value: u32,
}

impl Load for Reading {
    const KIND: u8 = 1;

    ghost KIND = { reading_kind };

    const SIZE: usize = 4;

    ghost SIZE = { reading_size };

    ghost spelled = { reading_spelled };

    ghost reads = { reading_reads };

    ghost back = { Prim.search rules };

    ghost sized = { Prim.search rules };

    ghost refused = { Prim.search rules };

    ghost kind_bound = { Prim.search rules };

    ghost size_bound = { Prim.search rules };

    fn read(octets: &[u8]) -> Result<Reading, Fault> {
        let Ok(octets) = octets.try_into() else {
            return Err(Fault::WrongLength);
        };
        let value = u32::from_be_bytes(octets);
        Ok(Reading { value })
    }

    fn write(&self, buffer: &mut [u8]) -> Result<(), Fault> {
        let Reading { value } = *self;
        let Some(front) = buffer.first_chunk_mut() else {
            return Err(Fault::WrongLength);
        };
        *front = value.to_be_bytes();
        Ok(())
    }
}
