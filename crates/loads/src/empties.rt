//! The empty load, which replies carry.
ghost use Rattle.loads.specs.Empties.{empty_kind, empty_size, empty_spelled, empty_reads};
ghost use Rattle.std.proofs.Common.{rules};

use crate::faults::Fault;
use crate::kinds::Load;

/// A load of no octets, which every reply carries.
#[derive(Clone, Copy, Debug, PartialEq, Eq)]
pub struct EmptyLoad;

impl Load for EmptyLoad {
    const KIND: u8 = 0;

    ghost KIND = { empty_kind };

    const SIZE: usize = 0;

    ghost SIZE = { empty_size };

    ghost spelled = { empty_spelled };

    ghost reads = { empty_reads };

    ghost back = { Prim.search rules };

    ghost sized = { Prim.search rules };

    ghost refused = { Prim.search rules };

    ghost kind_bound = { Prim.search rules };

    ghost size_bound = { Prim.search rules };

    fn read(octets: &[u8]) -> Result<EmptyLoad, Fault> {
        if !octets.is_empty() {
            return Err(Fault::WrongLength);
        }
        Ok(EmptyLoad)
    }

    fn write(&self, _buffer: &mut [u8]) -> Result<(), Fault> {
        Ok(())
    }
}
