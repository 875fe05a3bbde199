//! Kernels that open over one page of code.

use osc_kernel::Kernel;
use osc_sv39::PteBits;
use osc_word::{Config, HeapKind};
use std::alloc::{AllocError, Global};

/// R and X.
const READ_EXECUTE: PteBits = PteBits(10);

/// The machine that a kernel is opened for.
#[derive(Clone, Copy)]
pub enum Size {
    /// That of the defaults.
    Default,
    /// Each number at its greatest.
    Greatest,
}

impl Size {
    fn config(self) -> Config {
        match self {
            Size::Default => Config {
                heap: HeapKind::Oscar,
                harts: 4,
                processes: 16,
                frames: 1024,
                shadows: 65536,
                journal: 65536,
                levels: 3,
                batch: 1,
            },
            Size::Greatest => Config {
                heap: HeapKind::Oscar,
                harts: 8,
                processes: 64,
                frames: 4096,
                shadows: 1_048_576,
                journal: 1_048_576,
                levels: 4,
                batch: 64,
            },
        }
    }
}

/// Opens as many kernels, one after the other, and adds up their processes.
pub fn opened(alloc: Global, count: u64, size: Size) -> Result<u64, AllocError> {
    let config = size.config();
    let mut sum: u64 = 0;
    for _opened in 0..count {
        sum = sum.wrapping_add(u64::from(processes(alloc, &config)?));
    }
    Ok(sum)
}

/// Opens a kernel, and tells its processes.
fn processes(alloc: Global, config: &Config) -> Result<u32, AllocError> {
    if config.check().is_err() {
        return Err(AllocError);
    }
    match Kernel::open(alloc, &[(16, READ_EXECUTE)], config) {
        Ok(kernel) => Ok(kernel.processes()),
        Err(_) => Err(AllocError),
    }
}
