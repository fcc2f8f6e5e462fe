//! Why a text isn't read as a certificate.
use std::alloc::AllocError;

/// Why a text isn't read as a certificate.
#[derive(Clone, Copy, Drop)]
pub enum ReadFault {
    /// The place of the first byte that no certificate continues, or the number of the bytes where they end too early.
    BadCert(usize),
    /// There was no memory for the certificate.
    Memory(AllocError),
}

impl From<AllocError> for ReadFault {
    ghost use Rattle.std.specs.Prelude.{◌≡◌};
    ghost use Rattle.ab_cert.specs.declared.fault.ReadFault.TheVariants.{Memory};

    ghost from_gives = { λ error fault. fault ≡ Memory error };

    fn from(error: AllocError) -> ReadFault {
        ReadFault::Memory(error)
    }
}
