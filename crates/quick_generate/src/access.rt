//! How quick code reaches a word of a variable.

ghost use Rattle.std.specs.Prelude.{◌≡◌};
ghost use Rattle.quick_code.specs.Access.{register_of};
ghost use Rattle.quick_generate.specs.Views.{seen_access};

/// The register into which an address is loaded that no register holds.
const ADDRESS_REGISTER: u8 = 4;

/// How quick code reaches a word of a variable.
#[derive(Clone, Copy, Debug, PartialEq, Eq)]
pub(crate) enum Access {
    /// By a register from 5 to 14, which holds its address.
    Held(u8),
    /// By its address, which is loaded into r4.
    Known(u32),
}

impl Access {
    /// The register that has the address once it is found.
    pub(crate) fn register(self) -> u8
        ensures { result ≡ register_of (seen_access self) }
    {
        match self {
            Access::Held(register) => register,
            Access::Known(_) => ADDRESS_REGISTER,
        }
    }
}
