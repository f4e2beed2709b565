ghost use Rattle.std.specs.Prelude.{◌≡◌, replicate};

/// Who opened a session, as the application is told.
#[derive(Clone, Copy, PartialEq, Eq)]
pub struct Login {
    /// The client's UUID, its octets in the order of RFC 4122.
    pub client: [u8; 16],
    /// The login method, as `TEE_LOGIN_PUBLIC` of the GlobalPlatform API, handed on as it came.
    pub kind: u32,
}

impl Login {
    /// The login of a client that names none: `TEE_LOGIN_PUBLIC` with the nil UUID.
    pub fn public() -> Login
        ensures { result ≡ record { client = replicate 16 0; kind = 0 } }
    {
        Login {
            client: [0; 16],
            kind: 0,
        }
    }
}
