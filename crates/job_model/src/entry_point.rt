ghost use Rattle.std.specs.Prelude.{◌≡◌, ◌<◌};
ghost use Rattle.job_model.specs.Point.{number_of};

/// An entry point of an application, as the TEE Internal Core API has them ("TA Interface").
#[derive(Clone, Copy, Default)]
pub enum EntryPoint {
    /// `TA_CreateEntryPoint`, which makes an instance.
    #[default]
    Create,
    /// `TA_OpenSessionEntryPoint`.
    Open,
    /// `TA_InvokeCommandEntryPoint`, with the number of the function.
    Invoke { func: u32 },
    /// `TA_CloseSessionEntryPoint`.
    Close,
    /// `TA_DestroyEntryPoint`, which takes an instance apart.
    Destroy,
}

impl EntryPoint {
    /// Its number among the entry points of an image.
    pub fn number(self) -> u8
        ensures number { result ≡ number_of self }
        ensures few { result < 5 }
    {
        match self {
            EntryPoint::Create => 0,
            EntryPoint::Open => 1,
            EntryPoint::Invoke { .. } => 2,
            EntryPoint::Close => 3,
            EntryPoint::Destroy => 4,
        }
    }
}
