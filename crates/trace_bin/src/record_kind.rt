ghost use Rattle.std.specs.Prelude.{◌≡◌};
ghost use Rattle.trace_bin.specs.Record.{fixed_len, has_bytes, kind_tagged};

/// What a record tells, by its tag.
#[derive(Clone, Copy)]
pub enum RecordKind {
    Boot,
    Ta,
    Mem,
    Key,
    Smc,
    Enter,
    Leave,
    Write,
    Show,
}

impl RecordKind {
    /// The kind of the records of this tag.
    #[tactic(auto, unfolding(crate::specs::Record::kind_tagged))]
    pub fn tagged(tag: u8) -> Option<RecordKind>
        ensures { result ≡ kind_tagged tag }
    {
        match tag {
            0x01 => Some(RecordKind::Boot),
            0x02 => Some(RecordKind::Ta),
            0x03 => Some(RecordKind::Mem),
            0x04 => Some(RecordKind::Key),
            0x10 => Some(RecordKind::Smc),
            0x11 => Some(RecordKind::Enter),
            0x12 => Some(RecordKind::Leave),
            0x13 => Some(RecordKind::Write),
            0x14 => Some(RecordKind::Show),
            _ => None,
        }
    }

    /// How many bytes of its body have their place.
    pub fn fixed_len(self) -> usize
        ensures { result ≡ fixed_len self }
    {
        match self {
            RecordKind::Boot => 4,
            RecordKind::Ta => 20,
            RecordKind::Mem => 12,
            RecordKind::Key => 32,
            RecordKind::Smc | RecordKind::Enter => 45,
            RecordKind::Leave => 1,
            RecordKind::Write | RecordKind::Show => 13,
        }
    }

    /// Whether bytes stand behind them.
    pub fn has_bytes(self) -> bool
        ensures { result ≡ has_bytes self }
    {
        matches!(self, RecordKind::Ta | RecordKind::Mem | RecordKind::Write)
    }
}
