ghost use Rattle.std.specs.Prelude.{◌≡◌};
ghost use Rattle.journal_bytes.specs.Record.{kind_tagged};

/// What a record tells, by its tag.
#[derive(Clone, Copy)]
pub enum RecordKind {
    Boot,
    Ta,
    Key,
    Entry,
    Exit,
}

impl RecordKind {
    /// The kind of the records of this tag.
    #[tactic(auto, unfolding(crate::specs::Record::kind_tagged))]
    pub fn tagged(tag: u8) -> Option<RecordKind>
        ensures { result ≡ kind_tagged tag }
    {
        match tag {
            0x01 => Some(RecordKind::Boot),
            0x02 => Some(RecordKind::Ta),
            0x04 => Some(RecordKind::Key),
            0x20 => Some(RecordKind::Entry),
            0x21 => Some(RecordKind::Exit),
            _ => None,
        }
    }
}
