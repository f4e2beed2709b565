ghost use Rattle.std.specs.Prelude.{◌≡◌, map};
ghost use Rattle.kernel_state.specs.Cancelling.{marked_by};

/// How the call of a slot is cancelled, and whether it was: what others ask and change also while a processor works on
/// the call. Where the slot is free it means nothing.
#[derive(Clone, Copy)]
pub struct Cancellation {
    /// The number of its session, 0 where it has none.
    pub session: u32,
    /// The number that its client gave it to cancel it by.
    pub cancel_id: u32,
    /// It was cancelled.
    pub marked: bool,
}

impl Cancellation {
    /// Marked, where its call is of this session and has this number.
    fn marked_by(self, session: u32, cancel_id: u32) -> Cancellation
        ensures { result ≡ marked_by (record { session = session; cancel_id = cancel_id }) self }
    {
        let is_meant = self.session == session && self.cancel_id == cancel_id;
        Cancellation {
            marked: is_meant || self.marked,
            ..self
        }
    }
}

/// Marks the calls of a session that have this number, those that a processor works on and those that are suspended.
pub fn mark_calls(cancellations: &mut [Cancellation], session: u32, cancel_id: u32)
    ensures { cancellations.new ≡ map (marked_by (record { session = session; cancel_id = cancel_id })) cancellations.old }
{
    for beside in cancellations.iter_mut() {
        *beside = beside.marked_by(session, cancel_id);
    }
}
