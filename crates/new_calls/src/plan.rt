use crate::halt::Settled;
use kernel_state::Application;
use param_copy::TakenParams;
use session_table::Session;
use shm_registry::PageBuffer;
use ta_params::Login;

/// What a new call's tests have come to: what its slot is taken for, before anything is changed. It has all that the
/// change needs, but for the call's own memory. What was copied stands in a box, since the plan goes through many hands.
#[derive(Drop)]
pub enum Plan {
    /// A test failed.
    Settles(Settled),
    /// A session is opened with this application, on its instance or a new one; or that waits, where another call
    /// holds the instance.
    Opens {
        app: Application,
        login: Login,
        copies: Box<TakenParams>,
    },
    /// A function is invoked in this session, whose instance is of this application; or that waits.
    Invokes {
        session: Session,
        app: Application,
        copies: Box<TakenParams>,
    },
    /// This session is closed, whose instance is of this application; or that waits.
    Closes {
        session: Session,
        app: Application,
    },
    /// The pending calls of the named session that have the call's number are cancelled.
    Cancels,
    /// This buffer is kept under its cookie.
    KeepsBuffer {
        cookie: u64,
        buffer: PageBuffer,
    },
    /// The buffer of this cookie is kept no more.
    DropsBuffer {
        cookie: u64,
    },
}
