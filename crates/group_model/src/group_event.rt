use own_model::{BackInput, OwnInput};
use ta_params::Login;

/// What happens to a group of sessions. Its calls are numbered from 0 in the order in which they come in; its sessions
/// are numbered from 0 by the opens that got a session, in their order. This project's own.
#[derive(Drop)]
pub enum GroupEvent {
    /// An open comes in. Its input is unread where a dead instance, a session that has the instance alone, or a shared
    /// limit stopped it; `limited` says that a limit did. Of each call `area` says whether it has an area for the arguments
    /// of its requests.
    Open {
        input: OwnInput,
        login: Login,
        limited: bool,
        area: bool,
    },
    /// An invoke of a function comes in.
    Invoke {
        session: u32,
        func: u32,
        input: OwnInput,
        area: bool,
    },
    /// A close comes in.
    Close {
        session: u32,
        area: bool,
    },
    /// A cancel comes in.
    Cancel {
        session: u32,
    },
    /// A call sees that it was cancelled, after so many steps.
    Seen {
        call: u32,
        steps: u128,
    },
    /// An open that has waited finds its instance gone, and pages enough for a new one or not. It comes back next.
    Room {
        call: u32,
        enough: bool,
    },
    /// A call comes back, other than from an interrupt, with what it was given.
    Back {
        call: u32,
        input: BackInput,
    },
    /// A call goes out, other than interrupted.
    Out {
        call: u32,
    },
}
