ghost use Rattle.std.specs.Prelude.{◌+◌, ◌*◌, ◌<◌, ◌≤◌};
ghost use Rattle.ns_ram.specs.Lane.{IsInRam};

use msg_args::MsgHead;

/// What a call brings along that has passed the tests of every call: its slot, its client, its argument's address and
/// head, its area, if it has one, and the cookie that names its argument, if one does. Its slot is to pin that.
#[derive(Drop)]
pub struct Entered {
    pub slot: u8,
    pub client: u32,
    pub arg: u64,
    pub area: Option<u64>,
    pub cookie: Option<u64>,
    pub head: MsgHead,
    pub ghost is_slot: { slot < 16 },
    /// The head counts at most six parameters, and they lie in RAM behind it.
    pub ghost few: { head.count ≤ 6 },
    pub ghost in_ram: { IsInRam arg (32 + 32 * head.count) },
}
