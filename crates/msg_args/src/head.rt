ghost use Rattle.std.specs.Prelude.{◌≡◌};
ghost use Rattle.msg_args.specs.Spelling.{head_bytes};
ghost use Rattle.msg_args.specs.Reading.{head_at};

use byteorder::{ByteOrder, LittleEndian};

/// The first 32 bytes of an argument: eight numbers of four bytes, the lowest byte first.
///
/// | Offset | 0 | 4 | 8 | 12 | 16 | 20 | 24 | 28 |
/// |---|---|---|---|---|---|---|---|---|
/// | Field | cmd | func | session | cancel_id | pad | ret | origin | count |
#[derive(Clone, Copy, Default)]
pub struct MsgHead {
    /// One of `OPTEE_MSG_CMD_*`. Any other number is kept too.
    pub cmd: u32,
    /// The function that is invoked in the trusted application.
    pub func: u32,
    /// The number of the session.
    pub session: u32,
    /// The number by which the call can be cancelled.
    pub cancel_id: u32,
    pub pad: u32,
    /// The result of the call.
    pub ret: u32,
    /// Where the result comes from (`ret_origin`).
    pub origin: u32,
    /// The number of parameters (`num_params`).
    pub count: u32,
}

impl MsgHead {
    /// The one spelling of this head.
    pub(crate) fn to_bytes(&self) -> [u8; 32]
        ensures { result ≡ head_bytes self.now }
    {
        let mut bytes = [0; 32];
        LittleEndian::write_u32_into(
            &[
                self.cmd,
                self.func,
                self.session,
                self.cancel_id,
                self.pad,
                self.ret,
                self.origin,
                self.count,
            ],
            &mut bytes,
        );
        bytes
    }
}

/// The head that these bytes spell. Any 32 bytes spell one.
pub fn read_head(bytes: &[u8; 32]) -> MsgHead
    ensures fields { result ≡ head_at bytes.now }
    ensures spelled { head_bytes result ≡ bytes.now }
{
    MsgHead {
        cmd: LittleEndian::read_u32(&bytes[0..]),
        func: LittleEndian::read_u32(&bytes[4..]),
        session: LittleEndian::read_u32(&bytes[8..]),
        cancel_id: LittleEndian::read_u32(&bytes[12..]),
        pad: LittleEndian::read_u32(&bytes[16..]),
        ret: LittleEndian::read_u32(&bytes[20..]),
        origin: LittleEndian::read_u32(&bytes[24..]),
        count: LittleEndian::read_u32(&bytes[28..]),
    }
}
