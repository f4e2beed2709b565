ghost use Rattle.std.specs.Prelude.{◌≡◌};
ghost use Rattle.rpc_msgs.specs.Place.{arg_at, buffer_at, buffer_of, cookie_told, payload_place, place_for};

use crate::rpc::Rpc;
use crate::rpc_buffer::RpcBuffer;

/// Where a request stands.
#[derive(Clone, Copy)]
pub enum RequestPlace {
    /// In a buffer: the argument at its start, and the payload behind it.
    InBuffer(RpcBuffer),
    /// The argument in the area of 160 bytes that its call has brought along, which stands at this address; and the
    /// payload, if it has one, in this buffer.
    InArea {
        area: u64,
        buffer: Option<RpcBuffer>,
    },
}

impl RequestPlace {
    /// The place of a request of a call that has this area, or none, and this buffer, or none. There is none for a
    /// request that has no place: one with a payload where there is no buffer, and any where there is no area either.
    pub fn of(area: Option<u64>, buffer: Option<RpcBuffer>, rpc: &Rpc) -> Option<RequestPlace>
        ensures { result ≡ place_for area buffer rpc.now }
    {
        match (area, buffer) {
            (None, None) => None,
            (None, Some(buffer)) => Some(RequestPlace::InBuffer(buffer)),
            (Some(_), None) if rpc.has_payload() => None,
            (Some(area), buffer) => Some(RequestPlace::InArea { area, buffer }),
        }
    }

    /// The address of the argument.
    pub fn arg(&self) -> u64
        ensures { result ≡ arg_at self.now }
    {
        match *self {
            RequestPlace::InBuffer(buffer) => buffer.addr,
            RequestPlace::InArea { area, .. } => area,
        }
    }

    /// The buffer of the payload.
    pub fn buffer(&self) -> Option<RpcBuffer>
        ensures { result ≡ buffer_of self.now }
    {
        match *self {
            RequestPlace::InBuffer(buffer) => Some(buffer),
            RequestPlace::InArea { buffer, .. } => buffer,
        }
    }

    /// The address of the payload's buffer.
    pub(crate) fn buffer_at(&self) -> Option<u64>
        ensures { result ≡ buffer_at self.now }
    {
        let buffer = self.buffer()?;
        Some(buffer.addr)
    }

    /// The address of the payload's buffer, and its cookie.
    pub(crate) fn payload_place(&self) -> Option<(u64, u64)>
        ensures { result ≡ payload_place self.now }
    {
        let buffer = self.buffer()?;
        Some((buffer.addr, buffer.cookie))
    }

    /// The cookie that tells the normal world where the argument is. It knows its own area, for which this is 0.
    pub fn cookie(&self) -> u64
        ensures { result ≡ cookie_told self.now }
    {
        match *self {
            RequestPlace::InBuffer(buffer) => buffer.cookie,
            RequestPlace::InArea { .. } => 0,
        }
    }
}
